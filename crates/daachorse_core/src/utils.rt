//! The conversion of `u32` to `usize`, which loses nothing on a machine of 64 bits.

ghost use Rattle.std.specs.Prelude.{◌≡◌, ℕ};

/// A type that holds every `u32`.
pub trait FromU32 {
    /// The number that a value stands for.
    ghost number: { Self → ℕ };

    /// Returns `src` as a value of this type.
    fn from_u32(src: u32) -> Self
        ensures { number result ≡ src };
}

impl FromU32 for usize {
    ghost number = { λ n. n };

    fn from_u32(src: u32) -> Self {
        src as usize
    }
}
