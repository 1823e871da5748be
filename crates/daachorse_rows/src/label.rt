//! Labels by which rows are looked up: bytes, or numbers of characters.

ghost use Rattle.std.specs.Prelude.{◌≡◌, ◌<◌, ◌^◌, ℕ};

/// Labels with a number below this have slots in the rows. That leaves room for 196 rows at least.
pub const SLOTTED: u32 = 638;

/// A label by which rows are looked up.
pub trait RowLabel: Copy + Drop {
    /// The number of a label.
    ghost number: { Self → ℕ };

    /// The number of any label is below it.
    ghost most: { ℕ };

    /// Returns the number of the label.
    fn index(self) -> usize
        ensures is { result ≡ number self }
        ensures below { number self < most };

    // Labels of the same number are equal.
    ghost exact: { (a b : Self) → number a ≡ number b → a ≡ b };
}

impl RowLabel for u8 {
    ghost use Rattle.daachorse_rows.specs.Rows.{exact_number};

    ghost number = { λ byte. byte };

    ghost most = { 256 };

    #[inline(always)]
    fn index(self) -> usize {
        self as usize
    }

    ghost exact = { exact_number };
}

impl RowLabel for u32 {
    ghost use Rattle.std.specs.Prelude.{◌^◌};
    ghost use Rattle.daachorse_rows.specs.Rows.{exact_number};

    ghost number = { λ code. code };

    ghost most = { 2 ^ 32 };

    #[inline(always)]
    fn index(self) -> usize {
        self as usize
    }

    ghost exact = { exact_number };
}
