//! What a haystack is cut into: bytes or text.

ghost use Rattle.std.specs.Prelude.{◌≡◌, ◌≤◌, ℕ, List, length, slice_range};
ghost use Rattle.std.specs.Str.{IsCharBoundary};

/// A part of a haystack that can be cut further.
pub trait Piece: Copy {
    /// Its bytes.
    ghost bytes: { Self → List ℕ };

    /// Whether it may be cut at this place.
    ghost may_cut: { Self → ℕ → Type 0 };

    /// Its bytes.
    fn as_bytes(&self) -> &[u8]
        ensures { result.now ≡ bytes self.now };

    /// Its length in bytes.
    fn end(&self) -> usize
        ensures end { result ≡ length (bytes self.now) }
        ensures cut { may_cut self.now result };

    /// The part from `start` to `end`.
    fn part(self, start: usize, end: usize) -> Self
        requires ordered { start ≤ end }
        requires starts { may_cut self start }
        requires ends { may_cut self end }
        ensures { bytes result ≡ slice_range (bytes self) start end };

    // A cut is within the piece.
    ghost within: { (s : Self) (i : ℕ) → may_cut s i → i ≤ length (bytes s) };
}

impl<'a> Piece for &'a [u8] {
    ghost bytes = { λ s. s.now };

    ghost may_cut = { λ s i. i ≤ length s.now };

    ghost within = { λ s i h. h };

    #[inline(always)]
    fn as_bytes(&self) -> &[u8] {
        self
    }

    #[inline(always)]
    fn end(&self) -> usize {
        self.len()
    }

    #[inline(always)]
    fn part(self, start: usize, end: usize) -> Self {
        &self[start..end]
    }
}

impl<'a> Piece for &'a str {
    ghost bytes = { λ s. s.now };

    ghost may_cut = { λ s i. IsCharBoundary s.now i };

    ghost within = { λ s i h. h.0 };

    #[inline(always)]
    fn as_bytes(&self) -> &[u8] {
        str::as_bytes(self)
    }

    #[inline(always)]
    fn end(&self) -> usize {
        self.len()
    }

    #[inline(always)]
    fn part(self, start: usize, end: usize) -> Self {
        &self[start..end]
    }
}
