//! Labels of edges: the units of patterns and haystacks, which are bytes or characters.

ghost use Rattle.std.specs.Prelude.{◌≡◌, ℕ, ◌<◌, ◌≤◌, ◌^◌, ◌++◌, List, length};
ghost use Rattle.std.specs.Ordering.{nat_cmp};
ghost use Rattle.std.specs.Cmp.Lexicographic.{slice_cmp};

/// A label of an edge: a byte or a character.
pub trait EdgeLabel: Copy + Ord + Drop {
    /// The values that are labels: 0 to 255, or the Unicode scalar values.
    ghost is_label: { Self → Type 0 };

    /// The label's unit, as a number.
    ghost unit: { Self → ℕ };

    /// How many bytes a unit takes in a haystack.
    ghost width: { ℕ → ℕ };

    /// The bytes of the label: the byte itself, or the UTF-8 of the character.
    ghost form: { Self → List ℕ };

    /// Returns how many bytes the label takes: 1 to 4.
    fn num_bytes(&self) -> usize
        ensures { result ≡ width (unit self.now) };

    /// Returns the label's unit.
    fn code(&self) -> u32
        ensures { result ≡ unit self.now };

    /// Does nothing. Its contract says that a label in hand is in range.
    fn in_range(&self)
        ensures { is_label self.now };

    // Labels of the same unit are equal.
    ghost exact: { (a b : Self) → unit a ≡ unit b → a ≡ b };

    // Labels are ordered by their units.
    ghost by_unit: { (a b : Self) → Self.Ord.cmp a b ≡ nat_cmp (unit a) (unit b) };

    // Every unit takes at least one byte, so a byte offset says how many units precede it.
    ghost wide: { (u : ℕ) → 1 ≤ width u };

    // A form has as many bytes as the unit is wide, 1 to 4.
    ghost sized: { (a : Self) → is_label a → length (form a) ≡ width (unit a) };

    ghost short: { (a : Self) → is_label a → (1 ≤ width (unit a)) × (width (unit a) ≤ 4) };

    // Forms are prefix-free.
    ghost apart: { (a b : Self) (x y : List ℕ) → is_label a → is_label b → form a ++ x ≡ form b ++ y → a ≡ b };

    // Labels are ordered as their forms are, byte by byte.
    ghost ordered: { (a b : Self) → is_label a → is_label b → Self.Ord.cmp a b ≡ slice_cmp nat_cmp (form a) (form b) };
}

impl EdgeLabel for u8 {
    ghost use Rattle.std.specs.Prelude.{◌<◌, ◌^◌, ◌∷◌, []};
    ghost use Rattle.daachorse_model.specs.Units.{byte_width};
    ghost use Rattle.daachorse_core.specs.ByteForms.{byte_apart, byte_exact, byte_by_unit, byte_ordered, byte_short, byte_sized, byte_wide};

    ghost is_label = { λ b. b < 2 ^ 8 };

    ghost unit = { λ b. b };

    ghost width = { byte_width };

    ghost form = { λ b. b ∷ [] };

    fn num_bytes(&self) -> usize {
        1
    }

    fn code(&self) -> u32 {
        u32::from(*self)
    }

    fn in_range(&self) {
        let _value = *self;
    }

    ghost exact = { byte_exact };

    ghost by_unit = { byte_by_unit };

    ghost wide = { byte_wide };

    ghost sized = { byte_sized };

    ghost short = { byte_short };

    ghost apart = { byte_apart };

    ghost ordered = { byte_ordered };
}

impl EdgeLabel for char {
    ghost use Rattle.std.specs.Char.{IsScalar, encode_utf8};
    ghost use Rattle.daachorse_model.specs.Units.{char_width};
    ghost use Rattle.daachorse_core.specs.CharForms.{char_apart, char_exact, char_by_unit, char_ordered, char_short, char_sized, char_wide};

    ghost is_label = { IsScalar };

    ghost unit = { λ c. c };

    ghost width = { char_width };

    ghost form = { encode_utf8 };

    // `len_utf8` for the search loops: ASCII first, and no branch for the rest.
    fn num_bytes(&self) -> usize {
        let code = *self as u32;
        if code < 0x80 {
            1
        } else {
            usize::from(code >= 0x800) + usize::from(code >= 0x1_0000) + 2
        }
    }

    fn code(&self) -> u32 {
        *self as u32
    }

    fn in_range(&self) {
        let _scalar = *self;
    }

    ghost exact = { char_exact };

    ghost by_unit = { char_by_unit };

    ghost wide = { char_wide };

    ghost sized = { char_sized };

    ghost short = { char_short };

    ghost apart = { char_apart };

    ghost ordered = { char_ordered };
}
