//! Labels without regard to the case of ASCII letters.

ghost use Rattle.std.specs.Prelude.{◌≡◌, ℕ};
ghost use Rattle.daachorse_model.specs.Folding.{folded_unit, folded};

use crate::edge_label::EdgeLabel;

/// A label that can be folded: A to Z become a to z, and any other label stays.
pub trait AsciiFold: EdgeLabel {
    /// The folded label.
    ghost fold: { Self → Self };

    /// Returns the folded label.
    fn folded(&self) -> Self
        ensures { result ≡ fold self.now };

    // Folding a label folds its unit, and keeps the width.
    ghost folds: { (a : Self) → Self.EdgeLabel.unit (fold a) ≡ folded_unit (Self.EdgeLabel.unit a) };

    ghost as_wide: { (u : ℕ) → Self.EdgeLabel.width (folded_unit u) ≡ Self.EdgeLabel.width u };

    // Folding a label folds each of its bytes.
    ghost spelled: { (a : Self) → Self.EdgeLabel.form (fold a) ≡ folded (Self.EdgeLabel.form a) };
}

// A table: one load for five instructions, and no branch on the byte.
static FOLDED: [u8; 256] = *b"\
    \x00\x01\x02\x03\x04\x05\x06\x07\x08\x09\x0a\x0b\x0c\x0d\x0e\x0f\
    \x10\x11\x12\x13\x14\x15\x16\x17\x18\x19\x1a\x1b\x1c\x1d\x1e\x1f\
    \x20!\"#$%&'()*+,-./\
    0123456789:;<=>?\
    @abcdefghijklmno\
    pqrstuvwxyz[\\]^_\
    `abcdefghijklmno\
    pqrstuvwxyz{|}~\x7f\
    \x80\x81\x82\x83\x84\x85\x86\x87\x88\x89\x8a\x8b\x8c\x8d\x8e\x8f\
    \x90\x91\x92\x93\x94\x95\x96\x97\x98\x99\x9a\x9b\x9c\x9d\x9e\x9f\
    \xa0\xa1\xa2\xa3\xa4\xa5\xa6\xa7\xa8\xa9\xaa\xab\xac\xad\xae\xaf\
    \xb0\xb1\xb2\xb3\xb4\xb5\xb6\xb7\xb8\xb9\xba\xbb\xbc\xbd\xbe\xbf\
    \xc0\xc1\xc2\xc3\xc4\xc5\xc6\xc7\xc8\xc9\xca\xcb\xcc\xcd\xce\xcf\
    \xd0\xd1\xd2\xd3\xd4\xd5\xd6\xd7\xd8\xd9\xda\xdb\xdc\xdd\xde\xdf\
    \xe0\xe1\xe2\xe3\xe4\xe5\xe6\xe7\xe8\xe9\xea\xeb\xec\xed\xee\xef\
    \xf0\xf1\xf2\xf3\xf4\xf5\xf6\xf7\xf8\xf9\xfa\xfb\xfc\xfd\xfe\xff";

impl AsciiFold for u8 {
    ghost use Rattle.daachorse_model.specs.Folding.{folded_unit};
    ghost use Rattle.daachorse_core.specs.FoldedForms.{byte_folds, byte_as_wide, byte_spelled};

    ghost fold = { folded_unit };

    #[inline(always)]
    fn folded(&self) -> u8 {
        FOLDED[*self as usize]
    }

    ghost folds = { byte_folds };

    ghost as_wide = { byte_as_wide };

    ghost spelled = { byte_spelled };
}

impl AsciiFold for char {
    ghost use Rattle.daachorse_model.specs.Folding.{folded_unit};
    ghost use Rattle.daachorse_core.specs.FoldedForms.{char_folds, char_as_wide, char_spelled};

    ghost fold = { folded_unit };

    #[inline(always)]
    fn folded(&self) -> char {
        if (*self as u32) < 0x80 {
            char::from((*self as u8).folded())
        } else {
            *self
        }
    }

    ghost folds = { char_folds };

    ghost as_wide = { char_as_wide };

    ghost spelled = { char_spelled };
}
