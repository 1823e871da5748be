//! Units whose bytes come one by one.

ghost use Rattle.std.specs.Prelude.{◌≡◌, ◌++◌, ℕ, List, [], ◌∷◌, length};
ghost use Rattle.daachorse_model.specs.Units.{size};
ghost use Rattle.daachorse_c.specs.declared.unit.Unit.{Unit};
ghost use Rattle.daachorse_c.specs.declared.unit.Unit.TheVariants.{Byte, Character};
ghost use Rattle.daachorse_c.specs.Units.{IsOpenIn, IsPushed, spelled_in};

use crate::partial::Partial;
use daachorse_search::step_unit::StepUnit;

/// What a byte makes of the bytes of a partial unit.
#[derive(Drop)]
pub enum Pushed<U> {
    /// The whole unit.
    Whole(U),
    /// A partial unit. More of its bytes have to come.
    Open(Partial),
    /// Bytes with which no unit begins.
    Wrong,
}

/// A unit of streams, whose bytes come one by one.
pub trait StreamUnit: StepUnit {
    /// Which unit it is.
    ghost which: { Unit };

    /// Appends a byte to those of a partial unit, if one has.
    fn push(partial: &Partial, byte: u8) -> Pushed<Self>
        requires { IsOpenIn which partial.now }
        ensures { IsPushed which Self.EdgeLabel.unit (partial.now ++ byte ∷ []) result };

    // Its bytes spell it.
    ghost sized: { (w : List ℕ) → length (spelled_in which w) ≡ size Self.EdgeLabel.width w };
}

impl StreamUnit for u8 {
    ghost use Rattle.daachorse_c.specs.Spelling.{spelled-bytes};

    ghost which = { Byte };

    #[inline(always)]
    fn push(_partial: &Partial, byte: u8) -> Pushed<u8> {
        Pushed::Whole(byte)
    }

    ghost sized = { spelled-bytes };
}

impl StreamUnit for char {
    ghost use Rattle.daachorse_c.specs.Spelling.{spelled-characters};

    ghost which = { Character };

    fn push(partial: &Partial, byte: u8) -> Pushed<char> {
        let partial = partial.with(byte);
        match str::from_utf8(partial.as_slice()) {
            Ok(text) => match text.chars().next() {
                Some(character) => Pushed::Whole(character),
                None => Pushed::Wrong,
            },
            Err(error) => match error.error_len() {
                Some(_) => Pushed::Wrong,
                None => Pushed::Open(partial),
            },
        }
    }

    ghost sized = { spelled-characters };
}
