//! The modes: what the program finds, and the word that asks for it.

ghost use Rattle.std.specs.Prelude.{◌≡◌, ◌↔◌};
ghost use Rattle.daacfind_command.specs.Modes.{kind_of_mode, mode_word};

use daachorse::MatchKind;

/// Which matches are found.
#[derive(Clone, Copy, Debug, PartialEq, Eq)]
pub enum Mode {
    /// Every match, also those that overlap.
    Overlapping,
    /// The longest match at each end.
    NoSuffix,
    /// Matches that do not overlap, each ending as early as possible.
    Find,
    /// Leftmost matches, the longest at each start.
    Longest,
    /// Leftmost matches, the first registered at each start.
    First,
}

impl Mode {
    /// Returns the mode that the word names, if any.
    pub fn from_word(word: &str) -> Option<Mode>
        ensures { (mode : Mode) → (result ≡ Some mode) ↔ (word.now ≡ mode_word mode) }
    {
        match word {
            "overlapping" => Some(Mode::Overlapping),
            "nosuffix" => Some(Mode::NoSuffix),
            "find" => Some(Mode::Find),
            "longest" => Some(Mode::Longest),
            "first" => Some(Mode::First),
            _ => None,
        }
    }
    /// Returns the kind of automaton that the mode needs.
    pub fn match_kind(self) -> MatchKind
        ensures { result ≡ kind_of_mode self }
    {
        match self {
            Mode::Overlapping | Mode::NoSuffix | Mode::Find => MatchKind::Standard,
            Mode::Longest => MatchKind::LeftmostLongest,
            Mode::First => MatchKind::LeftmostFirst,
        }
    }
}
