//! The options of a build.

ghost use Rattle.std.specs.Prelude.{◌≡◌, ◌↔◌, IsTrue};
ghost use Rattle.daachorse_c.specs.Options.{AreKnown, settings_of};

use crate::building::Settings;
use crate::unit::Unit;

/// The options of a build, each 0 if it is not asked for.
#[repr(C)]
#[derive(Clone, Copy)]
pub struct Options {
    /// The number of the kind.
    pub kind: u32,
    /// 1 if searches do not skip places where no pattern begins.
    pub no_prefilter: u32,
    /// 1 if A to Z are read as a to z.
    pub ascii_case_insensitive: u32,
    /// 1 if the automaton is over characters, and not over bytes.
    pub unit: u32,
    /// For later options.
    pub spare: [u32; 4],
}

impl Options {
    /// Whether each option is one of this version.
    pub(crate) fn are_known(&self) -> bool
        ensures { IsTrue result ↔ AreKnown self.now }
    {
        self.no_prefilter <= 1
            && self.ascii_case_insensitive <= 1
            && self.unit <= 1
            && self.spare == [0; 4]
    }

    /// What the options ask for.
    pub(crate) fn settings(&self) -> Settings
        requires { AreKnown self.now }
        ensures { result ≡ settings_of self.now }
    {
        Settings {
            unit: Unit::numbered(self.unit),
            kind: self.kind,
            use_prefilter: self.no_prefilter != 1,
            ascii_case_insensitive: self.ascii_case_insensitive == 1,
        }
    }
}
