//! The gate that turns off a prefilter that does not pay.

ghost use Rattle.std.specs.Prelude.{ℕ, ◌↔◌, ◌++◌, ◌∷◌, [], List, IsTrue};
ghost use Rattle.daachorse_prefilter.specs.Gates.{IsPaying};

/// The number of runs in a group.
const NUM_RUNS: u32 = 64;

/// A group of runs that skips fewer bytes than this closes the gate.
const MIN_SKIPPED: usize = 512;

/// A gate before a prefilter, which closes for good if runs of the prefilter skip too little. Each
/// search has one of its own.
#[derive(Clone, Drop)]
pub struct PrefilterGate {
    // The runs since the last whole group, and the bytes that they skipped.
    runs: u32,
    skipped: usize,
    is_enabled: bool,
}

impl PrefilterGate {
    ghost use Rattle.daachorse_prefilter.specs.Gates.{HasRecorded};

    /// An open gate.
    pub fn new() -> Self
        ensures { HasRecorded result [] }
    {
        Self {
            runs: 0,
            skipped: 0,
            is_enabled: true,
        }
    }

    /// Whether the gate is open.
    #[inline(always)]
    pub fn is_enabled(&self) -> bool
        ensures { (gains : List ℕ) → HasRecorded self.now gains → IsTrue result ↔ IsPaying gains }
    {
        self.is_enabled
    }

    /// Records that a run of the prefilter skipped `gain` bytes.
    #[inline(always)]
    pub fn record(&mut self, gain: usize)
        ensures { (gains : List ℕ) →
            HasRecorded self.old gains → HasRecorded self.new (gains ++ gain ∷ []) }
    {
        self.skipped = self.skipped.saturating_add(gain);
        if self.runs < NUM_RUNS - 1 {
            self.runs += 1;
            return;
        }
        if self.skipped < MIN_SKIPPED {
            self.is_enabled = false;
        }
        self.runs = 0;
        self.skipped = 0;
    }
}
