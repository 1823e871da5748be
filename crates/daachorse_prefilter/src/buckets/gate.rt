//! The gate that turns off buckets that do not pay.

ghost use Rattle.std.specs.Prelude.{◌≡◌, true, false};

/// After this many runs the gate looks at what was skipped.
const NUM_RUNS: usize = 16;

/// Fewer bytes a run than this close the gate.
const MIN_SKIPPED: usize = 20;

/// A gate before buckets, which closes for good if runs skip too little.
#[derive(Clone, Copy, Drop)]
pub(crate) struct BucketsGate {
    // The runs of a search, and the bytes that they skipped.
    runs: usize,
    skipped: usize,
    is_open: bool,
}

impl BucketsGate {
    /// An open gate.
    pub fn new() -> Self
        ensures { result.is_open ≡ true }
    {
        Self {
            runs: 0,
            skipped: 0,
            is_open: true,
        }
    }

    /// Whether the gate is open.
    #[inline(always)]
    pub fn is_open(&self) -> bool
        ensures { result ≡ self.now.is_open }
    {
        self.is_open
    }

    /// The gate after a run that skipped `gain` bytes. Without buckets it stays as it is.
    pub fn after(self, has_buckets: bool, gain: usize) -> Self
        ensures { has_buckets ≡ false → result ≡ self }
    {
        if !has_buckets {
            return self;
        }
        let runs = self.runs.saturating_add(1);
        let skipped = self.skipped.saturating_add(gain);
        let is_paying = runs % NUM_RUNS != 0 || skipped >= runs.saturating_mul(MIN_SKIPPED);
        Self {
            runs,
            skipped,
            is_open: self.is_open && is_paying,
        }
    }
}
