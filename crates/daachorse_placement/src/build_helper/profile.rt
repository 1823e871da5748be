//! How often a corpus visits each state, by which groups of siblings are weighed.

ghost use Rattle.std.specs.Prelude.{◌≡◌, [], ◌↔◌, IsTrue, OnOk, OnErr, IfErr};
ghost use Rattle.daachorse_core.specs.declared.errors.DaachorseError.TheVariants.{OutOfMemory};
ghost use Rattle.daachorse_placement.specs.Profiles.{first_counts};

use daachorse_core::errors::Result;
use std::alloc::{Allocator, Global};

/// What searches over a corpus read, counted by state id: two numbers of 64 bits for each state.
#[derive(Drop)]
pub struct Profile<A: Allocator = Global> {
    /// How often a step began or ended with the state.
    pub visits: Vec<usize, A>,
    /// How often a step from the state found no child by its label.
    pub probes: Vec<usize, A>,
}

impl<A: Allocator + Copy> Profile<A> {
    /// The profile of no corpus.
    pub fn new(alloc: A) -> Self
        ensures visits { result.visits.items ≡ [] }
        ensures probes { result.probes.items ≡ [] }
    {
        Self {
            visits: Vec::new(alloc),
            probes: Vec::new(alloc),
        }
    }
}

impl<A: Allocator> Profile<A> {
    /// Whether there are no counts, as without a corpus.
    pub fn is_empty(&self) -> bool
        ensures { IsTrue result ↔ (self.now.visits.items ≡ []) }
    {
        self.visits.is_empty()
    }

    /// Gives both lists `len` counts, new ones 0. If an allocation fails, nothing changes.
    pub fn resize(&mut self, len: usize) -> Result<()>
        ensures visits { OnOk result (self.new.visits.items ≡ first_counts self.old.visits.items len) }
        ensures probes { OnOk result (self.new.probes.items ≡ first_counts self.old.probes.items len) }
        ensures same_visits { OnErr result (self.new.visits.items ≡ self.old.visits.items) }
        ensures same_probes { OnErr result (self.new.probes.items ≡ self.old.probes.items) }
        ensures err { IfErr result (λ e. e ≡ OutOfMemory (record {})) }
    {
        let missing = len.saturating_sub(self.probes.len());
        self.probes.reserve(missing)?;
        self.visits.resize(len, 0)?;
        self.probes.resize(len, 0)?;
        Ok(())
    }
}
