//! What a search did, for contracts alone: how many turns it took, and which units it read.
//!
//! A turn is a look at one state. A search keeps its own [`Turns`] and [`Seen`], which take no byte
//! at run time.

ghost use Rattle.std.specs.Prelude.{◌≡◌, ◌+◌, ◌++◌, ◌∷◌, []};
ghost use Rattle.daachorse_core.specs.Seen.{unread};

use crate::counter::Counter;
use std::alloc::AllocError;
use std::marker::Model;
use std::num::NonZeroU32;
use std::snapshot::Snapshot;

/// What a look at one state returns.
#[derive(Clone, Copy, Debug, PartialEq, Eq)]
pub enum Look {
    /// The step ends at this state, whose first output, if any, is at this position.
    Next(u32, Option<NonZeroU32>),
    /// The failure link leads to this state, which is looked at next.
    Fail(u32),
}

/// How many turns a search took. Contracts bound its work by them.
#[derive(Drop)]
pub struct Turns {
    count: Counter,
}

impl Model for Turns {
    ghost use Rattle.std.specs.Prelude.{ℕ};

    ghost Value = { ℕ };

    ghost view = { λ t. t.count };
}

impl Turns {
    /// Starts at no turns.
    pub fn new() -> Turns
        ensures { result ≡ 0 }
    {
        Turns {
            count: Counter::new(),
        }
    }

    /// Counts one turn.
    pub fn tick(&mut self)
        ensures { self.new ≡ self.old + 1 }
    {
        self.count.increment();
    }

    /// Counts the turns of another walk too.
    pub fn add(&mut self, other: &Turns)
        ensures { self.new ≡ self.old + other.now }
    {
        self.count.add(&other.count);
    }
}

impl Clone for Turns {
    ghost use Rattle.std.specs.Prelude.{◌≡◌};

    ghost is_clone = { λ s t. t ≡ s };

    ghost is_infallible = { λ _. Unit {0} };

    fn clone(&self) -> Result<Turns, AllocError> {
        Ok(Turns {
            count: self.count.clone()?,
        })
    }
}

/// The history of a search. Only snapshots of it are kept, which take no bytes.
#[derive(Drop)]
pub enum History {
    /// Nothing happened.
    Start,
    /// As before.
    Same(Snapshot<Snapshot<History>>),
    /// A unit was read and looked up.
    Read(Snapshot<Snapshot<History>>, u32),
    /// A unit was read and not looked up; the search restarts after it.
    Skip(Snapshot<Snapshot<History>>, u32),
    /// The search restarted at the root.
    Restart(Snapshot<Snapshot<History>>),
    /// A match was returned.
    Give(Snapshot<Snapshot<History>>),
}

/// The units that a search has read, the place from which its state counts, the units that it
/// looked up, and the number of matches that it returned.
///
/// A walk keeps the units, and a search the number alone. A stepper needs no number: the units of
/// its walk say how many matches it gave.
#[derive(Drop)]
pub struct Seen {
    history: Snapshot<History>,
}

impl Model for Seen {
    ghost use Rattle.daachorse_core.specs.Seen.{SeenUnits};

    ghost Value = { SeenUnits };

    ghost use Rattle.daachorse_core.specs.Histories.{seen_of};

    ghost view = { λ s. seen_of s.history.value };
}

impl Seen {
    /// The record of a search that has read nothing.
    pub fn new() -> Seen
        ensures { result ≡ unread }
    {
        Seen {
            history: Snapshot::of(&History::Start),
        }
    }

    /// Records a unit that was read and looked up.
    pub fn push(&mut self, unit: u32)
        ensures { self.new ≡ record self.old { since = self.old.since ++ unit ∷ []; looked = self.old.looked ++ unit ∷ [] } }
    {
        let read = History::Read(Snapshot::of(&self.history), unit);
        self.history = Snapshot::of(&read);
    }

    /// Records a unit that was read and not looked up; the search restarts after it.
    pub fn skip(&mut self, unit: u32)
        ensures { self.new ≡ record self.old { before = (self.old.before ++ self.old.since) ++ unit ∷ []; since = [] } }
    {
        let skip = History::Skip(Snapshot::of(&self.history), unit);
        self.history = Snapshot::of(&skip);
    }

    /// Records that the search restarts at the root: its state counts from here on.
    pub fn restart(&mut self)
        ensures { self.new ≡ record self.old { before = self.old.before ++ self.old.since; since = [] } }
    {
        let restart = History::Restart(Snapshot::of(&self.history));
        self.history = Snapshot::of(&restart);
    }

    /// Records that a match was returned.
    pub fn give(&mut self)
        ensures { self.new ≡ record self.old { given = self.old.given + 1 } }
    {
        let give = History::Give(Snapshot::of(&self.history));
        self.history = Snapshot::of(&give);
    }

    fn same(&self) -> Seen
        ensures { result ≡ self.now }
    {
        let same = History::Same(Snapshot::of(&self.history));
        Seen {
            history: Snapshot::of(&same),
        }
    }
}

impl Clone for Seen {
    ghost use Rattle.std.specs.Prelude.{◌≡◌};

    ghost is_clone = { λ s t. t ≡ s };

    ghost is_infallible = { λ _. Unit {0} };

    fn clone(&self) -> Result<Seen, AllocError> {
        Ok(self.same())
    }
}

const _: () = prove!(size_of::<Turns>() == 0);

const _: () = prove!(size_of::<Seen>() == 0);
