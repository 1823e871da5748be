//! A count for contracts alone, which takes no byte at run time.

ghost use Rattle.std.specs.Prelude.{◌≡◌, ◌+◌};

use std::alloc::AllocError;
use std::marker::Model;
use std::snapshot::Snapshot;

/// The history of a count. Only snapshots of it are kept, which take no bytes.
#[derive(Drop)]
pub enum Count {
    /// Nothing was counted.
    Zero,
    /// As many as before.
    Same(Snapshot<Snapshot<Count>>),
    /// One more than before.
    More(Snapshot<Snapshot<Count>>),
    /// As many as two counts together.
    Sum(Snapshot<Snapshot<Count>>, Snapshot<Snapshot<Count>>),
}

/// A natural number for contracts alone. It takes no byte, and has no greatest value.
#[derive(Drop)]
pub struct Counter {
    count: Snapshot<Count>,
}

impl Model for Counter {
    ghost use Rattle.std.specs.Prelude.{ℕ};

    ghost Value = { ℕ };

    ghost use Rattle.daachorse_core.specs.Counts.{number_of};

    ghost view = { λ c. number_of c.count.value };
}

impl Counter {
    /// Starts at zero.
    pub fn new() -> Counter
        ensures { result ≡ 0 }
    {
        Counter {
            count: Snapshot::of(&Count::Zero),
        }
    }

    /// Adds one.
    pub fn increment(&mut self)
        ensures { self.new ≡ self.old + 1 }
    {
        let more = Count::More(Snapshot::of(&self.count));
        self.count = Snapshot::of(&more);
    }

    /// Adds the count of another counter.
    pub fn add(&mut self, other: &Counter)
        ensures { self.new ≡ self.old + other.now }
    {
        let sum = Count::Sum(Snapshot::of(&self.count), Snapshot::of(&other.count));
        self.count = Snapshot::of(&sum);
    }

    fn same(&self) -> Counter
        ensures { result ≡ self.now }
    {
        let same = Count::Same(Snapshot::of(&self.count));
        Counter {
            count: Snapshot::of(&same),
        }
    }
}

impl Clone for Counter {
    ghost use Rattle.std.specs.Prelude.{◌≡◌};

    ghost is_clone = { λ c d. d ≡ c };

    ghost is_infallible = { λ _. Unit {0} };

    fn clone(&self) -> Result<Counter, AllocError> {
        Ok(self.same())
    }
}

const _: () = prove!(size_of::<Counter>() == 0);
