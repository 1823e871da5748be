//! Where a leftmost search stands that is given its haystack unit by unit: scans, each from where
//! the last one ended, over the units that may have to be read again.

ghost use Rattle.std.specs.Prelude.{◌≡◌, ℕ, ◌+◌, ◌<◌, ◌≤◌, ◌^◌, List, ◌++◌, ◌∷◌, [], ◌⊎◌, None, Some, IfSome, IsTrue, MatchOption, true, false, drop};
ghost use Rattle.std.specs.VecDeque.{deque_capacity, deque_len};
ghost use Rattle.daachorse_model.specs.Units.{size};
ghost use Rattle.daachorse_search.specs.Views.{HasMarks};
ghost use Rattle.daachorse_streams.specs.Searching.{IsAtRoot, IsSearching, Keeps, ReadsTheSame, TakesFront, WalksOn, given_of};

use crate::scan::{Pending, Scan, advance, begin, idle};
use daachorse_core::Match;
use daachorse_core::edge_label::EdgeLabel;
use daachorse_core::turns::{Seen, Turns};
use daachorse_haystack::haystack::Haystack;
use daachorse_search::automaton::Automaton;
use std::alloc::Allocator;
use std::collections::VecDeque;

/// Where a search stands.
#[derive(Drop)]
pub(crate) struct Search<U: EdgeLabel, ALLOC: Allocator> {
    /// The units behind the best match of the scan: those that it read, and then those to read.
    /// Without a best match, the units to read.
    pub(crate) ring: VecDeque<U, ALLOC>,
    /// How many of them the scan read.
    pub(crate) walked: usize,
    pub(crate) scan: Scan,
    /// Whether the next unit is passed over, since the last match was empty.
    pub(crate) skips: bool,
    /// Whether a nonempty match ends where the scan began.
    pub(crate) after: bool,
    /// Whether no more units come.
    pub(crate) ended: bool,
    pub(crate) turns: Turns,
    pub(crate) seen: Seen,
}

/// Reads on until the best match is decided or all units are read.
#[inline(always)]
pub(crate) fn walk<V: Copy, A: Automaton<V>, ALLOC: Allocator>(
    automaton: &A,
    marks: &[bool],
    search: &mut Search<A::Unit, ALLOC>,
)
    requires marks { HasMarks (A.sees automaton.now) marks.now }
    requires stands { IsSearching A.Unit.width (A.sees automaton.now) A.Unit.unit search.old }
    ensures stands { IsSearching A.Unit.width (A.sees automaton.now) A.Unit.unit search.new }
    ensures on { WalksOn search.old search.new }
    ensures stops { (search.new.scan.decided ≡ true) ⊎ (search.new.walked ≡ deque_len search.new.ring) }
{
    'units: while !search.scan.decided && search.walked < search.ring.len() {
        walk_unit(automaton, marks, search);
    }
}

/// Reads one unit, or passes it over.
#[inline(always)]
fn walk_unit<V: Copy, A: Automaton<V>, ALLOC: Allocator>(
    automaton: &A,
    marks: &[bool],
    search: &mut Search<A::Unit, ALLOC>,
)
    requires marks { HasMarks (A.sees automaton.now) marks.now }
    requires stands { IsSearching A.Unit.width (A.sees automaton.now) A.Unit.unit search.old }
    requires open { search.old.scan.decided ≡ false }
    requires some { search.old.walked < deque_len search.old.ring }
    ensures stands { IsSearching A.Unit.width (A.sees automaton.now) A.Unit.unit search.new }
    ensures on { WalksOn search.old search.new }
    ensures fewer { deque_len search.new.ring + search.old.walked + 1 ≡ deque_len search.old.ring + search.new.walked }
{
    let unit = search.ring[search.walked];
    if search.skips {
        let place = search.scan.place + unit.num_bytes();
        search.ring.pop_front();
        search.skips = false;
        search.scan = begin(automaton, marks, place);
        return;
    }
    let kept = advance(automaton, marks, &mut search.scan, unit, &mut search.turns);
    search.walked += 1;
    if !kept {
        drop_front(&mut search.ring, search.walked);
        search.walked = 0;
    }
}

/// Drops the first units of a queue.
#[inline(always)]
fn drop_front<U: EdgeLabel, ALLOC: Allocator>(ring: &mut VecDeque<U, ALLOC>, count: usize)
    requires { count ≤ deque_len ring.old }
    ensures items { ring.new.items ≡ drop count ring.old.items }
    ensures capacity { deque_capacity ring.new ≡ deque_capacity ring.old }
{
    'units: for _ in 0..count {
        ring.pop_front();
    }
}

/// Gives the best match, unless it is empty and comes right after another, and goes on behind it.
#[inline(always)]
pub(crate) fn give<V: Copy, A: Automaton<V>, ALLOC: Allocator>(
    automaton: &A,
    marks: &[bool],
    search: &mut Search<A::Unit, ALLOC>,
    best: Pending,
) -> Option<Match<V>>
    requires marks { HasMarks (A.sees automaton.now) marks.now }
    requires stands { IsSearching A.Unit.width (A.sees automaton.now) A.Unit.unit search.old }
    requires best { search.old.scan.best ≡ Some best }
    requires certain { (search.old.scan.decided ≡ true) ⊎ ((search.old.ended ≡ true) × (search.old.walked ≡ deque_len search.old.ring)) }
    ensures stands { IsSearching A.Unit.width (A.sees automaton.now) A.Unit.unit search.new }
    ensures same { ReadsTheSame search.old search.new }
    ensures given { let K = (A.sees automaton.now).content in MatchOption result (given_of A.Unit.width K search.new ≡ given_of A.Unit.width K search.old)
        (λ m. given_of A.Unit.width K search.new ≡ given_of A.Unit.width K search.old ++ m ∷ []) }
    ensures fewer { result ≡ None → (search.old.after ≡ true) × (search.new.after ≡ false) }
{
    let found = automaton.output(best.position).to_match(best.end);
    search.walked = 0;
    if found.start < found.end {
        search.after = true;
        search.scan = begin(automaton, marks, best.end);
        search.seen.give();
        return Some(found);
    }
    let passed_over = search.after;
    search.after = false;
    search.skips = true;
    search.scan = idle(automaton.root(), best.end);
    if passed_over {
        return None;
    }
    search.seen.give();
    Some(found)
}

/// Whether the scan stands at the root, with no match.
#[inline(always)]
pub(crate) fn is_at_root<V: Copy, A: Automaton<V>, ALLOC: Allocator>(
    automaton: &A,
    search: &Search<A::Unit, ALLOC>,
) -> bool
    requires stands { IsSearching A.Unit.width (A.sees automaton.now) A.Unit.unit search.now }
    ensures { IsTrue result → IsAtRoot (A.sees automaton.now) search.now }
{
    !search.skips && search.scan.best.is_none() && automaton.is_root(search.scan.state)
}

impl<U: EdgeLabel, ALLOC: Allocator> Search<U, ALLOC> {
    /// Takes the first bytes of a block, which are whole units. Passes over each unit from which
    /// the longest pattern ends within these bytes, and keeps the others to read.
    #[inline(always)]
    pub(crate) fn pass_over<H: Haystack<U>>(&mut self, mut block: H, bytes: usize)
        requires units { (front : List ℕ) × (back : List ℕ) × (H.rest block ≡ front ++ back) × (bytes ≡ size U.width front) }
        requires none { self.old.ring.items ≡ [] }
        requires room { 0 < deque_capacity self.old.ring }
        requires fits { self.old.scan.place + bytes < 2 ^ 64 }
        ensures { (front back : List ℕ) → H.rest block ≡ front ++ back → bytes ≡ size U.width front → TakesFront U.width U.unit self.old front self.new }
    {
        let longest = self.ring.capacity();
        let mut left = bytes;
        'units: while left >= longest {
            let Some(unit) = block.next() else {
                return;
            };
            self.scan.place += unit.num_bytes();
            self.seen.push(unit.code());
            left -= unit.num_bytes();
        }
        self.keep(block, left);
    }

    /// Takes the first bytes of a block, which are whole units, and keeps them to read.
    #[inline(always)]
    fn keep<H: Haystack<U>>(&mut self, mut block: H, bytes: usize)
        requires units { (front : List ℕ) × (back : List ℕ) × (H.rest block ≡ front ++ back) × (bytes ≡ size U.width front) }
        requires room { deque_len self.old.ring + bytes ≤ deque_capacity self.old.ring }
        ensures { (front back : List ℕ) → H.rest block ≡ front ++ back → bytes ≡ size U.width front → Keeps U.unit self.old front self.new }
    {
        let mut left = bytes;
        'units: while left > 0 {
            let Some(unit) = block.next() else {
                return;
            };
            self.ring.push_back_reserved(unit);
            self.seen.push(unit.code());
            left -= unit.num_bytes();
        }
    }

    /// The best match, if it is certain: where it is decided, and at the end of the haystack.
    #[inline(always)]
    pub(crate) fn certain(&self) -> Option<Pending>
        ensures some { IfSome result (λ best. (self.now.scan.best ≡ Some best) × ((self.now.scan.decided ≡ true) ⊎ (self.now.ended ≡ true))) }
        ensures none { result ≡ None → (self.now.scan.best ≡ None) ⊎ ((self.now.scan.decided ≡ false) × (self.now.ended ≡ false)) }
    {
        if self.scan.decided || self.ended {
            return self.scan.best;
        }
        None
    }
}
