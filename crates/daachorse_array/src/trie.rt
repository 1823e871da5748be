//! A trie with links that may be wrong, and their check.
//!
//! The links are first followed as a build follows them, which is fast: they lead to short texts,
//! whose ranks stand together at the front. Some tries would take quadratic time that way. Past a
//! limit of steps a tour decides instead, in time linear in the ranks and the labels.
//!
//! If each link leads to an earlier rank, right or wrong, the links form a forest. The tour comes
//! to each rank after its link, and between ranks it only goes back along links. For each label
//! it keeps the child by that label of the nearest rank on the way back. This child is near, and
//! is the right link of the next child by the label.

ghost use Rattle.std.specs.Prelude.{◌≡◌, ◌↔◌, ℕ, IsTrue, ◌<◌, ◌≤◌, ◌^◌, length, cond, IfOk, IfErr};
ghost use Rattle.daachorse_core.specs.Refusals.{IsOutOfMemory};
ghost use Rattle.daachorse_array.specs.Ranks.{IsOrder, IsTrieOfRanks, HasLinks, LinksFall, AreStarts, stop};
ghost use Rattle.daachorse_array.specs.Near.{up, near, top, above, root_value, or_top, IsAbove, AreNear, IsChecked, IsSaved};
ghost use Rattle.daachorse_array.specs.Tours.{IsTour};

mod following;

use daachorse_core::errors::Result;
use std::alloc::{Allocator, Global};

/// A trie whose elements go by rank, which is their number in breadth-first order, 0 for the root.
/// Its links may be wrong.
#[derive(Drop)]
pub struct Trie<A: Allocator = Global> {
    /// The parent of each rank; not read for the root.
    pub parents: Vec<u32, A>,
    /// The label that leads to each rank from its parent; not read for the root.
    pub labels: Vec<u32, A>,
    /// The link of each rank, or the number of ranks for a dead link; not read for the root.
    pub fails: Vec<u32, A>,
    /// Whether each rank ends a key.
    pub stops: Vec<bool, A>,
}

impl<A: Allocator + Copy> Trie<A> {
    /// Whether each link but the root's is dead or leads to an earlier rank.
    fn links_fall(&self) -> bool
        requires few { length self.now.fails.items < 2 ^ 32 }
        ensures { IsTrue result ↔ LinksFall self.now.fails.items }
    {
        let count = self.fails.len() as u32;
        for m in 1..count {
            let fail = self.fails[m as usize];
            if fail >= m && fail != count {
                return false;
            }
        }
        true
    }

    /// The link of rank p; the number of ranks for the root.
    fn above(&self, p: u32) -> u32
        requires few { length self.now.fails.items < 2 ^ 32 }
        requires within { p < length self.now.fails.items }
        ensures { result ≡ up self.now.fails.items p }
    {
        if p == 0 {
            return self.fails.len() as u32;
        }
        self.fails[p as usize]
    }

    /// Where children begin: those of rank p are the ranks from entry p until entry p + 1.
    fn starts(&self, alloc: A) -> Result<Vec<u32, A>>
        requires order { IsOrder self.now.parents.items }
        requires few { length self.now.parents.items < 2 ^ 32 }
        ensures ok { IfOk result (λ starts. AreStarts self.now.parents.items starts.items) }
        ensures err { IfErr result IsOutOfMemory }
    {
        let count = self.parents.len() as u32;
        let mut starts = Vec::with_capacity(alloc, self.parents.len())?;
        for m in 1..count {
            let parent = self.parents[m as usize];
            while starts.len() <= parent as usize {
                starts.push(m)?;
            }
        }
        while starts.len() <= count as usize {
            starts.push(count)?;
        }
        Ok(starts)
    }

    /// For each rank the next one in an order in which a rank comes after its link, and its link
    /// is on the link path of the rank before it. The last entry is the first rank.
    fn tour(&self, alloc: A) -> Result<Vec<u32, A>>
        requires few { length self.now.fails.items < 2 ^ 32 }
        requires fall { LinksFall self.now.fails.items }
        ensures ok { IfOk result (λ next. IsTour (up self.now.fails.items) (length self.now.fails.items) next.items (length self.now.fails.items)) }
        ensures err { IfErr result IsOutOfMemory }
    {
        let count = self.fails.len() as u32;
        let mut next = vec![in alloc; count; self.fails.len() + 1]?;
        for m in 0..count {
            let above = self.above(m);
            next[m as usize] = next[above as usize];
            next[above as usize] = m;
        }
        Ok(next)
    }

    /// The link of a child for which nothing is near, in the tree of links below p: the root if p
    /// is the root and does not stop, else dead.
    fn root_value(&self, p: u32) -> u32
        requires few { length self.now.fails.items < 2 ^ 32 }
        requires some { 0 < length self.now.stops.items }
        ensures { result ≡ root_value self.now.stops.items (length self.now.fails.items) p }
    {
        if p == 0 {
            if !self.stops[0] {
                return 0;
            }
        }
        self.fails.len() as u32
    }

    /// The right link of rank m. `found` is what is near above its parent, 0 for nothing; `other`
    /// is the link in that case.
    fn right_link(&self, m: u32, found: u32, other: u32) -> u32
        requires few { length self.now.fails.items < 2 ^ 32 }
        requires within { m < length self.now.stops.items }
        ensures { result ≡ cond (stop self.now.stops.items m) (length self.now.fails.items) (or_top found other) }
    {
        if self.stops[m as usize] {
            return self.fails.len() as u32;
        }
        if found == 0 {
            return other;
        }
        found
    }

    /// Goes from rank p's link to p, and returns whether the links of p's children are right. If
    /// so, the children are near, and what was near is saved.
    fn enter(
        &self,
        starts: &[u32],
        near: &mut Vec<u32, A>,
        saved: &mut Vec<u32, A>,
        p: u32,
        other: u32,
    ) -> bool
        requires trie { IsTrieOfRanks self.now.parents.items self.now.labels.items (length near.old.items) }
        requires each { length self.now.fails.items ≡ length self.now.parents.items }
        requires stops { length self.now.stops.items ≡ length self.now.parents.items }
        requires few { length self.now.parents.items < 2 ^ 32 }
        requires fall { LinksFall self.now.fails.items }
        requires starts { AreStarts self.now.parents.items starts.now }
        requires within { p < length self.now.parents.items }
        requires near { AreNear self.now.parents.items self.now.labels.items self.now.fails.items near.old.items (up self.now.fails.items p) }
        requires other { other ≡ top self.now.stops.items self.now.fails.items p }
        requires size { length saved.old.items ≡ length self.now.parents.items }
        ensures same { length near.new.items ≡ length near.old.items }
        ensures size { length saved.new.items ≡ length saved.old.items }
        ensures checked { IsTrue result ↔ IsChecked self.now.parents.items self.now.labels.items self.now.stops.items self.now.fails.items p }
        ensures near { IsTrue result → AreNear self.now.parents.items self.now.labels.items self.now.fails.items near.new.items p }
        ensures saved { IsTrue result → IsSaved self.now.parents.items self.now.labels.items self.now.fails.items saved.new.items p }
        ensures kept { IsTrue result → (q : ℕ) → IsSaved self.now.parents.items self.now.labels.items self.now.fails.items saved.old.items q → IsSaved self.now.parents.items self.now.labels.items self.now.fails.items saved.new.items q }
    {
        let end = starts[p as usize + 1];
        for m in starts[p as usize]..end {
            let label = self.labels[m as usize] as usize;
            let found = near[label];
            if self.right_link(m, found, other) != self.fails[m as usize] {
                return false;
            }
            saved[m as usize] = found;
            near[label] = m;
        }
        true
    }

    /// Goes back from rank p to its link.
    fn leave(&self, starts: &[u32], near: &mut Vec<u32, A>, saved: &[u32], p: u32)
        requires trie { IsTrieOfRanks self.now.parents.items self.now.labels.items (length near.old.items) }
        requires each { length self.now.fails.items ≡ length self.now.parents.items }
        requires few { length self.now.parents.items < 2 ^ 32 }
        requires fall { LinksFall self.now.fails.items }
        requires starts { AreStarts self.now.parents.items starts.now }
        requires within { p < length self.now.parents.items }
        requires size { length saved.now ≡ length self.now.parents.items }
        requires saved { IsSaved self.now.parents.items self.now.labels.items self.now.fails.items saved.now p }
        requires near { AreNear self.now.parents.items self.now.labels.items self.now.fails.items near.old.items p }
        ensures same { length near.new.items ≡ length near.old.items }
        ensures near { AreNear self.now.parents.items self.now.labels.items self.now.fails.items near.new.items (up self.now.fails.items p) }
    {
        let end = starts[p as usize + 1];
        for m in starts[p as usize]..end {
            near[self.labels[m as usize] as usize] = saved[m as usize];
        }
    }

    /// Goes back from rank `from` to the rank `to` on its link path.
    fn retreat(&self, starts: &[u32], near: &mut Vec<u32, A>, saved: &[u32], from: u32, to: u32)
        requires trie { IsTrieOfRanks self.now.parents.items self.now.labels.items (length near.old.items) }
        requires each { length self.now.fails.items ≡ length self.now.parents.items }
        requires few { length self.now.parents.items < 2 ^ 32 }
        requires fall { LinksFall self.now.fails.items }
        requires starts { AreStarts self.now.parents.items starts.now }
        requires within { from ≤ length self.now.parents.items }
        requires size { length saved.now ≡ length self.now.parents.items }
        requires saved { (j : ℕ) → IsSaved self.now.parents.items self.now.labels.items self.now.fails.items saved.now (above (up self.now.fails.items) j from) }
        requires above { IsAbove (up self.now.fails.items) to from }
        requires near { AreNear self.now.parents.items self.now.labels.items self.now.fails.items near.old.items from }
        ensures same { length near.new.items ≡ length near.old.items }
        ensures near { AreNear self.now.parents.items self.now.labels.items self.now.fails.items near.new.items to }
    {
        let mut here = from;
        while here != to {
            self.leave(starts, near, saved, here);
            here = self.above(here);
        }
    }

    /// Whether each rank has the right leftmost link. Every label is below `alphabet`.
    pub fn has_links(&self, alloc: A, alphabet: u32) -> Result<bool>
        requires stops { length self.now.stops.items ≡ length self.now.parents.items }
        requires trie { IsTrieOfRanks self.now.parents.items self.now.labels.items alphabet }
        requires each { length self.now.fails.items ≡ length self.now.parents.items }
        requires few { length self.now.parents.items < 2 ^ 32 }
        ensures ok { IfOk result (λ valid. IsTrue valid ↔ HasLinks self.now.parents.items self.now.labels.items self.now.stops.items self.now.fails.items) }
        ensures err { IfErr result IsOutOfMemory }
    {
        if !self.links_fall() {
            return Ok(false);
        }
        let count = self.fails.len() as u32;
        let starts = self.starts(alloc)?;
        if let Some(valid) = self.follows(&starts) {
            return Ok(valid);
        }
        let tour = self.tour(alloc)?;
        let mut near = vec![in alloc; 0; alphabet as usize]?;
        let mut saved = vec![in alloc; 0; self.fails.len()]?;
        let mut other = count;
        let mut here = count;
        let mut next = tour[count as usize];
        for _k in 0..count {
            let above = self.above(next);
            self.retreat(&starts, &mut near, &saved, here, above);
            if above == count {
                other = self.root_value(next);
            }
            if !self.enter(&starts, &mut near, &mut saved, next, other) {
                return Ok(false);
            }
            here = next;
            next = tour[next as usize];
        }
        Ok(true)
    }
}
