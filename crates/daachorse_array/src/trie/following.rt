//! The check of links by following them, from the link of each rank's parent on, in a limited
//! number of steps.

ghost use Rattle.std.specs.Prelude.{◌≡◌, ◌↔◌, IsTrue, ◌<◌, ◌≤◌, ◌^◌, length, slice_index, true, IfSome};
ghost use Rattle.daachorse_array.specs.Ranks.{IsLabelled, HasLinks, LinksFall, AreStarts, child};
ghost use Rattle.daachorse_array.specs.Near.{pick, right};

use crate::trie::Trie;
use std::alloc::Allocator;

/// The number of steps allowed for each rank, on average.
const STEPS: usize = 32;

impl<A: Allocator + Copy> Trie<A> {
    /// Whether rank m is the child of rank p by a label.
    fn is_child(&self, m: u32, p: u32, label: u32) -> bool
        requires each { length self.now.labels.items ≡ length self.now.parents.items }
        ensures { result ≡ true → (0 < m) × (m < length self.now.parents.items) × (slice_index self.now.parents.items m ≡ p) × (slice_index self.now.labels.items m ≡ label) }
    {
        if m == 0 {
            return false;
        }
        if m as usize >= self.parents.len() {
            return false;
        }
        if self.parents[m as usize] != p {
            return false;
        }
        self.labels[m as usize] == label
    }

    /// The child of rank p by a label, 0 if there is none, by linear search.
    fn child(&self, starts: &[u32], p: u32, label: u32) -> u32
        requires trie { IsLabelled self.now.parents.items self.now.labels.items }
        requires few { length self.now.parents.items < 2 ^ 32 }
        requires starts { AreStarts self.now.parents.items starts.now }
        requires within { p < length self.now.parents.items }
        ensures { result ≡ pick (child self.now.parents.items self.now.labels.items p label) 0 }
    {
        let end = starts[p as usize + 1];
        for m in starts[p as usize]..end {
            if self.labels[m as usize] == label {
                return m;
            }
        }
        0
    }

    /// The right link of rank m; `None` if it takes more than `left` steps.
    fn followed(&self, starts: &[u32], m: u32, left: &mut usize) -> Option<u32>
        requires trie { IsLabelled self.now.parents.items self.now.labels.items }
        requires each { length self.now.fails.items ≡ length self.now.parents.items }
        requires stops { length self.now.stops.items ≡ length self.now.parents.items }
        requires few { length self.now.parents.items < 2 ^ 32 }
        requires fall { LinksFall self.now.fails.items }
        requires starts { AreStarts self.now.parents.items starts.now }
        requires some { 0 < m }
        requires within { m < length self.now.parents.items }
        ensures { IfSome result (λ link. link ≡ right self.now.parents.items self.now.labels.items self.now.stops.items self.now.fails.items (slice_index self.now.parents.items m) m (slice_index self.now.labels.items m)) }
    {
        let count = self.fails.len() as u32;
        let label = self.labels[m as usize];
        let given = self.fails[m as usize];
        let mut below = self.parents[m as usize];
        let mut here = self.above(below);
        while here != count {
            if self.is_child(given, here, label) {
                return Some(self.right_link(m, given, 0));
            }
            let children = starts[here as usize + 1].saturating_sub(starts[here as usize]) as usize;
            if *left <= children {
                return None;
            }
            *left -= children + 1;
            let found = self.child(starts, here, label);
            if found > 0 {
                return Some(self.right_link(m, found, 0));
            }
            below = here;
            here = self.above(here);
        }
        Some(self.right_link(m, 0, self.root_value(below)))
    }

    /// Whether each rank has the right leftmost link; `None` if the steps run out.
    pub(super) fn follows(&self, starts: &[u32]) -> Option<bool>
        requires trie { IsLabelled self.now.parents.items self.now.labels.items }
        requires each { length self.now.fails.items ≡ length self.now.parents.items }
        requires stops { length self.now.stops.items ≡ length self.now.parents.items }
        requires few { length self.now.parents.items < 2 ^ 32 }
        requires fall { LinksFall self.now.fails.items }
        requires starts { AreStarts self.now.parents.items starts.now }
        ensures { IfSome result (λ valid. IsTrue valid ↔ HasLinks self.now.parents.items self.now.labels.items self.now.stops.items self.now.fails.items) }
    {
        let count = self.fails.len() as u32;
        let mut left = STEPS * self.fails.len();
        for m in 1..count {
            let Some(link) = self.followed(starts, m, &mut left) else {
                return None;
            };
            if link != self.fails[m as usize] {
                return Some(false);
            }
        }
        Some(true)
    }
}
