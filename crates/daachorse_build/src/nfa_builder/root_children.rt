//! The root's children by labels with small numbers.
//!
//! Most chains of failure links end at the root, which has more edges than any other state, so that
//! a search among them takes longest.
//! as a search among the root's edges does.

ghost use Rattle.std.specs.Prelude.{◌≡◌, unwrap_or};
ghost use Rattle.daachorse_build.specs.Tables.{child_of, edges_of, HoldTrie};
ghost use Rattle.daachorse_build.specs.Traversals.{AreRootChildren};

use super::{NfaBuilderState, ROOT_STATE_ID, child};
use daachorse_core::edge_label::EdgeLabel;
use std::alloc::Allocator;

/// The root's children by the labels whose number is below 256.
#[derive(Drop)]
pub(super) struct RootChildren {
    // The root stands for none, since it is no child.
    ids: [u32; 256],
}

impl RootChildren {
    pub(super) fn of<L: EdgeLabel, V: Copy, A: Allocator>(
        states: &[NfaBuilderState<L, V, A>],
    ) -> Self
        requires { HoldTrie L.cmp states.now }
        ensures { AreRootChildren L.cmp L.unit (edges_of states.now) result.ids }
    {
        let mut ids = [ROOT_STATE_ID; 256];
        for (label, child) in states[ROOT_STATE_ID as usize].edges.iter() {
            let code = label.code();
            if code < 256 {
                ids[code as usize] = *child;
            }
        }
        Self { ids }
    }

    /// The root's child by a label, or the root if there is none.
    #[inline]
    pub(super) fn child_or_root<L: EdgeLabel, V: Copy, A: Allocator>(
        &self,
        states: &[NfaBuilderState<L, V, A>],
        label: L,
    ) -> u32
        requires table { HoldTrie L.cmp states.now }
        requires children { AreRootChildren L.cmp L.unit (edges_of states.now) self.now.ids }
        ensures { result ≡ unwrap_or (child_of L.cmp states.now 0 label) 0 }
    {
        let code = label.code();
        if code < 256 {
            return self.ids[code as usize];
        }
        child(states, ROOT_STATE_ID, label).unwrap_or(ROOT_STATE_ID)
    }
}
