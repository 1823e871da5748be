//! The lists of outputs of a trie's states, which share their tails.

ghost use Rattle.std.specs.Prelude.{◌≡◌, ◌≢◌, ◌+◌, ◌<◌, ◌≤◌, ◌++◌, ℕ, Bool, [], List, length, slice_index, vec_len, IfOk, IfErr, OnOk};
ghost use Rattle.daachorse_core.specs.Outputs.{ParentsFall};
ghost use Rattle.daachorse_core.specs.Refusals.{IsRefusal};
ghost use Rattle.daachorse_core.specs.declared.errors.Limit.TheVariants.{Outputs};
ghost use Rattle.daachorse_core.specs.declared.outputs.Output.{Output as OutputOf};
ghost use Rattle.daachorse_build.specs.Few.{items_of};
ghost use Rattle.daachorse_build.specs.Tables.{fails_of, positions_of, own_of, own_at, output_count, HoldTrie};
ghost use Rattle.daachorse_build.specs.Orders.{HoldLeftLinks};
ghost use Rattle.daachorse_build.specs.Growth.{HasTrieOf};
ghost use Rattle.daachorse_build.specs.Lists.{HasChain, HaveLists, IsParent};

use super::{DEAD_STATE_ID, NfaBuilderState, ROOT_STATE_ID};
use crate::few::Few;
use daachorse_core::Output;
use daachorse_core::edge_label::EdgeLabel;
use daachorse_core::errors::{DaachorseError, Limit, Result};
use std::alloc::Allocator;
use std::num::NonZeroU32;

/// Puts a state's own outputs before the list at a position, and returns where the new list begins.
fn push_chain<V: Copy, A: Allocator>(
    outputs: &mut Vec<Output<V>, A>,
    own: &Few<(V, u32), A>,
    parent: u32,
) -> Result<u32>
    requires parents { ParentsFall outputs.old.items }
    requires parent { parent ≤ vec_len outputs.old }
    ensures longer { (more : List (OutputOf V)) × (outputs.new.items ≡ outputs.old.items ++ more) }
    ensures parents { ParentsFall outputs.new.items }
    ensures chain { IfOk result (λ position. HasChain outputs.old.items outputs.new.items (items_of own.now) parent position) }
    ensures err { IfErr result (IsRefusal ⊥ Outputs (4294967295 < vec_len outputs.old + length (items_of own.now))) }
{
    let mut last = parent;
    let mut i = own.len();
    while i > 0 {
        i -= 1;
        if outputs.len() >= u32::MAX as usize {
            return Err(DaachorseError::automaton_scale(Limit::Outputs));
        }
        let output = own.at(i);
        outputs.push(Output::new(output.0, output.1, NonZeroU32::new(last)))?;
        last = outputs.len() as u32;
    }
    Ok(last)
}

/// Gives a state its own outputs, followed by the list at `parent`.
fn put_list<L: EdgeLabel, V: Copy, A: Allocator>(
    states: &mut [NfaBuilderState<L, V, A>],
    outputs: &mut Vec<Output<V>, A>,
    id: u32,
    parent: u32,
) -> Result<()>
    requires id { id < length states.old }
    requires parents { ParentsFall outputs.old.items }
    requires parent { parent ≤ vec_len outputs.old }
    ensures kept { HasTrieOf states.old states.new }
    ensures fails { fails_of states.new ≡ fails_of states.old }
    ensures longer { (more : List (OutputOf V)) × (outputs.new.items ≡ outputs.old.items ++ more) }
    ensures parents { ParentsFall outputs.new.items }
    ensures chain { OnOk result (HasChain outputs.old.items outputs.new.items (own_at (own_of states.old) id) parent (slice_index (positions_of states.new) id)) }
    ensures others { OnOk result ((t : ℕ) → t ≢ id → slice_index (positions_of states.new) t ≡ slice_index (positions_of states.old) t) }
    ensures err { IfErr result (IsRefusal ⊥ Outputs (4294967295 < vec_len outputs.old + length (own_at (own_of states.old) id))) }
{
    let state = &mut states[id as usize];
    state.output_pos = push_chain(outputs, &state.output, parent)?;
    Ok(())
}

/// The position of the list of a state's link, or 0 if the link is dead.
fn fail_position<L: EdgeLabel, V: Copy, A: Allocator>(
    states: &[NfaBuilderState<L, V, A>],
    id: u32,
) -> u32
    requires id { id < length states.now }
    requires fail { slice_index (fails_of states.now) id < length states.now }
    ensures { IsParent (positions_of states.now) (slice_index (fails_of states.now) id) result }
{
    let fail = states[id as usize].fail;
    if fail == DEAD_STATE_ID {
        return 0;
    }
    states[fail as usize].output_pos
}

/// Makes the lists of outputs: that of the root, and then the others in order.
pub(super) fn put_lists<L: EdgeLabel, V: Copy, A: Allocator>(
    states: &mut [NfaBuilderState<L, V, A>],
    outputs: &mut Vec<Output<V>, A>,
    order: &[u32],
) -> Result<()>
    requires trie { HoldTrie L.cmp states.old }
    requires links { (leftmost : Bool) × HoldLeftLinks L.cmp leftmost states.old order.now }
    requires unbuilt { outputs.old.items ≡ [] }
    ensures kept { HasTrieOf states.old states.new }
    ensures fails { fails_of states.new ≡ fails_of states.old }
    ensures parents { ParentsFall outputs.new.items }
    ensures lists { OnOk result (HaveLists L.cmp states.old states.new order.now outputs.new.items) }
    ensures err { IfErr result (IsRefusal ⊥ Outputs (4294967295 < output_count (own_of states.old))) }
{
    put_list(states, outputs, ROOT_STATE_ID, 0)?;
    for id in order {
        let parent = fail_position(states, *id);
        put_list(states, outputs, *id, parent)?;
    }
    Ok(())
}
