//! Adding a pattern to a trie.

ghost use Rattle.std.specs.Prelude.{◌≡◌, ◌≢◌, ◌<◌, ◌≤◌, None, true, map, vec_len, IfOk, IfErr, OnOk, OnErr};
ghost use Rattle.daachorse_model.specs.Units.{size};
ghost use Rattle.daachorse_core.specs.Refusals.{IsRefusal};
ghost use Rattle.daachorse_core.specs.declared.errors.Limit.TheVariants.{StateId};
ghost use Rattle.daachorse_core.specs.declared.errors.DaachorseError.TheVariants.{InvalidArgument};
ghost use Rattle.daachorse_build.specs.Tables.{edges_of, child_of, stops_of, HoldTrie};
ghost use Rattle.daachorse_build.specs.Left.{meets_early};
ghost use Rattle.daachorse_build.specs.Growth.{Extends, IsAdded, Overflows};

use super::{NfaBuilderState, ROOT_STATE_ID, child, stops};
use daachorse_core::edge_label::EdgeLabel;
use daachorse_core::errors::{DaachorseError, Limit, Result};
use std::alloc::Allocator;

/// How many bytes a pattern takes.
pub(super) fn pattern_size<L: EdgeLabel>(pattern: &[L]) -> Result<u32>
    ensures size { IfOk result (λ n. n ≡ size L.width (map L.unit pattern.now)) }
    ensures err { IfErr result (λ e. (e ≡ InvalidArgument (record {})) × (4294967295 < size L.width (map L.unit pattern.now))) }
{
    let mut size = 0;
    for label in pattern {
        label.in_range();
        size += label.num_bytes();
        if size > u32::MAX as usize {
            return Err(DaachorseError::invalid_argument());
        }
    }
    Ok(size as u32)
}

/// The child of a state by a label, made if there is none.
fn child_or_new<L: EdgeLabel, V: Copy, A: Allocator + Copy>(
    states: &mut Vec<NfaBuilderState<L, V, A>, A>,
    id: u32,
    label: L,
) -> Result<u32>
    requires trie { HoldTrie L.cmp states.old.items }
    requires in_range { id < vec_len states.old }
    requires alive { id ≢ 1 }
    ensures ok { IfOk result (λ t. Extends L.cmp states.old.items states.new.items id label t) }
    ensures kept { OnErr result (edges_of states.new.items ≡ edges_of states.old.items) }
    ensures fits { OnOk result (vec_len states.old ≤ 4294967296 → vec_len states.new ≤ 4294967296) }
    ensures err { IfErr result (IsRefusal ⊥ StateId ((4294967295 < vec_len states.old) × (child_of L.cmp states.old.items id label ≡ None))) }
{
    if let Some(found) = child(states, id, label) {
        return Ok(found);
    }
    let Ok(fresh) = u32::try_from(states.len()) else {
        return Err(DaachorseError::automaton_scale(Limit::StateId));
    };
    let alloc = *states.allocator();
    // The child comes with its edge, or neither does.
    states.reserve(1)?;
    states[id as usize].edges.insert(alloc, label, fresh)?;
    states.push(NfaBuilderState::new(alloc))?;
    Ok(fresh)
}

/// Whether a shorter key is a prefix of the pattern.
pub(super) fn extends_key<L: EdgeLabel, V: Copy, A: Allocator>(
    states: &[NfaBuilderState<L, V, A>],
    pattern: &[L],
) -> bool
    requires { HoldTrie L.cmp states.now }
    ensures { result ≡ meets_early (child_of L.cmp states.now) (stops_of true states.now) 0 pattern.now }
{
    let mut id = ROOT_STATE_ID;
    for label in pattern {
        if stops(states, true, id) {
            return true;
        }
        let Some(next) = child(states, id, *label) else {
            return false;
        };
        id = next;
    }
    false
}

/// Adds a pattern of `size` bytes with its value.
pub(super) fn add_pattern<L: EdgeLabel, V: Copy, A: Allocator + Copy>(
    states: &mut Vec<NfaBuilderState<L, V, A>, A>,
    pattern: &[L],
    value: V,
    size: u32,
) -> Result<()>
    requires { HoldTrie L.cmp states.old.items }
    ensures ok { OnOk result (IsAdded L.cmp states.old.items states.new.items pattern.now (value, size)) }
    ensures trie { HoldTrie L.cmp states.new.items }
    ensures fits { OnOk result (vec_len states.old ≤ 4294967296 → vec_len states.new ≤ 4294967296) }
    ensures err { IfErr result (IsRefusal ⊥ StateId (Overflows L.cmp states.old.items pattern.now 4294967295)) }
{
    let mut id = ROOT_STATE_ID;
    for label in pattern {
        id = child_or_new(states, id, *label)?;
    }
    let alloc = *states.allocator();
    states[id as usize].output.push(alloc, (value, size))?;
    Ok(())
}
