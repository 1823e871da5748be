//! The public paths of `daachorse`: each public name, and a look at a state through them.

ghost use Rattle.std.specs.Prelude.{◌≡◌, IfOk};
ghost use Rattle.daachorse_model.specs.declared.MatchKind.TheVariants.{Standard};

use crate::expect;
use daachorse::MatchKind;
pub use daachorse::build_helper::{BuildHelper, ListItem, Profile, SiblingGroup, VacantIter};
use daachorse::bytewise::states::{Automaton, Look, States, Turns};
pub use daachorse::edge_map::{EdgeMap, Iter, Values};
use daachorse::errors::Result;
pub use daachorse::errors::{
    AutomatonScaleError, DaachorseError, DuplicatePatternError, InvalidArgumentError,
    InvalidAutomatonError, InvalidConversionError, Limit, OutOfMemoryError,
};
pub use daachorse::intpack::{U24, U24nU8};
pub use daachorse::laws::{
    certain_matches_grow, cut_at_unused_units, folding_keeps_places, leftmost_first_is_earliest,
    leftmost_is_longest, matches_follow, matches_occur, ordered_by_bytes, same_on_text,
    standard_end_by_end,
};
pub use daachorse::nfa_builder::{
    DEAD_STATE_ID, EdgeLabel, NfaBuilder, NfaBuilderState, ROOT_STATE_ID,
};
pub use daachorse::prefilter::{Prefilter, PrefilterBuilder, PrefilterGate};
pub use daachorse::serializer::{SerializableVec, Table};
pub use daachorse::utils::FromU32;
pub use daachorse::{
    CharwiseDoubleArrayAhoCorasick, CharwiseDoubleArrayAhoCorasickBuilder, DEAD_STATE_IDX,
    DoubleArrayAhoCorasick, DoubleArrayAhoCorasickBuilder, Empty, Match, Output, ROOT_STATE_IDX,
    Serializable,
};
use daachorse_patterns::trie::build_trie;
use std::alloc::Global;
use std::num::NonZeroU32;
use std::test::Fail;

/// The names of the automaton over bytes.
mod over_bytes {
    pub use daachorse::bytewise::builder::DoubleArrayAhoCorasickBuilder;
    pub use daachorse::bytewise::iter::{
        CommonPrefixIterator, FindIterator, FindOverlappingIterator,
        FindOverlappingNoSuffixIterator, FindOverlappingNoSuffixSliceIterator,
        FindOverlappingSliceIterator, FindOverlappingStepper, FindOverlappingStepperIterator,
        FindSliceIterator, FindStepper, LeftmostFindIterator, MatchesByKind, PatternIterator,
        ValueIterator,
    };
    pub use daachorse::bytewise::states::{Leftmost, Seen, Standard, State};
    pub use daachorse::bytewise::{
        AhoCorasick, DoubleArrayAhoCorasick, DoubleArrayAhoCorasickBuilder as Builder, Plain,
    };
}

/// The names of the automaton over bytes with rows of its states.
mod over_rows {
    pub use daachorse::bytewise::accelerated::{
        Accelerated as ByItsModule, Rowed, RowedLeftmost, RowedStandard,
    };
    pub use daachorse::bytewise::{AccelerateError, Accelerated};
    pub use daachorse::{FromBytes, FromReader, Lends, Searched, in_blocks};
}

/// The names of the automaton over characters.
mod over_characters {
    pub use daachorse::charwise::builder::CharwiseDoubleArrayAhoCorasickBuilder;
    pub use daachorse::charwise::iter::{
        CharWithEndOffsetIterator, CommonPrefixIterator, FindIterator, FindOverlappingIterator,
        FindOverlappingNoSuffixIterator, FindOverlappingNoSuffixSliceIterator,
        FindOverlappingSliceIterator, FindOverlappingStepper, FindOverlappingStepperIterator,
        FindSliceIterator, FindStepper, LeftmostFindIterator, PatternIterator, ValueIterator,
    };
    pub use daachorse::charwise::mapper::{CodeMapper, INVALID_CODE};
    pub use daachorse::charwise::states::{
        Automaton, Leftmost, Look, Seen, Standard, State, States, Turns,
    };
    pub use daachorse::charwise::{
        AccelerateError, Accelerated, CharwiseDoubleArrayAhoCorasick,
        CharwiseDoubleArrayAhoCorasickBuilder as Builder,
    };
}

/// Where a label leads from the root, and the position of the root's outputs.
fn look_at_root<A: Automaton<u32>>(
    automaton: &A,
    label: A::Label,
    turns: &mut Turns,
) -> (Look, Option<NonZeroU32>) {
    let root = automaton.root();
    (
        automaton.turn(root, label, turns),
        automaton.output_pos(root),
    )
}

/// The standard states of these patterns over bytes.
fn states_of(alloc: Global, patvals: &[(&[u8], u32)]) -> Result<States<u32>>
    ensures { IfOk result (λ s. s.kind ≡ Standard) }
{
    let nfa = build_trie(alloc, MatchKind::Standard, Some(0x00ff_ffff), patvals)?;
    States::build(alloc, MatchKind::Standard, nfa, &Profile::new(alloc))
}

/// Whether a leads away from the root, and b back to it.
fn are_looks(states: &States<u32>) -> bool
    requires { states.now.kind ≡ Standard }
{
    let mut turns = Turns::new();
    let (look, position) = look_at_root(&states.standard(), b'a', &mut turns);
    let (back, _position) = look_at_root(&states.standard(), b'b', &mut turns);
    let is_away = match look {
        Look::Next(state, _) => state != daachorse::ROOT_STATE_IDX,
        _ => false,
    };
    is_away && position.is_some() && back == Look::Next(daachorse::ROOT_STATE_IDX, position)
}

/// The standard states of no pattern over characters. U+0000 has a code.
fn states_of_characters(alloc: Global) -> Result<over_characters::States<u32>>
    ensures { IfOk result (λ s. s.kind ≡ Standard) }
{
    let mapper = over_characters::CodeMapper::new(alloc, &[1])?;
    if mapper.alphabet_size() > 0x8000_0000 {
        return Err(DaachorseError::invalid_argument());
    }
    let patvals: [(&str, u32); 0] = [];
    let nfa = build_trie(alloc, MatchKind::Standard, None, &patvals)?;
    let profile = Profile::new(alloc);
    over_characters::States::build(alloc, MatchKind::Standard, nfa, &profile, mapper)
}

/// Whether U+0000 has the code 0, which leads from the root back to it.
fn is_look(states: &over_characters::States<u32>) -> bool
    requires { states.now.kind ≡ Standard }
{
    let mut turns = over_characters::Turns::new();
    let (look, position) = look_at_root(&states.standard(), 0, &mut turns);
    let back = over_characters::Look::Next(daachorse::ROOT_STATE_IDX, None);
    states.mapper().get('\0') == Some(0) && position.is_none() && look == back
}

#[test]
fn a_state_is_looked_at_by_public_paths(rt: HostRuntime) -> Result<(), Fail> {
    let states = states_of(rt.alloc(), &[(b"a", 7), (b"", 8)])?;
    expect(&rt, are_looks(&states), "over bytes");
    let states = states_of_characters(rt.alloc())?;
    expect(&rt, is_look(&states), "over characters");
    Ok(())
}
