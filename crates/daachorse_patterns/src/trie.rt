//! The trie of patterns with values, its links and its outputs.
#![tactic(auto, using(daachorse_core::proofs::Failures::failures))]

ghost use Rattle.std.specs.Prelude.{◌≡◌, ◌≤◌, [], None, ◌<◌, IfOk, IfErr, IfSome, IsSomeAnd, OnOk, length};
ghost use Rattle.daachorse_core.specs.Refusals.{IsOutOfMemory};
ghost use Rattle.daachorse_core.specs.declared.errors.Limit.TheVariants.{PatternValues};
ghost use Rattle.daachorse_model.specs.Kinds.{is_leftmost};
ghost use Rattle.daachorse_build.specs.Builders.{Registered, kind_of, outputs_of, states_of};
ghost use Rattle.daachorse_build.specs.Steps.{HasLinksOf, KeepsPatterns};
ghost use Rattle.daachorse_patterns.specs.Building.{Fit, IsRefusalWithin, IsTrieOf, Limits};
ghost use Rattle.daachorse_patterns.specs.Patterns.{texts_of};
ghost use Rattle.daachorse_patterns.specs.Tries.{HasTexts};

use crate::pattern::Pattern;
use daachorse_build::nfa_builder::NfaBuilder;
use daachorse_core::MatchKind;
use daachorse_core::edge_label::EdgeLabel;
use daachorse_core::errors::{DaachorseError, Limit, Result};
use std::alloc::Allocator;

/// The trie of these patterns and values, with links for searches of this kind, and with outputs.
///
/// `max_patterns` limits the kept patterns; with `None` only the limit on outputs holds.
///
/// # Errors
/// As the patterns are added in order, `InvalidArgument` for one of more than 4,294,967,295 bytes,
/// and `AutomatonScale` for one with which more than 4,294,967,295 texts begin a pattern. After the
/// last, `AutomatonScale` for more kept patterns than the limit or, without one, for more than
/// 4,294,967,295 outputs. `OutOfMemory` if an allocation fails.
pub fn build_trie<L: EdgeLabel, P: Pattern<L>, V: Copy, A: Allocator + Copy>(
    alloc: A,
    kind: MatchKind,
    max_patterns: Option<usize>,
    patterns: &[(P, V)],
) -> Result<NfaBuilder<L, V, A>>
    requires { IfSome max_patterns (λ n. n ≤ 4294967295) }
    ensures ok { IfOk result (IsTrieOf L.cmp L.unit L.width max_patterns kind (texts_of P.units patterns.now)) }
    ensures err { IfErr result (IsRefusalWithin L.width (record { patterns = max_patterns; parents = None }) kind (texts_of P.units patterns.now)) }
{
    let mut nfa = NfaBuilder::new(alloc, kind)?;
    add_all(alloc, &mut nfa, patterns)?;
    check_count(nfa.num_patterns(), max_patterns)?;
    let order = build_links(alloc, kind, &mut nfa)?;
    nfa.build_outputs(&order)?;
    Ok(nfa)
}

/// Adds the patterns in order.
fn add_all<L: EdgeLabel, P: Pattern<L>, V: Copy, A: Allocator + Copy>(
    alloc: A,
    nfa: &mut NfaBuilder<L, V, A>,
    patterns: &[(P, V)],
) -> Result<()>
    requires empty { Registered L.cmp L.unit L.width nfa.old [] }
    requires fits { length (states_of nfa.old) ≤ 4294967296 }
    ensures kind { kind_of nfa.new ≡ kind_of nfa.old }
    ensures outputs { outputs_of nfa.new ≡ outputs_of nfa.old }
    ensures ok { OnOk result (HasTexts L.cmp L.unit L.width nfa.new (texts_of P.units patterns.now)) }
    ensures fit { OnOk result (Fit L.width (kind_of nfa.old) (texts_of P.units patterns.now)) }
    ensures fits { OnOk result (length (states_of nfa.new) ≤ 4294967296) }
    ensures err { IfErr result (λ e. (limits : Limits) → IsRefusalWithin L.width limits (kind_of nfa.old) (texts_of P.units patterns.now) e) }
{
    let mut buffer = Vec::new(alloc);
    for (pattern, value) in patterns {
        nfa.add(pattern.labels(&mut buffer)?, *value)?;
    }
    Ok(())
}

/// Refuses more patterns than may be kept.
fn check_count(num_patterns: usize, max_patterns: Option<usize>) -> Result<()>
    ensures ok { OnOk result (IfSome max_patterns (λ n. num_patterns ≤ n)) }
    ensures err { IfErr result (λ e. (e ≡ DaachorseError.AutomatonScale (record { limit = PatternValues })) × IsSomeAnd max_patterns (λ n. n < num_patterns)) }
{
    if let Some(max) = max_patterns
        && num_patterns > max
    {
        return Err(DaachorseError::automaton_scale(Limit::PatternValues));
    }
    Ok(())
}

/// Sets the links of a trie's states, and returns their order.
fn build_links<L: EdgeLabel, V: Copy, A: Allocator + Copy>(
    alloc: A,
    kind: MatchKind,
    nfa: &mut NfaBuilder<L, V, A>,
) -> Result<Vec<u32, A>>
    ensures kept { KeepsPatterns nfa.old nfa.new }
    ensures outputs { outputs_of nfa.new ≡ outputs_of nfa.old }
    ensures links { IfOk result (λ order. HasLinksOf L.cmp L.unit L.width (is_leftmost kind) nfa.old nfa.new order.items) }
    ensures err { IfErr result IsOutOfMemory }
{
    if kind.is_leftmost() {
        nfa.build_fails_leftmost(alloc)
    } else {
        nfa.build_fails(alloc)
    }
}
