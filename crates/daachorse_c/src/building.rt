//! Builds an automaton of the patterns that C passes.

ghost use Rattle.std.specs.Prelude.{◌≡◌, ◌≢◌, ◌⊎◌, None, IfErr, IfOk, MatchResult, map};
ghost use Rattle.daachorse_core.specs.declared.errors.DaachorseError.{DaachorseError};
ghost use Rattle.daachorse_model.specs.declared.MatchKind.{MatchKind};
ghost use Rattle.daachorse_model.specs.Dictionary.{registrations_of};
ghost use Rattle.daachorse_model.specs.Kinds.{byte_of_kind};
ghost use Rattle.daachorse_model.specs.Folding.{all_as_read, texts_as_read};
ghost use Rattle.daachorse.specs.bytewise.Building.{IsBuiltWith, IsRefusalOf, kept_filter};
ghost use Rattle.daachorse.specs.charwise.Building.{IsBuiltWith as IsBuiltOverCharacters, IsRefusalOf as IsRefusalOfCharacters, kept_filter as filter_of_characters, registrations_of_strings};
ghost use Rattle.daachorse_c.specs.Automata.{unit_of};
ghost use Rattle.daachorse_c.specs.Building.{IsBuildCause, IsBuiltFrom, IsBuiltOf, IsRefusalOver};
ghost use Rattle.daachorse_c.specs.Held.{automaton_of};
ghost use Rattle.daachorse_c.specs.Patterns.{AreTexts, texts_in};
ghost use Rattle.daachorse_c.specs.Refusals.{refusal_of};
ghost use Rattle.daachorse_c.specs.declared.refusal.Refusal.TheVariants.{InvalidUtf8, OutOfMemory, UnknownKind};

use crate::automaton::Searcher;
use crate::bytewise::Bytewise;
use crate::charwise::Charwise;
use crate::patterns::{patterns_in, texts_of};
use crate::refusal::Refusal;
use crate::searches::Searches;
use crate::unit::Unit;
use daachorse::errors::DaachorseError;
use daachorse::{
    CharwiseDoubleArrayAhoCorasick, CharwiseDoubleArrayAhoCorasickBuilder, DoubleArrayAhoCorasick,
    DoubleArrayAhoCorasickBuilder, MatchKind,
};
use std::alloc::Global;

/// What an automaton is to be.
#[derive(Clone, Copy)]
pub struct Settings {
    /// What its patterns and haystacks are made of.
    pub unit: Unit,
    /// The number of its kind.
    pub kind: u32,
    /// Whether searches skip places where no pattern begins.
    pub use_prefilter: bool,
    /// Whether A to Z are read as a to z.
    pub ascii_case_insensitive: bool,
}

/// Builds an automaton of the patterns in `bytes`.
pub(crate) fn build(
    alloc: Global,
    settings: Settings,
    bytes: &[u8],
    ends: &[usize],
    values: &[u32],
) -> Result<Box<Searcher, Global>, Refusal>
    ensures built { IfOk result (λ b. IsBuiltFrom settings bytes.now ends.now values.now b.value.searches) }
    ensures stream { IfOk result (λ b. b.value.stream ≡ None) }
    ensures err { IfErr result (IsBuildCause settings bytes.now ends.now values.now) }
{
    let kind = kind_numbered(settings.kind)?;
    let patterns = patterns_in(alloc, bytes, ends, values)?;
    let searches = build_of(alloc, settings, kind, &patterns)?;
    Searcher::new(alloc, searches)
}

/// The kind with this number.
fn kind_numbered(kind: u32) -> Result<MatchKind, Refusal>
    ensures { MatchResult result (λ k. byte_of_kind k ≡ kind) (λ r. (r ≡ UnknownKind) × ((k : MatchKind) → byte_of_kind k ≢ kind)) }
{
    match kind {
        0 => Ok(MatchKind::Standard),
        1 => Ok(MatchKind::LeftmostLongest),
        2 => Ok(MatchKind::LeftmostFirst),
        _ => Err(Refusal::UnknownKind),
    }
}

/// Builds an automaton of patterns with their values.
fn build_of(
    alloc: Global,
    settings: Settings,
    kind: MatchKind,
    patterns: &[(&[u8], u32)],
) -> Result<Searches, Refusal>
    ensures unit { IfOk result (λ s. unit_of (automaton_of s) ≡ settings.unit) }
    ensures texts { IfOk result (λ s. AreTexts settings.unit (registrations_of patterns.now)) }
    ensures built { IfOk result (λ s. IsBuiltOf kind settings.ascii_case_insensitive settings.use_prefilter (texts_in settings.unit (registrations_of patterns.now)) (automaton_of s)) }
    ensures err { IfErr result (λ r. (r ≡ OutOfMemory) ⊎ ((r ≡ InvalidUtf8) × ¬ AreTexts settings.unit (registrations_of patterns.now))
        ⊎ ((e : DaachorseError) × (r ≡ refusal_of e) × IsRefusalOver settings.unit kind (texts_as_read settings.ascii_case_insensitive (texts_in settings.unit (registrations_of patterns.now))) e)) }
{
    match settings.unit {
        Unit::Byte => {
            let automaton = build_bytewise(alloc, settings, kind, patterns)?;
            Ok(Searches::Bytes(Bytewise::Plain(automaton)))
        }
        Unit::Character => {
            let texts = texts_of(alloc, patterns)?;
            let automaton = build_charwise(alloc, settings, kind, &texts)?;
            Ok(Searches::Characters(Charwise::Plain(automaton)))
        }
    }
}

/// Builds an automaton over bytes.
fn build_bytewise(
    alloc: Global,
    settings: Settings,
    kind: MatchKind,
    patterns: &[(&[u8], u32)],
) -> Result<DoubleArrayAhoCorasick<u32, Global>, DaachorseError>
    ensures built { IfOk result (IsBuiltWith kind settings.ascii_case_insensitive (registrations_of patterns.now)) }
    ensures filter { IfOk result (λ a. a.filter ≡ kept_filter settings.use_prefilter (all_as_read settings.ascii_case_insensitive (map (λ p. p.0.now) patterns.now))) }
    ensures err { IfErr result (IsRefusalOf kind (texts_as_read settings.ascii_case_insensitive (registrations_of patterns.now))) }
{
    let builder = DoubleArrayAhoCorasickBuilder::new()
        .match_kind(kind)
        .use_prefilter(settings.use_prefilter)
        .ascii_case_insensitive(settings.ascii_case_insensitive);
    builder.build_with_values(alloc, patterns.iter().copied())
}

/// Builds an automaton over characters.
fn build_charwise(
    alloc: Global,
    settings: Settings,
    kind: MatchKind,
    patterns: &[(&str, u32)],
) -> Result<CharwiseDoubleArrayAhoCorasick<u32, Global>, DaachorseError>
    ensures built { IfOk result (IsBuiltOverCharacters kind settings.ascii_case_insensitive (registrations_of_strings patterns.now)) }
    ensures filter { IfOk result (λ a. a.filter ≡ filter_of_characters settings.use_prefilter (map (λ r. r.0) (texts_as_read settings.ascii_case_insensitive (registrations_of_strings patterns.now)))) }
    ensures err { IfErr result (IsRefusalOfCharacters kind (texts_as_read settings.ascii_case_insensitive (registrations_of_strings patterns.now))) }
{
    let builder = CharwiseDoubleArrayAhoCorasickBuilder::new()
        .match_kind(kind)
        .use_prefilter(settings.use_prefilter)
        .ascii_case_insensitive(settings.ascii_case_insensitive);
    builder.build_with_values(alloc, patterns.iter().copied())
}
