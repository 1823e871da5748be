//! The plain leftmost search: at each start the longest of the patterns that count.

ghost use Rattle.std.specs.Prelude.{◌≡◌, ◌+◌, ◌≤◌, ◌++◌, [], length, take, drop, OnOk, IfOk, IfSome, slice_get, option_map};
ghost use Rattle.std.specs.Option.{option_or};
ghost use Rattle.std.specs.List.{list_any};
ghost use Rattle.daachorse_model.specs.Units.{size};
ghost use Rattle.daachorse_model.specs.Dictionary.{kept_registrations, without_extensions, values_of, dictionary, is_proper_prefix, registrations_of};
ghost use Rattle.daachorse_model.specs.Leftmost.{longest_key, match_at, leftmost_from, leftmost};
ghost use Rattle.daachorse_model.specs.Slow.{width_of, key_found, skip_of, after_of};

use crate::slow::{Width, first_value};
use crate::{Match, MatchKind};
use std::alloc::{AllocError, Allocator};

/// The longest pattern at a place: how many units it has, and its first value.
#[derive(Clone, Copy)]
struct Longest<V> {
    units: usize,
    value: V,
}

/// Whether the pattern is a proper prefix of `text`.
fn extends(text: &[u32], pattern: &[u32]) -> bool
    ensures { result ≡ is_proper_prefix pattern.now text.now }
{
    pattern.len() < text.len() && text.starts_with(pattern)
}

/// Whether an earlier pattern is a proper prefix of `text`.
fn extends_any<V: Copy>(earlier: &[(&[u32], V)], text: &[u32]) -> bool
    ensures { result ≡ list_any (λ r. is_proper_prefix r.0 text.now) (registrations_of earlier.now) }
{
    for (pattern, _) in earlier {
        if extends(text, pattern) {
            return true;
        }
    }
    false
}

/// The patterns without those that extend an earlier one.
fn drop_extensions<'a, V: Copy, A: Allocator>(
    alloc: A,
    patterns: &[(&'a [u32], V)],
) -> Result<Vec<(&'a [u32], V), A>, AllocError>
    ensures { IfOk result (λ rest. registrations_of rest.items ≡ without_extensions [] (registrations_of patterns.now)) }
{
    let mut rest = Vec::new(alloc);
    for (index, (text, value)) in patterns.iter().enumerate() {
        if !extends_any(&patterns[..index], text) {
            rest.push((*text, *value))?;
        }
    }
    Ok(rest)
}

/// The longest pattern so far, once the prefix `part` of the text is looked at too.
fn longer<V: Copy>(
    patterns: &[(&[u32], V)],
    part: &[u32],
    best: Option<Longest<V>>,
) -> Option<Longest<V>>
    ensures { result ≡ option_or (option_map (λ v. record { units = length part.now; value = v }) (slice_get (values_of (registrations_of patterns.now) part.now) 0)) best }
{
    match first_value(patterns, part) {
        Some(value) => Some(Longest {
            units: part.len(),
            value,
        }),
        None => best,
    }
}

/// The longest pattern that is a prefix of the text.
fn longest_at<V: Copy>(patterns: &[(&[u32], V)], text: &[u32]) -> Option<Longest<V>>
    ensures key { key_found text.now result ≡ longest_key (values_of (registrations_of patterns.now)) [] text.now }
    ensures within { IfSome result (λ best. best.units ≤ length text.now) }
{
    let mut best = None;
    for units in 0..text.len() {
        best = longer(patterns, &text[..units], best);
    }
    longer(patterns, text, best)
}

/// Appends the match at `read`, unless it is empty and right after a nonempty match.
fn push_given<V: Copy, A: Allocator>(
    found: &mut Vec<Match<V>, A>,
    width: Width,
    haystack: &[u32],
    read: usize,
    after: bool,
    best: Option<Longest<V>>,
) -> Result<(), AllocError>
    requires { IfSome best (λ b. read + b.units ≤ length haystack.now) }
    ensures { OnOk result (found.new.items ≡ found.old.items ++ match_at (width_of width) (size (width_of width) (take read haystack.now)) after (key_found (drop read haystack.now) best)) }
{
    let Some(best) = best else {
        return Ok(());
    };
    if best.units == 0 && after {
        return Ok(());
    }
    found.push(Match {
        start: width.size_of(&haystack[..read]),
        end: width.size_of(&haystack[..read + best.units]),
        value: best.value,
    })?;
    Ok(())
}

/// How many units of the match follow its first.
fn units_after_first<V: Copy>(best: Option<Longest<V>>) -> usize
    ensures { result ≡ skip_of best }
{
    best.map_or(0, |best| best.units.saturating_sub(1))
}

/// Whether a nonempty match ends right before the next start.
fn is_after_match<V: Copy>(after: bool, best: Option<Longest<V>>) -> bool
    ensures { result ≡ after_of after best }
{
    best.map_or(after, |best| best.units > 0)
}

/// Leftmost matches: after each match the first start, and the longest pattern there.
fn search_starts<V: Copy, A: Allocator>(
    alloc: A,
    width: Width,
    patterns: &[(&[u32], V)],
    haystack: &[u32],
) -> Result<Vec<Match<V>, A>, AllocError>
    ensures { IfOk result (λ found. found.items ≡ leftmost (width_of width) (values_of (registrations_of patterns.now)) haystack.now) }
{
    let mut found = Vec::new(alloc);
    let mut skip = 0;
    let mut after = false;
    for read in 0..haystack.len() {
        if skip > 0 {
            skip -= 1;
        } else {
            let best = longest_at(patterns, &haystack[read..]);
            push_given(&mut found, width, haystack, read, after, best)?;
            skip = units_after_first(best);
            after = is_after_match(after, best);
        }
    }
    if skip == 0 {
        let best = longest_at(patterns, &[]);
        push_given(&mut found, width, haystack, haystack.len(), after, best)?;
    }
    Ok(found)
}

/// Finds non-overlapping matches, each starting as early as possible and the longest there.
///
/// `LeftmostFirst` leaves out patterns that extend an earlier one. Fails if an allocation does.
pub fn leftmost_slowly<V: Copy, A: Allocator + Copy>(
    alloc: A,
    kind: MatchKind,
    width: Width,
    patterns: &[(&[u32], V)],
    haystack: &[u32],
) -> Result<Vec<Match<V>, A>, AllocError>
    ensures { IfOk result (λ found. found.items ≡ leftmost (width_of width) (dictionary kind (registrations_of patterns.now)) haystack.now) }
{
    if kind.is_leftmost_first() {
        let kept = drop_extensions(alloc, patterns)?;
        search_starts(alloc, width, &kept, haystack)
    } else {
        search_starts(alloc, width, patterns, haystack)
    }
}
