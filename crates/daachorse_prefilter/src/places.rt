//! The first candidate of a haystack: of the prefilter, and of the buckets where there are some.

ghost use Rattle.std.specs.Prelude.{ℕ, ◌&&◌, ◌+◌, ◌≤◌, ◌≡◌, Some, drop, length, option_map};
ghost use Rattle.daachorse_model.specs.Folding.{as_read};
ghost use Rattle.daachorse_prefilter.specs.Buckets.{may_begin};
ghost use Rattle.daachorse_prefilter.specs.Filters.{admits};
ghost use Rattle.daachorse_prefilter.specs.Places.{IsFirstBoundary, IsFirstPlace};

use crate::buckets::{Buckets, NEAR_END};
use crate::prefilter::Prefilter;
use crate::prefilter::reading::{AsFolded, AsItIs, ByteReading};
use std::alloc::Allocator;

/// The first place of the slice, folded if `folds` is set, at which prefilter and buckets pass, or
/// its length.
#[inline(always)]
pub fn first_place<A: Allocator>(
    filter: &Prefilter<A>,
    buckets: Option<&Buckets<A>>,
    haystack: &[u8],
    folds: bool,
) -> usize
    ensures { IsFirstPlace (λ w. may_begin (option_map (λ b. b.now) buckets.entry) w && admits filter.now w) (as_read folds haystack.now) 0 result }
{
    if folds {
        return find_place::<AsFolded, A>(filter, buckets, haystack, 0);
    }
    find_place::<AsItIs, A>(filter, buckets, haystack, 0)
}

/// The first place of what is read of the slice from `pos` on at which prefilter and buckets pass,
/// or its length.
///
/// It is cold, so that the loop of a search whose gate is closed keeps its registers: a search
/// calls it once for a whole run of bytes.
#[cold]
#[inline(never)]
fn find_place<R: ByteReading, A: Allocator>(
    filter: &Prefilter<A>,
    buckets: Option<&Buckets<A>>,
    haystack: &[u8],
    pos: usize,
) -> usize
    ensures { IsFirstPlace (λ w. may_begin (option_map (λ b. b.now) buckets.entry) w && admits filter.now w) (R.read haystack.now) pos result }
{
    match buckets {
        Some(buckets) => find_candidate::<R, A>(filter, buckets, haystack, pos),
        None => filter.first_place::<R>(haystack, pos),
    }
}

/// The first candidate of the buckets whose whole window the prefilter lets pass. Near the end the
/// prefilter is asked alone.
#[inline(always)]
fn find_candidate<R: ByteReading, A: Allocator>(
    filter: &Prefilter<A>,
    buckets: &Buckets<A>,
    haystack: &[u8],
    pos: usize,
) -> usize
    ensures { IsFirstPlace (λ w. may_begin (Some buckets.now) w && admits filter.now w) (R.read haystack.now) pos result }
{
    let near = haystack.len().saturating_sub(NEAR_END - 1);
    let mut from = pos;
    while from < near {
        let place = buckets.next_candidate(haystack, from);
        if place >= near {
            from = near;
        } else if filter.admits_at::<R>(haystack, place) {
            return place;
        } else {
            from = place + 1;
        }
    }
    filter.first_place::<R>(haystack, from)
}

/// The first boundary of the text, folded if `folds` is set, at which prefilter and buckets pass,
/// or its length in bytes.
#[inline(always)]
pub fn first_boundary<'f, A: Allocator>(
    filter: &'f Prefilter<A>,
    buckets: Option<&'f Buckets<A>>,
    haystack: &str,
    folds: bool,
) -> usize
    ensures { IsFirstBoundary (λ w. may_begin (option_map (λ b. b.now) buckets.entry) w && admits filter.now w) (as_read folds haystack.now) 0 result }
{
    if folds {
        return find_boundary::<AsFolded, A>(filter, buckets, haystack, 0);
    }
    find_boundary::<AsItIs, A>(filter, buckets, haystack, 0)
}

/// The first boundary of what is read of the text from `pos` on at which prefilter and buckets
/// pass, or its length in bytes. It is cold for the same reason as [`find_place`].
#[cold]
#[inline(never)]
pub(crate) fn find_boundary<'f, R: ByteReading, A: Allocator>(
    filter: &'f Prefilter<A>,
    buckets: Option<&'f Buckets<A>>,
    haystack: &str,
    pos: usize,
) -> usize
    ensures { IsFirstBoundary (λ w. may_begin (option_map (λ b. b.now) buckets.entry) w && admits filter.now w) (R.read haystack.now) pos result }
{
    let mut from = pos;
    'places: loop {
        let found = find_place::<R, A>(filter, buckets, haystack.as_bytes(), from);
        if haystack.is_char_boundary(found) {
            return found;
        }
        from = found + 1;
    }
}
