//! The scan of a haystack for the first candidate.

ghost use Rattle.std.specs.Prelude.{◌≡◌, ℕ, ◌+◌, ◌-◌, ◌<◌, ◌≤◌, true, false, length, map, slice_index, MatchOption};
ghost use Rattle.daachorse_model.specs.Filter.{is_clear, passes};
ghost use Rattle.daachorse_prefilter.specs.Places.{IsFirstPlace};
ghost use Rattle.daachorse_prefilter.specs.Scans.{AreBits, EndsRound, HasEnded, IsFirstWindow, NonePasses};

use super::pair_table::PairTable;
use super::reading::ByteReading;
use std::alloc::Allocator;

/// The first candidate from `pos` on, or the haystack's length.
///
/// Bit j of the state is 0 if the last j + 1 pairs may begin a window. A round reads many pairs:
/// the bit of a window's last pair moves on to the bits above it, so that one look finds all
/// windows that ended in the round.
#[inline(always)]
pub(super) fn scan<R: ByteReading, A: Allocator>(
    table: &PairTable<A>,
    window_len: u8,
    haystack: &[u8],
    pos: usize,
) -> usize
    requires low { 2 ≤ window_len }
    requires high { window_len ≤ 9 }
    ensures { IsFirstPlace (λ w. passes (λ pair. slice_index table.now pair) window_len w) (map R.as_read haystack.now) pos result }
{
    if pos >= haystack.len() {
        return haystack.len();
    }
    // The bit of a window's last pair.
    let last = window_len - 2;
    let num_pairs = R::pairs_in_round();
    let ends = ((1u32 << num_pairs) - 1) << last;
    let mut state = u32::MAX;
    let rounds = (haystack.len() - pos - 1) / num_pairs;
    for round in 0..rounds {
        // The place of the last byte that was read.
        let place = pos + round * num_pairs;
        state = read_round::<R, A>(table, last, haystack, place, num_pairs, state);
        let end = place + num_pairs - 1;
        if let Some(found) = first_in_round(end, !state & ends) {
            return found;
        }
    }
    let place = pos + rounds * num_pairs;
    scan_rest::<R, A>(table, last, haystack, pos, place, state)
}

/// The state after the round whose first pair is at `place`.
#[inline(always)]
fn read_round<R: ByteReading, A: Allocator>(
    table: &PairTable<A>,
    last: u8,
    haystack: &[u8],
    place: usize,
    num_pairs: usize,
    state: u32,
) -> u32
    requires low { last ≤ 7 }
    requires few { num_pairs ≤ 16 }
    requires inside { place + num_pairs < length haystack.now }
    ensures { (pos : ℕ) → pos ≤ place → AreBits table.now (map R.as_read haystack.now) last pos (place + 1) state
        → HasEnded table.now (map R.as_read haystack.now) last pos (place + 1) num_pairs result }
{
    // Independent of `state`, so that the loads of a round need not wait for it.
    let read = if num_pairs == 16 {
        read_sixteen::<R, A>(table, last, haystack, place)
    } else {
        read_pairs::<R, A>(table, last, haystack, place, num_pairs)
    };
    (state << num_pairs) | read
}

/// What the pairs of a round alone add to the state.
#[inline(always)]
fn read_pairs<R: ByteReading, A: Allocator>(
    table: &PairTable<A>,
    last: u8,
    haystack: &[u8],
    place: usize,
    num_pairs: usize,
) -> u32
    requires low { last ≤ 7 }
    requires few { num_pairs ≤ 16 }
    requires inside { place + num_pairs < length haystack.now }
    ensures { EndsRound table.now (map R.as_read haystack.now) last (place + 1) num_pairs result }
{
    // Masked, so that no bit of an entry is above that of a window's last pair.
    let window = (2u32 << last) - 1;
    let mut read = 0u32;
    for k in 0..num_pairs {
        let entry = table.entry(R::pair(haystack, place + k));
        read = (read << 1) | (u32::from(entry) & window);
    }
    read
}

/// What the sixteen pairs of a round alone add to the state. The entries of two that are eight
/// apart are taken side by side.
#[inline(always)]
fn read_sixteen<R: ByteReading, A: Allocator>(
    table: &PairTable<A>,
    last: u8,
    haystack: &[u8],
    place: usize,
) -> u32
    requires low { last ≤ 7 }
    requires inside { place + 16 < length haystack.now }
    ensures { EndsRound table.now (map R.as_read haystack.now) last (place + 1) 16 result }
{
    let window = (2u32 << last) - 1;
    let windows = (window << 8) | window;
    let mut read = 0u32;
    for k in 0..8 {
        let first = table.entry(R::pair(haystack, place + k));
        let second = table.entry(R::pair(haystack, place + 8 + k));
        let both = (u32::from(first) << 8) | u32::from(second);
        read = (read << 1) | (both & windows);
    }
    read
}

/// The first candidate of a round, if there is one. That of bit b begins at `end - b`, so the first
/// has the highest bit.
#[inline(always)]
fn first_in_round(end: usize, passing: u32) -> Option<usize>
    requires { (b : ℕ) → is_clear passing b ≡ false → b ≤ end }
    ensures { MatchOption result ((b : ℕ) → is_clear passing b ≡ true) (IsFirstWindow end passing) }
{
    if passing == 0 {
        return None;
    }
    let bit = 31 - passing.leading_zeros();
    Some(end - bit as usize)
}

/// Ends a [`scan`], when fewer pairs are left than a round reads.
#[inline(always)]
fn scan_rest<R: ByteReading, A: Allocator>(
    table: &PairTable<A>,
    last: u8,
    haystack: &[u8],
    pos: usize,
    from: usize,
    state: u32,
) -> usize
    requires low { last ≤ 7 }
    requires begun { pos ≤ from }
    requires inside { from < length haystack.now }
    requires bits { AreBits table.now (map R.as_read haystack.now) last pos (from + 1) state }
    requires none { NonePasses table.now (map R.as_read haystack.now) (last + 2) pos (from + 1) }
    ensures { IsFirstPlace (λ w. passes (λ pair. slice_index table.now pair) (last + 2) w) (map R.as_read haystack.now) pos result }
{
    let mut state = state;
    for place in from..haystack.len() - 1 {
        let entry = table.entry(R::pair(haystack, place));
        state = (state << 1) | u32::from(entry);
        if (state >> last) % 2 == 0 {
            return place - last as usize;
        }
    }
    haystack.len()
}
