//! The scan of a haystack for the first place at which some bucket lets the window pass.

ghost use Rattle.std.specs.Prelude.{◌≡◌, ◌⊎◌, ◌+◌, ◌-◌, ◌*◌, ◌<◌, ◌≤◌, ◌^◌, ℕ, List, drop, length, slice_index, true, false, IsTrue, MatchOption};
ghost use Rattle.daachorse_prefilter.specs.Buckets.{NoneLet, some_lets};
ghost use Rattle.daachorse_prefilter.specs.BucketScans.{EndsWithin, IsFirstWithin, NoneWithin, Shows};

use super::slots::entry;

/// Where fewer bytes are left, a scan reads no further round.
const LEAST_ROUND: usize = 19;

/// The bits of the windows that end at a place.
#[inline(always)]
fn low_bits(stride: usize) -> u64
    requires { (stride ≡ 1) ⊎ (stride ≡ 2) }
    ensures { result ≡ 2 ^ (8 * stride) - 1 }
{
    if stride == 1 { 0xff } else { 0xffff }
}

/// Reads the entry at a place.
#[inline(always)]
fn read(entries: &[u64], stride: usize, haystack: &[u8], place: usize, state: u64) -> u64
    requires sized { length entries.now ≡ 8192 }
    requires stride { (stride ≡ 1) ⊎ (stride ≡ 2) }
    requires inside { place + 4 ≤ length haystack.now }
    ensures { (pos : ℕ) → Shows entries.now haystack.now pos stride place state
        → Shows entries.now haystack.now pos stride (place + stride) result }
{
    (state >> (8 * stride)) | entry(entries, haystack, place)
}

/// Whether the window at a place passes.
#[inline(always)]
fn window_passes(entries: &[u64], haystack: &[u8], place: usize) -> bool
    requires sized { length entries.now ≡ 8192 }
    requires inside { place + 11 ≤ length haystack.now }
    ensures { result ≡ some_lets entries.now (drop place haystack.now) }
{
    let mut refused = 0u64;
    for k in 0..8 {
        refused |= entry(entries, haystack, place + k) >> (56 - 8 * k);
    }
    refused & 0xff != 0xff
}

/// Reads sixteen places, and tells whether it is sure that none of the windows that end at these
/// passes.
#[inline(always)]
fn read_round(
    entries: &[u64],
    stride: usize,
    haystack: &[u8],
    place: usize,
    state: u64,
) -> (u64, bool)
    requires sized { length entries.now ≡ 8192 }
    requires stride { (stride ≡ 1) ⊎ (stride ≡ 2) }
    requires inside { place + 19 ≤ length haystack.now }
    ensures shows { (pos : ℕ) → Shows entries.now haystack.now pos stride place state
        → Shows entries.now haystack.now pos stride (place + 16) result.0 }
    ensures none { (pos : ℕ) → Shows entries.now haystack.now pos stride place state
        → IsTrue result.1 → NoneWithin entries.now haystack.now pos place (place + 16) }
{
    let low = low_bits(stride);
    let mut state = state;
    let mut all = u64::MAX;
    for j in 0..16 / stride {
        state = read(entries, stride, haystack, place + j * stride, state);
        all &= state;
    }
    (state, all & low == low)
}

/// The first of the windows that end at sixteen places which passes.
fn find_in_round(
    entries: &[u64],
    stride: usize,
    haystack: &[u8],
    pos: usize,
    place: usize,
    state: u64,
) -> Option<usize>
    requires sized { length entries.now ≡ 8192 }
    requires stride { (stride ≡ 1) ⊎ (stride ≡ 2) }
    requires inside { place + 19 ≤ length haystack.now }
    requires fits { pos ≤ place }
    requires shows { Shows entries.now haystack.now pos stride place state }
    ensures { MatchOption result (NoneWithin entries.now haystack.now pos place (place + 16))
        (IsFirstWithin entries.now haystack.now pos place (place + 16)) }
{
    let low = low_bits(stride);
    let mut state = state;
    for j in 0..16 / stride {
        let last = place + j * stride;
        state = read(entries, stride, haystack, last, state);
        if state & low != low {
            for d in 0..stride {
                let end = last + d;
                if end >= pos + 7 && window_passes(entries, haystack, end - 7) {
                    return Some(end - 7);
                }
            }
        }
    }
    None
}

/// The first place from `pos` on at which the window passes, or one near the end before which none
/// does: fewer than 26 bytes are left there.
///
/// The state is shifted by a byte a place, so that behind a place its lowest byte is that of the
/// window that ends there: a bit of it is 0 if that bit's bucket lets the window pass.
#[inline(always)]
pub(super) fn scan(entries: &[u64], stride: usize, haystack: &[u8], pos: usize) -> usize
    requires sized { length entries.now ≡ 8192 }
    requires stride { (stride ≡ 1) ⊎ (stride ≡ 2) }
    requires begun { pos ≤ length haystack.now }
    ensures behind { pos ≤ result }
    ensures inside { result ≤ length haystack.now }
    ensures none { NoneLet entries.now haystack.now pos result }
    ensures here { (some_lets entries.now (drop result haystack.now) ≡ true) ⊎ (length haystack.now < result + 26) }
{
    let mut state = u64::MAX;
    let mut place = pos;
    while haystack.len() - place >= LEAST_ROUND {
        let (next, is_sure) = read_round(entries, stride, haystack, place, state);
        if !is_sure {
            if let Some(found) = find_in_round(entries, stride, haystack, pos, place, state) {
                return found;
            }
        }
        state = next;
        place += 16;
    }
    if place == pos {
        return pos;
    }
    place - 7
}
