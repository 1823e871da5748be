//! The slots of three bytes.

ghost use Rattle.std.specs.Prelude.{◌≡◌, ◌+◌, ◌*◌, ◌<◌, ◌≤◌, ℕ, length, slice_index};
ghost use Rattle.daachorse_prefilter.specs.Buckets.{slot, slot_at};

/// How many slots there are.
pub(super) const NUM_SLOTS: usize = 8192;

/// With this bit a capital letter is the small one.
const CASE_BITS: u32 = 0x0020_2020;

/// Times this, three bytes in the lower 24 bits have the number of their slot in the upper 13 of 32
/// bits. Its lower eight bits are 0, so that a fourth byte changes nothing.
const MIX: u32 = 0x85EB_CA00;

/// The slot of the lower three of four bytes.
#[inline(always)]
fn slot(bytes: u32) -> usize
    ensures is { (a b c d : ℕ) → a < 256 → b < 256 → c < 256 → bytes ≡ a + 256 * b + 65536 * c + 16777216 * d → result ≡ slot a b c }
    ensures below { result < 8192 }
{
    ((bytes | CASE_BITS).wrapping_mul(MIX) >> 19) as usize
}

/// The slot of three bytes.
pub(super) fn slot_of(first: u8, second: u8, third: u8) -> usize
    ensures is { result ≡ slot first second third }
    ensures below { result < 8192 }
{
    slot(u32::from_le_bytes([first, second, third, 0]))
}

/// The four bytes from a place on.
#[inline(always)]
fn four(haystack: &[u8], place: usize) -> u32
    requires { place + 4 ≤ length haystack.now }
    ensures { result ≡ slice_index haystack.now place + 256 * slice_index haystack.now (place + 1) + 65536 * slice_index haystack.now (place + 2)
        + 16777216 * slice_index haystack.now (place + 3) }
{
    // As one number all are loaded at once.
    u32::from_le_bytes([
        haystack[place],
        haystack[place + 1],
        haystack[place + 2],
        haystack[place + 3],
    ])
}

/// The entry of the three bytes from a place on.
#[inline(always)]
pub(super) fn entry(entries: &[u64], haystack: &[u8], place: usize) -> u64
    requires sized { length entries.now ≡ 8192 }
    requires inside { place + 4 ≤ length haystack.now }
    ensures { result ≡ slice_index entries.now (slot_at haystack.now place) }
{
    entries[slot(four(haystack, place))]
}
