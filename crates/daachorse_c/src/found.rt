//! Matches in C's layout.

ghost use Rattle.std.specs.Prelude.{◌≡◌, ℕ, List, length};
ghost use Rattle.std.specs.Iterator.{AlwaysYields, IsFinite};
ghost use Rattle.daachorse_model.specs.declared.Match.{Match};
ghost use Rattle.daachorse_c.specs.Writes.{Writes, c_match};

use daachorse::Match;

/// A match in C's layout. Offsets are in bytes.
#[repr(C)]
#[derive(Clone, Copy)]
pub struct CMatch {
    /// The offset where it starts.
    pub start: usize,
    /// The offset after its last byte.
    pub end: usize,
    /// The value of its pattern.
    pub value: u32,
}

impl CMatch {
    /// The match in C's layout.
    #[inline(always)]
    pub(crate) fn of(found: Match<u32>) -> CMatch
        ensures { result ≡ c_match found }
    {
        CMatch {
            start: found.start,
            end: found.end,
            value: found.value,
        }
    }
}

/// Writes the first matches, as many as there is room for, and returns their number.
#[inline(always)]
pub(crate) fn fill<I: Iterator<Item = Match<u32>> + Drop>(matches: I, out: &mut [CMatch]) -> usize
    requires can { I.can_next matches }
    requires ends { IsFinite (I.remaining matches) }
    ensures room { length out.new ≡ length out.old }
    ensures written { (all : List (Match ℕ)) → AlwaysYields I.next_gives (λ m. m) matches all → Writes all out.old out.new result }
{
    let mut written = 0;
    for found in matches {
        if written == out.len() {
            return written;
        }
        out[written] = CMatch::of(found);
        written += 1;
    }
    written
}
