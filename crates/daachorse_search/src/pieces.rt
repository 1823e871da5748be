//! Haystacks in pieces, each searched by itself.
ghost use Rattle.std.specs.Prelude.{◌≡◌, ◌-◌, ◌+◌, ◌≤◌, ℕ, List, ◌++◌, drop, length, map, take};
ghost use Rattle.daachorse_model.specs.Dictionary.{Dictionary};
ghost use Rattle.daachorse_model.specs.Matches.{overlapping, shifted};
ghost use Rattle.daachorse_model.specs.Units.{byte_width};
ghost use Rattle.daachorse_search.specs.BestScans.{HasNoLongerKey};
ghost use Rattle.daachorse_search.specs.Pieces.{IsCutInPieces, ending_behind};

/// Returns the byte offset where a piece of a haystack must begin to find all that ends after `at`,
/// if no pattern has more than `longest` bytes.
///
/// The overlapping matches of the haystack are those of its first `at` bytes, and those of the
/// piece that end after `at`, each moved by where the piece begins. `V` is the type of the
/// patterns' values.
pub fn piece_start<V: Copy>(at: usize, longest: usize) -> usize
    ensures place { result ≡ at - (longest - 1) }
    ensures matches { (K : Dictionary V) (h : List ℕ) → HasNoLongerKey K longest → at ≤ length h
        → overlapping byte_width K h ≡ overlapping byte_width K (take at h) ++ map (shifted result) (ending_behind (at - result) (overlapping byte_width K (drop result h))) }
{
    at.saturating_sub(longest.saturating_sub(1))
}

/// Does nothing. Its contract says the same of any units, if the piece carries at least the longest
/// pattern's units less one.
pub fn pieces_hold_all<V: Copy>()
    ensures { (width : ℕ → ℕ) (K : Dictionary V) (front carried rest : List ℕ) → ((u : ℕ) → 1 ≤ width u)
        → HasNoLongerKey K (length carried + 1) → IsCutInPieces width K front carried rest }
{}
