//! Laws of matches and patterns: functions that do nothing, called for their contracts.
//!
//! After a call its clauses are known of all patterns and all haystacks. These are lists of units;
//! `width` is `byte_width`, `char_width` or any other width.

ghost use Rattle.std.specs.Prelude.{◌≡◌, ◌↔◌, ℕ, Bool, List, [], ◌++◌, All, Contains, length, encode_utf8_all, option_to_list};
ghost use Rattle.std.specs.Str.{IsCharBoundary, IsUtf8, chars};
ghost use Rattle.std.specs.Cmp.Lexicographic.{slice_cmp};
ghost use Rattle.std.specs.Ordering.{nat_cmp};
ghost use Rattle.daachorse_model.specs.declared.Match.{Match};
ghost use Rattle.daachorse_model.specs.Units.{byte_width, char_width, size};
ghost use Rattle.daachorse_model.specs.Folding.{folded, as_read, texts_as_read};
ghost use Rattle.daachorse_model.specs.Dictionary.{kept_registrations, dictionary, in_bytes};
ghost use Rattle.daachorse_model.specs.Matches.{overlapping, no_suffix, standard, at_each_end, standard_after};
ghost use Rattle.daachorse_model.specs.Leftmost.{leftmost};
ghost use Rattle.daachorse_model.specs.Certain.{AreCertain};
ghost use Rattle.daachorse_model.specs.Laws.{IsOccurrence, IsReadOccurrence, IsRegistered, Follows, IsLongestAtStart, IsEarliestAtStart, StandsInNoKey, IsCutBy};

use crate::MatchKind;

/// Every match is an occurrence of a registered pattern with its value, and every occurrence of a
/// kept pattern is an overlapping match. With `folds`, ASCII case is disregarded.
pub fn matches_occur<V: Copy>(kind: MatchKind)
    ensures overlapping { (folds : Bool) (width : ℕ → ℕ) (patterns : List (List ℕ × V)) (h : List ℕ)
        → let K = dictionary kind (texts_as_read folds patterns) in All (IsReadOccurrence folds width K h) (overlapping width K (as_read folds h)) }
    ensures no_suffix { (folds : Bool) (width : ℕ → ℕ) (patterns : List (List ℕ × V)) (h : List ℕ)
        → let K = dictionary kind (texts_as_read folds patterns) in All (IsReadOccurrence folds width K h) (no_suffix width K (as_read folds h)) }
    ensures standard { (folds : Bool) (width : ℕ → ℕ) (patterns : List (List ℕ × V)) (h : List ℕ)
        → let K = dictionary kind (texts_as_read folds patterns) in All (IsReadOccurrence folds width K h) (standard width K (as_read folds h)) }
    ensures leftmost { (folds : Bool) (width : ℕ → ℕ) (patterns : List (List ℕ × V)) (h : List ℕ)
        → let K = dictionary kind (texts_as_read folds patterns) in All (IsReadOccurrence folds width K h) (leftmost width K (as_read folds h)) }
    ensures complete { (folds : Bool) (width : ℕ → ℕ) (patterns : List (List ℕ × V)) (h : List ℕ) (m : Match V)
        → let K = dictionary kind (texts_as_read folds patterns) in IsOccurrence width K (as_read folds h) m → Contains (overlapping width K (as_read folds h)) m }
    ensures registered { (folds : Bool) (patterns : List (List ℕ × V)) (w : List ℕ)
        → All (IsRegistered folds patterns w) (dictionary kind (texts_as_read folds patterns) w) }
{}

/// Standard and leftmost matches do not overlap, and come in the order of their places.
pub fn matches_follow<V: Copy>(kind: MatchKind)
    ensures standard { (width : ℕ → ℕ) (patterns : List (List ℕ × V)) (h : List ℕ) → Follows 0 (standard width (dictionary kind patterns) h) }
    ensures leftmost { (width : ℕ → ℕ) (patterns : List (List ℕ × V)) (h : List ℕ) → Follows 0 (leftmost width (dictionary kind patterns) h) }
{}

/// A leftmost match is the longest kept pattern that occurs at its start, with the value that was
/// registered first for it. `LeftmostLongest` keeps every pattern.
pub fn leftmost_is_longest<V: Copy>(kind: MatchKind)
    ensures { (width : ℕ → ℕ) (patterns : List (List ℕ × V)) (h : List ℕ)
        → let K = dictionary kind patterns in All (IsLongestAtStart width K h) (leftmost width K h) }
{}

/// A match of `LeftmostFirst` is the earliest registered pattern that occurs at its start. The
/// matches are those of `LeftmostLongest` over the kept patterns.
pub fn leftmost_first_is_earliest<V: Copy>()
    ensures earliest { (width : ℕ → ℕ) (patterns : List (List ℕ × V)) (h : List ℕ)
        → All (IsEarliestAtStart width patterns h) (leftmost width (dictionary MatchKind.LeftmostFirst patterns) h) }
    ensures longest_of_kept { (width : ℕ → ℕ) (patterns : List (List ℕ × V)) (h : List ℕ)
        → leftmost width (dictionary MatchKind.LeftmostFirst patterns) h
        ≡ leftmost width (dictionary MatchKind.LeftmostLongest (kept_registrations MatchKind.LeftmostFirst patterns)) h }
{}

/// The leftmost matches that are certain after some units are one list. It begins the matches of
/// these units, and those that are certain after more units.
pub fn certain_matches_grow<V: Copy>(kind: MatchKind)
    ensures one { (width : ℕ → ℕ) (patterns : List (List ℕ × V)) (c : List ℕ) (ms ns : List (Match V))
        → let K = dictionary kind patterns in AreCertain width K c ms → AreCertain width K c ns → ms ≡ ns }
    ensures begins { (width : ℕ → ℕ) (patterns : List (List ℕ × V)) (c : List ℕ) (ms : List (Match V))
        → let K = dictionary kind patterns in AreCertain width K c ms → (rest : List (Match V)) × (leftmost width K c ≡ ms ++ rest) }
    ensures grows { (width : ℕ → ℕ) (patterns : List (List ℕ × V)) (c d : List ℕ) (ms ns : List (Match V))
        → let K = dictionary kind patterns in AreCertain width K c ms → AreCertain width K (c ++ d) ns → (rest : List (Match V)) × (ns ≡ ms ++ rest) }
{}

/// A unit that no pattern has cuts a haystack in two, which may be searched apart.
pub fn cut_at_unused_units<V: Copy>(kind: MatchKind)
    ensures overlapping { (width : ℕ → ℕ) (patterns : List (List ℕ × V)) (u : ℕ) → let K = dictionary kind patterns in StandsInNoKey K u → IsCutBy width (overlapping width K) u }
    ensures no_suffix { (width : ℕ → ℕ) (patterns : List (List ℕ × V)) (u : ℕ) → let K = dictionary kind patterns in StandsInNoKey K u → IsCutBy width (no_suffix width K) u }
    ensures standard { (width : ℕ → ℕ) (patterns : List (List ℕ × V)) (u : ℕ) → let K = dictionary kind patterns in StandsInNoKey K u → IsCutBy width (standard width K) u }
    ensures leftmost { (width : ℕ → ℕ) (patterns : List (List ℕ × V)) (u : ℕ) → let K = dictionary kind patterns in StandsInNoKey K u → IsCutBy width (leftmost width K) u }
{}

/// On text and nonempty patterns of text, bytes and characters give the same matches, with or
/// without regard to ASCII case.
pub fn same_on_text<V: Copy>(kind: MatchKind)
    ensures overlapping { (folds : Bool) (patterns : List (List ℕ × V)) (h : List ℕ) → dictionary kind (texts_as_read folds patterns) [] ≡ []
        → overlapping byte_width (dictionary kind (texts_as_read folds (in_bytes patterns))) (as_read folds (encode_utf8_all h))
        ≡ overlapping char_width (dictionary kind (texts_as_read folds patterns)) (as_read folds h) }
    ensures no_suffix { (folds : Bool) (patterns : List (List ℕ × V)) (h : List ℕ) → dictionary kind (texts_as_read folds patterns) [] ≡ []
        → no_suffix byte_width (dictionary kind (texts_as_read folds (in_bytes patterns))) (as_read folds (encode_utf8_all h))
        ≡ no_suffix char_width (dictionary kind (texts_as_read folds patterns)) (as_read folds h) }
    ensures standard { (folds : Bool) (patterns : List (List ℕ × V)) (h : List ℕ) → dictionary kind (texts_as_read folds patterns) [] ≡ []
        → standard byte_width (dictionary kind (texts_as_read folds (in_bytes patterns))) (as_read folds (encode_utf8_all h))
        ≡ standard char_width (dictionary kind (texts_as_read folds patterns)) (as_read folds h) }
    ensures leftmost { (folds : Bool) (patterns : List (List ℕ × V)) (h : List ℕ) → dictionary kind (texts_as_read folds patterns) [] ≡ []
        → leftmost byte_width (dictionary kind (texts_as_read folds (in_bytes patterns))) (as_read folds (encode_utf8_all h))
        ≡ leftmost char_width (dictionary kind (texts_as_read folds patterns)) (as_read folds h) }
{}

/// Texts have one order, by their characters or by the bytes of their UTF-8.
pub fn ordered_by_bytes()
    ensures { (v w : List ℕ) → slice_cmp nat_cmp v w ≡ slice_cmp nat_cmp (encode_utf8_all v) (encode_utf8_all w) }
{}

/// The standard matches, in order, are those found at the end of each prefix of the haystack.
pub fn standard_end_by_end<V: Copy>(kind: MatchKind)
    ensures bytes { (patterns : List (List ℕ × V)) (h : List ℕ) → let K = dictionary kind patterns in
        at_each_end (λ t. option_to_list (standard_after byte_width K t)) [] h ≡ standard byte_width K h }
    ensures chars { (patterns : List (List ℕ × V)) (h : List ℕ) → let K = dictionary kind patterns in
        at_each_end (λ t. option_to_list (standard_after char_width K t)) [] h ≡ standard char_width K h }
{}

/// Folding the case of ASCII letters keeps the sizes and boundaries of texts, and commutes with
/// UTF-8.
pub fn folding_keeps_places()
    ensures again { (w : List ℕ) → folded (folded w) ≡ folded w }
    ensures length { (w : List ℕ) → length (folded w) ≡ length w }
    ensures bytes { (folds : Bool) (w : List ℕ) → size byte_width (as_read folds w) ≡ size byte_width w }
    ensures size { (folds : Bool) (w : List ℕ) → size char_width (as_read folds w) ≡ size char_width w }
    ensures spelled { (w : List ℕ) → encode_utf8_all (folded w) ≡ folded (encode_utf8_all w) }
    ensures characters { (bs : List ℕ) → IsUtf8 bs → chars (folded bs) ≡ folded (chars bs) }
    ensures boundaries { (bs : List ℕ) (i : ℕ) → IsCharBoundary (folded bs) i ↔ IsCharBoundary bs i }
{}
