//! How often the rules of a set match in a line of a log.

ghost use Rattle.std.specs.Prelude.{◌≡◌, ◌==◌, ◌+◌, ◌*◌, ◌<◌, ◌≤◌, ◌^◌, ◌-◌, ℕ, count_by, length, min, slice_index};
ghost use Rattle.daachorse_model.specs.declared.MatchKind.TheVariants.{Standard};
ghost use Rattle.daachorse_model.specs.Folding.{as_read};
ghost use Rattle.daachorse_model.specs.Matches.{overlapping};
ghost use Rattle.daachorse_model.specs.Units.{byte_width};
ghost use Rattle.daachorse.specs.bytewise.Automata.{dictionary_of, kind_of};

use daachorse::DoubleArrayAhoCorasick;
use daachorse::bytewise::iter::FindOverlappingSliceIterator;

/// Returns how often a rule matches in a line, overlapping matches included, up to `u64::MAX`.
pub fn count_rule(rules: &DoubleArrayAhoCorasick<u32>, line: &[u8], rule: u32) -> u64
    requires { kind_of rules.now ≡ Standard }
    ensures { result ≡ min (count_by (λ m. m.value == rule) (overlapping byte_width (dictionary_of rules.now) (as_read rules.now.folds line.now))) (2 ^ 64 - 1) }
{
    let mut count = 0u64;
    for found in rules.find_overlapping_iter(line) {
        if found.value == rule {
            count = count.saturating_add(1);
        }
    }
    count
}

/// Adds to each rule's counter how often the rule matches in the rest of a search, up to
/// `u64::MAX`. Rules with no counter are skipped. The search looks at no more than two states for
/// each byte of its haystack.
pub fn count_each<'a>(search: &mut FindOverlappingSliceIterator<'a, u32>, counts: &mut [u64])
    ensures counts { (rule : ℕ) → rule < length counts.old → slice_index counts.new rule
        ≡ min (slice_index counts.old rule + count_by (λ m. m.value == rule) search.old.left) (2 ^ 64 - 1) }
    ensures turns { search.new.turns ≤ 2 * length search.new.haystack }
    ensures haystack { search.new.haystack ≡ search.old.haystack }
{
    while let Some(found) = search.next() {
        let rule = found.value as usize;
        if rule < counts.len() {
            counts[rule] = counts[rule].saturating_add(1);
        }
    }
    search.turns_are_bounded();
}
