//! A text with its matches struck out.

ghost use Rattle.std.specs.Prelude.{◌≡◌, ◌≢◌, ◌<◌, ℕ, length, slice_index, if◌then◌else◌};
ghost use Rattle.daachorse_model.specs.declared.MatchKind.TheVariants.{Standard};
ghost use Rattle.daachorse_model.specs.Folding.{as_read};
ghost use Rattle.daachorse_model.specs.Leftmost.{leftmost};
ghost use Rattle.daachorse_model.specs.Units.{byte_width};
ghost use Rattle.daachorse.specs.bytewise.Automata.{dictionary_of, kind_of};
ghost use Rattle.daachorse_uses.specs.Covered.{is_covered};

use daachorse::DoubleArrayAhoCorasick;

/// Copies a text to `out`, of the same length, with a star for each byte in a leftmost match.
pub fn redact(words: &DoubleArrayAhoCorasick<u32>, text: &[u8], out: &mut [u8])
    requires leftmost { kind_of words.now ≢ Standard }
    requires room { length out.old ≡ length text.now }
    ensures { (i : ℕ) → i < length text.now
        → slice_index out.new i ≡ (if is_covered (leftmost byte_width (dictionary_of words.now) (as_read words.now.folds text.now)) i then 42 else slice_index text.now i) }
{
    out.copy_from_slice(text);
    for found in words.leftmost_find_iter(text) {
        out[found.start..found.end].fill(b'*');
    }
}
