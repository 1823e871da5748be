//! Searches of what is read, where its length is not known.

ghost use Rattle.std.specs.Prelude.{◌≡◌, ◌⊎◌, IfErr, IfOk, IsErrAnd, OnOk, ⊤, codes};
ghost use Rattle.std.specs.Iterator.{IsFinite};
ghost use Rattle.daachorse_model.specs.declared.MatchKind.TheVariants.{Standard};
ghost use Rattle.daachorse_model.specs.Folding.{as_read};
ghost use Rattle.daachorse_model.specs.Matches.{overlapping, standard};
ghost use Rattle.daachorse_model.specs.Units.{byte_width, char_width};
ghost use Rattle.daachorse.specs.bytewise.Automata as bytes;
ghost use Rattle.daachorse.specs.charwise.Automata as characters;
ghost use Rattle.daachorse_streams.specs.Replaced.{AppendsBeginning};
ghost use Rattle.daachorse_search.specs.Readers.{IsLasting};
ghost use Rattle.daachorse_uses.specs.Copies.{CopiesRead, IsCopiedWith, in_brackets, matches_of};
ghost use Rattle.daachorse_uses.specs.Found.{IsCountRead, IsFirstGiven, IsFirstRead};
ghost use Rattle.daachorse_uses.specs.Secrets.{AreRefused, IsOfSecrets, IsSecretsRefusal, dictionary_in, secrets_found};

use daachorse::{
    CharwiseDoubleArrayAhoCorasick, DoubleArrayAhoCorasick, DoubleArrayAhoCorasickBuilder, Match,
    MatchKind, Result,
};
use daachorse_streams::appending::write_whole;
use std::alloc::Global;
use std::io::{self, BufRead, Read, Write};

/// Returns the match that ends first in what a reader gives, and takes no byte after it.
///
/// Fails with the reader's error if that comes before a match.
pub fn first_in_reader<R: BufRead + Drop>(
    words: &DoubleArrayAhoCorasick<u32>,
    reader: R,
) -> io::Result<Option<Match<u32>>>
    requires standard { bytes.kind_of words.now ≡ Standard }
    ensures ok { IfOk result (IsFirstRead (R.remaining reader) (matches_of words.now)) }
    ensures err { IfErr result IsLasting }
{
    words.find_iter_from_reader(reader).next().transpose()
}

/// Returns the match that ends first among characters, and takes none past it. Returns `None` also
/// where no match ends at a place that fits a `usize`.
///
/// A stepper counts the bytes consumed in a `usize`. Before each character this asks whether its
/// place still fits, which is the condition of `consume`.
pub fn first_in_characters<I: Iterator<Item = char> + Drop>(
    words: &CharwiseDoubleArrayAhoCorasick<u32>,
    source: I,
) -> Option<Match<u32>>
    requires standard { characters.kind_of words.now ≡ Standard }
    requires can { I.can_next source }
    requires ends { IsFinite (I.remaining source) }
    ensures { IsFirstGiven I.next_gives source (λ text. standard char_width (characters.dictionary_of words.now) (as_read words.now.folds text)) result }
{
    let mut stepper = words.find_stepper();
    if stepper.matches().is_some() {
        return stepper.matches();
    }
    for character in source {
        if usize::MAX - stepper.place() < character.len_utf8() {
            return None;
        }
        stepper.consume(character);
        if stepper.matches().is_some() {
            return stepper.matches();
        }
    }
    None
}

/// Returns how often the words occur in what a reader gives, overlapping ones included, up to
/// `usize::MAX`.
///
/// Fails with the reader's error.
pub fn count_in_reader<R: BufRead + Drop>(
    words: &DoubleArrayAhoCorasick<u32>,
    reader: R,
) -> io::Result<usize>
    requires standard { bytes.kind_of words.now ≡ Standard }
    ensures ok { IfOk result (IsCountRead (R.remaining reader) (λ text. overlapping byte_width (bytes.dictionary_of words.now) (as_read words.now.folds text))) }
    ensures err { IfErr result IsLasting }
{
    let mut count = 0usize;
    for found in words.find_overlapping_iter_from_reader(reader) {
        found?;
        count = count.saturating_add(1);
    }
    Ok(count)
}

/// Copies what a reader gives to `out`, with the value of each match in brackets in its place.
pub fn name_matches<R: Read + Drop, W: Write>(
    words: &DoubleArrayAhoCorasick<u32>,
    alloc: Global,
    reader: R,
    out: &mut W,
) -> io::Result<()>
    requires standard { bytes.kind_of words.now ≡ Standard }
    ensures copied { OnOk result (IsCopiedWith (R.remaining reader) (matches_of words.now) (λ m. in_brackets m.value) (W.contents out.old) (W.contents out.new)) }
    ensures copies { CopiesRead (bytes.dictionary_of words.now) (R.remaining reader) (matches_of words.now) (λ old new text. ⊤) W.contents (λ m. in_brackets m.value) result out.old out.new }
{
    words.replace_all_from_reader(alloc, reader, out, |found, _matched, out| {
        write!(out, "[{}]", found.value())
    })
}

/// Copies a log with `[...]` in place of each of the secrets in it, of which each line of
/// `secrets` is one. Of those that begin together it takes the longest.
pub fn redact_log<R: Read + Drop, W: Write>(
    secrets: &str,
    alloc: Global,
    log: R,
    out: &mut W,
) -> io::Result<()>
    ensures copied { OnOk result (IsCopiedWith (R.remaining log) (secrets_found secrets.now) (λ m. codes "[...]") (W.contents out.old) (W.contents out.new)) }
    ensures copies { (IsErrAnd result (AreRefused secrets.now) × (W.contents out.new ≡ W.contents out.old))
        ⊎ CopiesRead (dictionary_in secrets.now) (R.remaining log) (secrets_found secrets.now) AppendsBeginning W.contents (λ m. codes "[...]") result out.old out.new }
{
    redact_reader(&automaton_of(alloc, secrets)?, alloc, log, out)
}

/// An automaton of the secrets that a text lists.
fn automaton_of(alloc: Global, secrets: &str) -> Result<DoubleArrayAhoCorasick<u32>>
    ensures ok { IfOk result (IsOfSecrets secrets.now) }
    ensures err { IfErr result (IsSecretsRefusal secrets.now) }
{
    let lines = secrets.lines().filter(|line| !line.is_empty());
    DoubleArrayAhoCorasickBuilder::new()
        .match_kind(MatchKind::LeftmostLongest)
        .build(alloc, lines.map(|line| line.as_bytes()))
}

/// Copies what a reader gives to `out`, with `[...]` in place of each match.
///
/// At an error a prefix of the copy was written, whatever the reader would have given next.
pub fn redact_reader<R: Read + Drop, W: Write>(
    words: &DoubleArrayAhoCorasick<u32>,
    alloc: Global,
    reader: R,
    out: &mut W,
) -> io::Result<()>
    ensures copied { OnOk result (IsCopiedWith (R.remaining reader) (matches_of words.now) (λ m. codes "[...]") (W.contents out.old) (W.contents out.new)) }
    ensures copies { CopiesRead (bytes.dictionary_of words.now) (R.remaining reader) (matches_of words.now) AppendsBeginning W.contents (λ m. codes "[...]") result out.old out.new }
{
    words.replace_all_from_reader(alloc, reader, out, |_found, _secret, out| {
        write_whole(out, b"[...]")
    })
}
