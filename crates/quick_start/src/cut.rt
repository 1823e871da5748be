//! Cuts a text into the words of a dictionary and what stands between them.

ghost use Rattle.std.specs.Prelude.{◌≡◌, IfOk};
ghost use Rattle.daachorse_model.specs.declared.MatchKind.TheVariants.{LeftmostLongest};
ghost use Rattle.daachorse.specs.charwise.Automata.{kind_of};

use daachorse::errors::DaachorseError;
use daachorse::{CharwiseDoubleArrayAhoCorasick, CharwiseDoubleArrayAhoCorasickBuilder, MatchKind};
use daactok::{Token, Tokenizer};
use std::alloc::Global;
use std::io;

/// A dictionary of three words.
fn dictionary(alloc: Global) -> Result<CharwiseDoubleArrayAhoCorasick<u32>, DaachorseError>
    ensures { IfOk result (λ words. kind_of words ≡ LeftmostLongest) }
{
    let builder = CharwiseDoubleArrayAhoCorasickBuilder::new();
    let builder = builder.match_kind(MatchKind::LeftmostLongest);
    builder.build(alloc, ["東京", "京都", "東京都"])
}

/// Writes a token on a line: its text, start, end and value.
fn write(rt: &HostRuntime, token: &Token<'_, u32>) -> io::Result<()> {
    println!(rt;
        "{} {} {} {:?}",
        token.text, token.start, token.end, token.value
    )?;
    Ok(())
}

/// Writes each token of a text on a line.
pub fn cut(rt: &HostRuntime) -> io::Result<()> {
    let words = dictionary(rt.alloc())?;
    let tokenizer = Tokenizer::new(&words).map_err(|_| io::ErrorKind::InvalidInput)?;
    for token in tokenizer.tokens("東京都に") {
        write(rt, &token)?;
    }
    Ok(())
}
