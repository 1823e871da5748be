//! What the tests ask of the automaton over characters.

use crate::automata::{Automaton, BUILT, Charwise, PATTERNS, PATVALS, Plainly, Way, given_back};
use crate::finding::{Found, are_listed, are_read};
use crate::writers::{bracket_text, instead_of_text, write_bracketed};
use daachorse::{
    CharwiseDoubleArrayAhoCorasick, CharwiseDoubleArrayAhoCorasickBuilder, Result, in_blocks,
};
use std::alloc::Allocator;
use std::io::{self, ErrorKind, Read, Write};

/// The builder for this way.
fn builder<A: Allocator + Copy>(
    alloc: A,
    way: Way,
) -> Result<CharwiseDoubleArrayAhoCorasickBuilder<A>> {
    let builder = CharwiseDoubleArrayAhoCorasickBuilder::new()
        .match_kind(way.kind)
        .use_prefilter(way.filtered)
        .ascii_case_insensitive(way.folds);
    if way.by_corpus {
        return builder.corpus(alloc, ["世界中に", "abcd"]);
    }
    Ok(builder)
}

impl<A: Allocator + Copy> Automaton for Charwise<A> {
    type Alloc = A;

    fn built(alloc: A, way: Way, patvals: &[(&str, u32)]) -> Result<Self> {
        builder(alloc, way)?.build_with_values(alloc, patvals.iter().copied())
    }

    fn built_plainly(alloc: A, how: Plainly) -> Result<Self> {
        match how {
            Plainly::New => CharwiseDoubleArrayAhoCorasick::new(alloc, PATTERNS),
            Plainly::WithValues => CharwiseDoubleArrayAhoCorasick::with_values(alloc, PATVALS),
            Plainly::Build => CharwiseDoubleArrayAhoCorasickBuilder::default().build(
                alloc, PATTERNS,
            ),
            Plainly::BuildByCorpus => {
                let way = Way {
                    by_corpus: true,
                    ..BUILT
                };
                builder(alloc, way)?.build(alloc, PATTERNS)
            }
        }
    }

    fn read_back(&self, alloc: A, is_checked: bool) -> Result<Self> {
        let mut bytes = self.serialize(alloc)?;
        bytes.push(42)?;
        let (read, _rest) = if is_checked {
            CharwiseDoubleArrayAhoCorasick::deserialize(alloc, &bytes)?
        } else {
            CharwiseDoubleArrayAhoCorasick::deserialize_unchecked(alloc, &bytes)?
        };
        Ok(read)
    }

    fn read(alloc: A, bytes: &[u8]) -> Result<Self> {
        Ok(CharwiseDoubleArrayAhoCorasick::deserialize(alloc, bytes)?.0)
    }

    fn cloned(&self) -> Result<Self> {
        self.clone()
    }

    fn cache(&mut self) -> Result<()> {
        if self.match_kind().is_standard() {
            return self.cache_depths();
        }
        Ok(())
    }

    fn accelerates(&self, alloc: A) -> Result<bool> {
        match self.clone()?.accelerate(alloc) {
            Ok(accelerated) => Ok(accelerated.into_automaton() == *self),
            Err(error) => given_back(error.refusal, error.automaton == *self),
        }
    }

    fn lists(&self, alloc: A, expected: &[(&str, u32)]) -> Result<bool> {
        are_listed(self.iter(alloc)?, expected)
    }

    fn reads<R: Read + Drop>(
        &self,
        alloc: A,
        reader: R,
        expected: &[Found],
        error: Option<ErrorKind>,
    ) -> io::Result<bool> {
        if !self.match_kind().is_standard() {
            return Ok(false);
        }
        let items = self.find_overlapping_iter_from_reader(in_blocks(alloc, reader)?);
        Ok(are_read(items, expected, error))
    }

    fn reads_leftmost<R: Read + Drop>(
        &self,
        alloc: A,
        reader: R,
        expected: &[Found],
        error: Option<ErrorKind>,
    ) -> io::Result<bool> {
        if self.match_kind().is_standard() {
            return Ok(false);
        }
        let marks = self.stream_marks(alloc)?;
        let blocks = in_blocks(alloc, reader)?;
        let items = self.leftmost_stream_from_reader(alloc, &marks, blocks)?;
        Ok(are_read(items, expected, error))
    }

    fn brackets<R: Read + Drop, W: Write>(
        &self,
        alloc: A,
        reader: R,
        out: &mut W,
    ) -> io::Result<()> {
        self.replace_all_from_reader(alloc, reader, out, write_bracketed)
    }

    fn bracketed(&self, alloc: A, text: &str) -> Result<Vec<u8, A>> {
        let mut out = String::new(alloc);
        self.replace_all_with(text, &mut out, |_found, part, out| bracket_text(part, out))?;
        Ok(out.into_bytes())
    }

    fn replaced(&self, alloc: A, text: &str) -> Result<Vec<u8, A>> {
        Ok(self.replace_all(alloc, text, instead_of_text)?.into_bytes())
    }
}
