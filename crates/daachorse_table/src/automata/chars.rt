//! Automata over characters: how they are built, written and read, what they tell, and their streams.

use crate::automata::Automaton;
use crate::case::Case;
use crate::finding::{Found, are, are_values, gives_leftmost_read};
use crate::report::Stop;
use crate::row::{Count, Documents, Making, Pattern, Way};
use crate::searched::chars::Charwise;
use crate::searched::chars_rows::CharwiseRows;
use crate::streamed::{Coming, are_streamed, gives_over, gives_rest};
use daachorse::{CharwiseDoubleArrayAhoCorasickBuilder, Match, Result};
use std::alloc::Global;
use std::io::{self, BufRead, ErrorKind};
use std::str;

/// The documents as texts.
fn texts_of(alloc: Global, documents: &Documents) -> Result<Vec<&str>, Stop> {
    let mut texts = Vec::new(alloc);
    for document in documents {
        match str::from_utf8(document) {
            Ok(text) => texts.push(text)?,
            Err(_) => return Err(Stop::Unreadable),
        }
    }
    Ok(texts)
}

/// The patterns as texts, with their values.
fn patvals_of(alloc: Global, patterns: &[Pattern]) -> Result<Vec<(&str, u32)>, Stop> {
    let mut patvals = Vec::new(alloc);
    for (pattern, value) in patterns {
        match str::from_utf8(pattern) {
            Ok(text) => patvals.push((text, *value))?,
            Err(_) => return Err(Stop::Unreadable),
        }
    }
    Ok(patvals)
}

/// The builder for this way.
fn builder_of(
    alloc: Global,
    making: &Making,
    way: Way,
) -> Result<CharwiseDoubleArrayAhoCorasickBuilder, Stop> {
    let mut builder = CharwiseDoubleArrayAhoCorasickBuilder::new()
        .match_kind(making.kind)
        .use_prefilter(way.is_filtered)
        .ascii_case_insensitive(way.folds);
    if !way.has_corpus {
        return Ok(builder);
    }
    for documents in &making.corpora {
        let texts = texts_of(alloc, documents)?;
        builder = builder
            .corpus(alloc, texts.iter().copied())
            .map_err(|_| Stop::Memory)?;
    }
    Ok(builder)
}

impl Automaton for Charwise {
    type Rows = CharwiseRows;

    fn built(alloc: Global, making: &Making, way: Way, patterns: &[Pattern]) -> Result<Self, Stop> {
        let builder = builder_of(alloc, making, way)?;
        let patvals = patvals_of(alloc, patterns)?;
        builder
            .build_with_values(alloc, patvals.iter().copied())
            .map_err(|_| Stop::Refused)
    }

    fn read(alloc: Global, bytes: &[u8]) -> Result<Self> {
        Ok(Charwise::deserialize(alloc, bytes)?.0)
    }

    fn read_back(&self, alloc: Global, is_checked: bool) -> Result<(Self, bool)> {
        let mut bytes = self.serialize(alloc)?;
        bytes.push(42)?;
        let (read, rest) = if is_checked {
            Charwise::deserialize(alloc, &bytes)?
        } else {
            Charwise::deserialize_unchecked(alloc, &bytes)?
        };
        let is_left = matches!(rest, [42]);
        Ok((read, is_left))
    }

    fn written(&self, alloc: Global) -> Result<Vec<u8>> {
        self.serialize(alloc)
    }

    fn cloned(&self) -> Result<Self> {
        self.clone()
    }

    fn cache(&mut self) -> Result<()> {
        if self.match_kind().is_standard() {
            return self.cache_depths();
        }
        Ok(())
    }

    fn with_rows(self, alloc: Global) -> Option<CharwiseRows> {
        self.accelerate(alloc).ok()
    }

    fn without_rows(rows: CharwiseRows) -> Self {
        rows.into_automaton()
    }

    fn count(&self, alloc: Global, count: Count) -> Result<Option<usize>> {
        Ok(match count {
            Count::States => Some(self.num_states()),
            Count::Elements => Some(self.num_elements()),
            Count::Patterns => Some(self.num_patterns(alloc)?),
            Count::Longest => Some(self.max_pattern_len(alloc)?),
            Count::Length => Some(self.serialize(alloc)?.len()),
        })
    }

    fn has_values(&self, text: &[u8], expected: &[u32]) -> bool {
        match str::from_utf8(text) {
            Ok(text) => {
                self.contains(text) != expected.is_empty() && are_values(self.get(text), expected)
            }
            Err(_) => false,
        }
    }

    fn has_prefixes(&self, text: &[u8], expected: &[Found]) -> bool {
        match str::from_utf8(text) {
            Ok(text) => are(self.common_prefixes(text), expected),
            Err(_) => false,
        }
    }

    fn longest_of(&self, text: &[u8]) -> Option<Match<u32>> {
        match str::from_utf8(text) {
            Ok(text) => self.longest_prefix(text),
            Err(_) => None,
        }
    }

    fn streams(&self, alloc: Global, case: &Case, times: &[usize]) -> bool {
        if self.match_kind().is_standard() {
            return false;
        }
        let Ok(marks) = self.stream_marks(alloc) else {
            return false;
        };
        match self.leftmost_stream(alloc, &marks) {
            Ok(mut stream) => are_streamed(&mut stream, &case.characters, &case.expected, times),
            Err(_) => false,
        }
    }

    fn streams_resumed(&self, alloc: Global, case: &Case, times: &[usize], cut: usize) -> bool {
        if self.match_kind().is_standard() {
            return false;
        }
        let Ok(marks) = self.stream_marks(alloc) else {
            return false;
        };
        let Ok(mut stream) = self.leftmost_stream(alloc, &marks) else {
            return false;
        };
        let cut = cut.min(case.characters.len());
        let mut coming = Coming::new(&case.expected, times);
        let is_saved = gives_over(&mut stream, &case.characters[..cut], &mut coming);
        let mut resumed = self.resume_leftmost_stream(&marks, stream.into_standing());
        is_saved && gives_rest(&mut resumed, &case.characters[cut..], &mut coming)
    }

    fn streams_from_reader<R: BufRead + Drop>(
        &self,
        alloc: Global,
        reader: R,
        expected: &[Found],
        error: Option<ErrorKind>,
    ) -> io::Result<bool> {
        if self.match_kind().is_standard() {
            return Ok(false);
        }
        let marks = self.stream_marks(alloc)?;
        let items = self.leftmost_stream_from_reader(alloc, &marks, reader)?;
        Ok(gives_leftmost_read(items, expected, error))
    }
}
