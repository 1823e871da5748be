//! A row of the table, and how its first three fields are read.

use crate::form::form_of;
use crate::report::Stop;
use crate::text::{
    byte_of, expand, expand_word, number_of, push_character, range_of, small_number_of,
};
use daachorse::MatchKind;
use std::alloc::Global;

/// Which automata a row goes over.
#[derive(Clone, Copy, PartialEq, Eq)]
pub enum Units {
    Bytes,
    Chars,
    Both,
}

/// What becomes of an automaton that was built.
#[derive(Clone, Copy, PartialEq, Eq)]
pub enum Finish {
    /// It searches.
    Built,
    /// It is written and read with checks.
    Read,
    /// It is written and read without checks.
    Unchecked,
    /// It searches over rows of states.
    Rows,
}

/// How an automaton is built, and what becomes of it in turn.
#[derive(Clone, Copy)]
pub struct Way {
    pub is_filtered: bool,
    pub has_corpus: bool,
    pub folds: bool,
    pub finishes: &'static [Finish],
}

/// As built with the default settings.
const BUILT: Way = Way {
    is_filtered: true,
    has_corpus: false,
    folds: false,
    finishes: &[Finish::Built],
};

const FOLDING: Way = Way {
    folds: true,
    ..BUILT
};

/// The ways of a row that heeds case. The one that ignores it is the last.
const WAYS: [Way; 5] = [
    Way {
        finishes: &[Finish::Built, Finish::Read, Finish::Unchecked, Finish::Rows],
        ..BUILT
    },
    Way {
        has_corpus: true,
        ..BUILT
    },
    Way {
        is_filtered: false,
        ..BUILT
    },
    Way {
        is_filtered: false,
        has_corpus: true,
        ..BUILT
    },
    FOLDING,
];

/// The ways of a row that ignores case.
const FOLDING_WAYS: [Way; 3] = [
    Way {
        finishes: &[Finish::Built, Finish::Read, Finish::Rows],
        ..FOLDING
    },
    Way {
        has_corpus: true,
        ..FOLDING
    },
    Way {
        is_filtered: false,
        ..FOLDING
    },
];

/// The documents of the ways by a corpus.
const DOCUMENTS: [&str; 3] = ["ariaaria", "abcd", "世界中に"];

/// The documents of one call of `corpus`.
pub type Documents = Vec<Vec<u8>>;

/// What the first field says.
#[derive(Drop)]
pub struct Making {
    pub units: Units,
    pub kind: MatchKind,
    /// Whether there is just one way, which is `way`.
    pub is_one: bool,
    pub way: Way,
    /// The calls of `corpus`, in the ways that have one.
    pub corpora: Vec<Documents>,
    /// A place of the written form, and the byte that is put there.
    pub change: Option<(usize, u8)>,
}

/// A pattern with its value.
pub type Pattern = (Vec<u8>, u32);

/// What an automaton is made of.
#[derive(Drop)]
pub enum Origin {
    Patterns(Vec<Pattern>),
    /// A written form.
    Form(Vec<u8>),
}

/// A search for matches.
#[derive(Clone, Copy, PartialEq, Eq)]
pub enum Search {
    Overlapping,
    NoSuffix,
    Find,
    Leftmost,
}

/// Which texts a search goes over.
#[derive(Clone, Copy, PartialEq, Eq)]
pub enum Texts {
    One,
    /// For each number up to this one the text with it in place of the letter N.
    Each(usize),
    /// Each beginning of the text.
    Beginnings,
}

/// A number that an automaton tells.
#[derive(Clone, Copy, PartialEq, Eq)]
pub enum Count {
    States,
    Elements,
    Patterns,
    Longest,
    Length,
}

/// What is called.
#[derive(Clone, Copy, PartialEq, Eq)]
pub enum Call {
    Search(Search, Texts),
    Depths(Search),
    Certain,
    Patterns,
    Values,
    Prefixes,
    Number(Count),
    Kind,
    Summary,
    Replaced,
    Bracketed,
    Written,
    Word,
    Read,
    Beginnings,
    Changes,
}

/// A row. The last two fields are as they are written.
#[derive(Drop)]
pub struct Row<'a> {
    pub making: Making,
    pub origin: Origin,
    pub call: Call,
    pub text: &'a str,
    pub expected: &'a str,
}

impl<'a> Row<'a> {
    /// Whether the row goes over bytes.
    pub fn has_bytes(&self) -> bool {
        self.making.units != Units::Chars
    }

    /// Whether the row goes over characters.
    pub fn has_chars(&self) -> bool {
        self.making.units != Units::Bytes
    }

    /// Whether the automaton is read from a form that no build wrote.
    pub fn is_read_as_given(&self) -> bool {
        self.making.change.is_some() || matches!(&self.origin, Origin::Form(_))
    }

    /// Whether a pattern or the text has an ASCII capital letter.
    fn has_capitals(&self, alloc: Global) -> Result<bool, Stop> {
        let in_patterns = match &self.origin {
            Origin::Patterns(patterns) => patterns.iter().any(|pattern| is_capital_in(&pattern.0)),
            Origin::Form(_) => false,
        };
        // Any filling is repeated often enough to be seen whole.
        Ok(in_patterns || is_capital_in(&expand(alloc, self.text, 100)?))
    }

    /// The ways of the row.
    pub fn ways(&self, alloc: Global) -> Result<Vec<Way>, Stop> {
        let mut ways = Vec::new(alloc);
        if self.making.is_one {
            ways.push(self.making.way)?;
        } else if self.making.way.folds {
            ways.extend_from_slice(&FOLDING_WAYS)?;
        } else if self.has_capitals(alloc)? {
            ways.extend_from_slice(&WAYS[..4])?;
        } else {
            ways.extend_from_slice(&WAYS)?;
        }
        Ok(ways)
    }
}

/// Whether bytes have an ASCII capital letter.
fn is_capital_in(bytes: &[u8]) -> bool {
    bytes.iter().any(|byte| byte.is_ascii_uppercase())
}

/// Reads a row.
pub fn row_of(alloc: Global, line: &str) -> Result<Row<'_>, Stop> {
    let fields = match fields_of(line) {
        Some(fields) => fields,
        None => return Err(Stop::Unreadable),
    };
    let making = making_of(alloc, fields.automaton)?;
    let origin = origin_of(alloc, fields.patterns)?;
    let call = call_of(fields.call)?;
    Ok(Row {
        making,
        origin,
        call,
        text: fields.text,
        expected: fields.expected,
    })
}

/// The five fields of a line, without the spaces round them.
#[derive(Clone, Copy)]
struct Fields<'a> {
    automaton: &'a str,
    patterns: &'a str,
    call: &'a str,
    text: &'a str,
    expected: &'a str,
}

fn fields_of(line: &str) -> Option<Fields<'_>> {
    let mut parts = line.split('|');
    let automaton = parts.next()?;
    let patterns = parts.next()?;
    let call = parts.next()?;
    let text = parts.next()?;
    let expected = parts.next()?;
    if parts.next().is_some() {
        return None;
    }
    Some(Fields {
        automaton: automaton.trim_matches(' '),
        patterns: patterns.trim_matches(' '),
        call: call.trim_matches(' '),
        text: text.trim_matches(' '),
        expected: expected.trim_matches(' '),
    })
}

fn units_of(word: Option<&str>) -> Result<Units, Stop> {
    match word {
        Some("bytes") => Ok(Units::Bytes),
        Some("chars") => Ok(Units::Chars),
        Some("both") => Ok(Units::Both),
        _ => Err(Stop::Unreadable),
    }
}

/// The kind that a word names.
pub fn kind_of(word: Option<&str>) -> Result<MatchKind, Stop> {
    match word {
        Some("standard") => Ok(MatchKind::Standard),
        Some("longest") => Ok(MatchKind::LeftmostLongest),
        Some("first") => Ok(MatchKind::LeftmostFirst),
        _ => Err(Stop::Unreadable),
    }
}

/// Reads the first field.
fn making_of(alloc: Global, raw: &str) -> Result<Making, Stop> {
    let mut words = raw.split_ascii_whitespace();
    let mut making = Making {
        units: units_of(words.next())?,
        kind: kind_of(words.next())?,
        is_one: false,
        way: BUILT,
        corpora: Vec::new(alloc),
        change: None,
    };
    for word in words {
        making.take(alloc, word)?;
    }
    if !making.is_one {
        making.corpora.push(standing_documents(alloc)?)?;
    }
    Ok(making)
}

/// The documents of the ways by a corpus.
fn standing_documents(alloc: Global) -> Result<Documents, Stop> {
    let mut documents = Vec::new(alloc);
    for document in DOCUMENTS {
        documents.push(Vec::from_slice(alloc, document.as_bytes())?)?;
    }
    Ok(documents)
}

impl Making {
    /// Takes a word that says how the automaton is made.
    fn take(&mut self, alloc: Global, word: &str) -> Result<(), Stop> {
        if word == "anycase" {
            self.way.folds = true;
            return Ok(());
        }
        self.is_one = true;
        match word {
            "once" => {}
            "nofilter" => self.way.is_filtered = false,
            "read" => self.way.finishes = &[Finish::Read],
            "unchecked" => self.way.finishes = &[Finish::Unchecked],
            "rows" => self.way.finishes = &[Finish::Rows],
            _ => return self.take_setting(alloc, word),
        }
        Ok(())
    }

    /// Takes a word with a value.
    fn take_setting(&mut self, alloc: Global, word: &str) -> Result<(), Stop> {
        match word.split_once('=') {
            Some(("corpus", documents)) => {
                self.way.has_corpus = true;
                self.corpora.push(documents_of(alloc, documents)?)?;
                Ok(())
            }
            Some(("change", change)) => {
                self.change = Some(change_of(change)?);
                Ok(())
            }
            _ => Err(Stop::Unreadable),
        }
    }
}

/// The documents that stand between commas.
fn documents_of(alloc: Global, raw: &str) -> Result<Documents, Stop> {
    let mut documents = Vec::new(alloc);
    if raw.is_empty() {
        return Ok(documents);
    }
    for document in raw.split(',') {
        documents.push(expand_word(alloc, document)?)?;
    }
    Ok(documents)
}

/// A place and a byte with a colon between them.
fn change_of(raw: &str) -> Result<(usize, u8), Stop> {
    match raw.split_once(':') {
        Some((place, byte)) => Ok((number_of(place)?, byte_of(byte)?)),
        None => Err(Stop::Unreadable),
    }
}

/// Reads the second field.
fn origin_of(alloc: Global, raw: &str) -> Result<Origin, Stop> {
    match raw.strip_prefix("form") {
        Some(words) if words.is_empty() || words.starts_with(' ') => {
            Ok(Origin::Form(form_of(alloc, words)?))
        }
        _ => Ok(Origin::Patterns(patterns_of(alloc, raw)?)),
    }
}

/// The patterns that words say.
pub fn patterns_of(alloc: Global, raw: &str) -> Result<Vec<Pattern>, Stop> {
    let mut patterns = Vec::new(alloc);
    for word in raw.split_ascii_whitespace() {
        push_pattern(&mut patterns, word)?;
    }
    Ok(patterns)
}

/// Appends the pattern or the patterns of a word.
fn push_pattern(patterns: &mut Vec<Pattern>, word: &str) -> Result<(), Stop> {
    let alloc = *patterns.allocator();
    if let Some((beginning, range)) = word.split_once('<') {
        return push_patterns(patterns, beginning, range);
    }
    let index = u32::try_from(patterns.len()).unwrap_or(0);
    let (raw, value) = match word.split_once('=') {
        Some((raw, value)) => (raw, small_number_of(value)?),
        None => (word, index),
    };
    patterns.push((expand_word(alloc, raw)?, value))?;
    Ok(())
}

/// Appends the patterns of a beginning and the range of characters that follow it.
fn push_patterns(patterns: &mut Vec<Pattern>, beginning: &str, range: &str) -> Result<(), Stop> {
    let alloc = *patterns.allocator();
    let Some(range) = range.strip_suffix('>') else {
        return Err(Stop::Unreadable);
    };
    let beginning = expand_word(alloc, beginning)?;
    let (first, last) = range_of(alloc, range)?;
    for character in (first..=last).into_iter() {
        let mut pattern = beginning.clone()?;
        push_character(&mut pattern, character)?;
        patterns.push((pattern, 0))?;
    }
    Ok(())
}

/// The search that a word names.
fn search_of(name: &str) -> Result<Search, Stop> {
    match name {
        "overlapping" => Ok(Search::Overlapping),
        "nosuffix" => Ok(Search::NoSuffix),
        "find" => Ok(Search::Find),
        "leftmost" => Ok(Search::Leftmost),
        _ => Err(Stop::Unreadable),
    }
}

/// Reads the third field.
fn call_of(raw: &str) -> Result<Call, Stop> {
    let mut words = raw.split_ascii_whitespace();
    let Some(name) = words.next() else {
        return Err(Stop::Unreadable);
    };
    match (words.next(), words.next(), words.next()) {
        (None, _, _) => single_call_of(name),
        (Some("each"), Some(most), None) => {
            Ok(Call::Search(search_of(name)?, Texts::Each(number_of(most)?)))
        }
        (Some("beginnings"), None, _) => Ok(Call::Search(search_of(name)?, Texts::Beginnings)),
        _ => Err(Stop::Unreadable),
    }
}

/// The call that one word names.
fn single_call_of(name: &str) -> Result<Call, Stop> {
    Ok(match name {
        "depths-overlapping" => Call::Depths(Search::Overlapping),
        "depths-find" => Call::Depths(Search::Find),
        "certain" => Call::Certain,
        "patterns" => Call::Patterns,
        "values" => Call::Values,
        "prefixes" => Call::Prefixes,
        "states" => Call::Number(Count::States),
        "elements" => Call::Number(Count::Elements),
        "count" => Call::Number(Count::Patterns),
        "longest" => Call::Number(Count::Longest),
        "length" => Call::Number(Count::Length),
        "kind" => Call::Kind,
        "summary" => Call::Summary,
        "replaced" => Call::Replaced,
        "bracketed" => Call::Bracketed,
        "written" => Call::Written,
        "word" => Call::Word,
        "read" => Call::Read,
        "beginnings" => Call::Beginnings,
        "changes" => Call::Changes,
        _ => Call::Search(search_of(name)?, Texts::One),
    })
}
