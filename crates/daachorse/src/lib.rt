//! Many patterns searched at once: the Aho-Corasick algorithm, after the Rust crate daachorse and
//! under its paths, with proved contracts.
//!
//! The algorithm is that of Aho and Corasick (1975); the compact layout of its automata is
//! described by Kanda, Akabe and Oda (Engineering faster double-array Aho-Corasick automata, arXiv
//! 2207.13870).
//!
//! ```rust
//! let words = [b"ab".as_slice(), b"abcd", b"bc", b"cd"];
//! let automaton: DoubleArrayAhoCorasick<u32> = DoubleArrayAhoCorasick::new(rt.alloc(), words)?;
//! for found in automaton.find_overlapping_iter(b"abcd") {
//!     println!(&rt; "{} {} {}", found.start(), found.end(), found.value())?;
//! }
//! ```
//!
//! This prints `0 2 0`, `1 3 2`, `0 4 1` and `2 4 3`: start, end and value. All offsets are in
//! bytes. The contract of each search names the whole list of its matches, by the definitions of
//! `daachorse_model`. The crate `daachorse_uses` has proved callers, and `daactok` is a tokenizer
//! over this crate.
//!
//! # Contents
//!
//! - [`DoubleArrayAhoCorasick`] searches bytes, and [`CharwiseDoubleArrayAhoCorasick`] text, by
//!   characters. Their builders set the kind of matches, the prefilter and the layout.
//! - [`bytewise::Accelerated`] and [`charwise::Accelerated`], made by `accelerate`, have the same
//!   searches, which are faster if the automaton is small.
//! - [`automaton::AhoCorasick`] is each of these four, by what it searches through, and has their
//!   searches, streams and replacements. A function over [`Lends`] takes any of them, and reads
//!   bytes or readers if the unit is [`FromBytes`] or [`FromReader`].
//! - [`in_blocks`] makes a reader of blocks of what gives bytes, to search it.
//! - [`MatchKind`] selects the matches to report, and [`Match`] is one of them.
//! - [`errors`] has the error type of all calls, and [`Result`] is a result with it.
//! - [`bytewise`] and [`charwise`] have the types of searches, steppers and states.
//! - [`Serializable`] is what a value type needs for an automaton to be written.
//! - [`laws`] has what every list of matches promises, for callers who prove something.
//! - The rest, such as [`nfa_builder`] and [`prefilter`], serves builds and contracts.
//!
//! # Cost
//!
//! A search allocates only as it begins, if it is passed an allocator. It looks at no more than two
//! states for each unit of the haystack. A leftmost search adds at most four more for each unit of
//! the longest pattern, at each match. An element of the double array takes 12 bytes over bytes and
//! 16 over characters, and an output 8 bytes and its value.
#![tactic(auto)]

pub mod automaton;
pub mod bytewise;
pub mod charwise;

pub use crate::bytewise::{DoubleArrayAhoCorasick, DoubleArrayAhoCorasickBuilder};
pub use crate::charwise::{CharwiseDoubleArrayAhoCorasick, CharwiseDoubleArrayAhoCorasickBuilder};
pub use daachorse_build::{edge_map, nfa_builder};
pub use daachorse_core::errors::Result;
pub use daachorse_core::{
    DEAD_STATE_IDX, Empty, Match, MatchKind, Output, ROOT_STATE_IDX, counter, errors, turns, utils,
};
pub use daachorse_model::laws;
pub use daachorse_placement::build_helper;
pub use daachorse_prefilter::prefilter;
pub use daachorse_search::reader::in_blocks;
pub use daachorse_serializer::serializer::Serializable;
pub use daachorse_serializer::{intpack, serializer};
pub use daachorse_streams::leftmost_standing::LeftmostStanding;
pub use daachorse_streams::searched::{Lends, Searched};
pub use daachorse_streams::sources::{FromBytes, FromReader};
pub use daachorse_streams::stream_marks::StreamMarks;
