//! Runs out of memory at each allocation of each call: it returns that error and changes nothing.

use crate::automata::{
    Automaton, BUILT, Bytewise, Charwise, FIRST, LISTED, LONGEST, PATVALS, Patvals, Plainly, Way,
    or_refused,
};
use crate::expect_over;
use daachorse::Result;
use daachorse::errors::DaachorseError;
use refusing::{Answer, Call, Refusing, each_request};
use std::alloc::Global;
use std::io;

/// A call that allocates, after the build that it needs.
#[derive(Clone, Copy)]
enum Request {
    Plainly(Plainly),
    Built,
    ManyCharacters,
    /// A write, and a read that checks or does not.
    Read(bool),
    Clone,
    CacheDepths,
    Accelerate,
    Replace,
    ReplaceWith,
    ReplaceFromReader,
    SearchReader,
}

/// The options of [`BUILT`], with a corpus.
const BY_CORPUS: Way = Way {
    by_corpus: true,
    ..BUILT
};

/// The calls, each with its name and a way to build.
const REQUESTS: [(&str, Way, Request); 22] = [
    ("new", BUILT, Request::Plainly(Plainly::New)),
    ("with_values", BUILT, Request::Plainly(Plainly::WithValues)),
    ("build", BUILT, Request::Plainly(Plainly::Build)),
    (
        "build by a corpus",
        BUILT,
        Request::Plainly(Plainly::BuildByCorpus),
    ),
    ("build_with_values", BUILT, Request::Built),
    ("build_with_values by a corpus", BY_CORPUS, Request::Built),
    (
        "a build with many characters",
        BUILT,
        Request::ManyCharacters,
    ),
    (
        "a build for the longest with many characters",
        LONGEST,
        Request::ManyCharacters,
    ),
    ("a write and a read", BUILT, Request::Read(true)),
    (
        "a write and a read that does not check",
        BUILT,
        Request::Read(false),
    ),
    ("a read for the longest", LONGEST, Request::Read(true)),
    (
        "a read for the longest that does not check",
        LONGEST,
        Request::Read(false),
    ),
    ("a read for the first", FIRST, Request::Read(true)),
    (
        "a read for the first that does not check",
        FIRST,
        Request::Read(false),
    ),
    ("a clone", BUILT, Request::Clone),
    ("cache_depths", BUILT, Request::CacheDepths),
    ("accelerate", BUILT, Request::Accelerate),
    ("replace_all", BUILT, Request::Replace),
    ("replace_all_with", BUILT, Request::ReplaceWith),
    ("replace_all_from_reader", BUILT, Request::ReplaceFromReader),
    (
        "find_overlapping_iter_from_reader",
        BUILT,
        Request::SearchReader,
    ),
    (
        "leftmost_stream_from_reader",
        LONGEST,
        Request::SearchReader,
    ),
];

/// Whether a call with this outcome was right, refused or wrong.
fn answer_of(outcome: &Result<bool>) -> Answer {
    match outcome {
        Ok(true) => Answer::Right,
        Err(DaachorseError::OutOfMemory(_)) => Answer::Refused,
        _ => Answer::Wrong,
    }
}

const MANY_CHARACTERS: Patvals = &[
    ("世界", 0),
    ("全世", 1),
    ("世", 2),
    ("いろはにほへとちりぬるをわかよたれそつねならむ", 3),
];

/// Whether depths are cached. On an error the automaton must be unchanged.
fn caches<S: Automaton>(automaton: &mut S) -> Result<bool> {
    let before = automaton.cloned()?;
    let outcome = automaton.cache();
    let is_same = *automaton == before;
    match outcome {
        Ok(()) => Ok(!is_same),
        Err(error) if is_same => Err(error),
        Err(_) => Ok(false),
    }
}

const TEXT: &str = "xabcbcd";

/// Whether a replacement of what a reader gives writes what it should.
fn replaces_read<S: Automaton>(alloc: S::Alloc, automaton: &S) -> io::Result<bool> {
    let mut out = Vec::new(alloc);
    automaton.brackets(alloc, TEXT.as_bytes(), &mut out)?;
    Ok(out.as_slice() == b"x[ab]c[bcd]".as_slice())
}

/// Whether a search of what a reader gives finds what it should.
fn searches_read<S: Automaton>(alloc: S::Alloc, automaton: &S, way: Way) -> io::Result<bool> {
    let reader = TEXT.as_bytes();
    if way.kind.is_standard() {
        let expected = [(1, 3, 2), (1, 4, 1), (4, 7, 0)];
        return automaton.reads(alloc, reader, &expected, None);
    }
    automaton.reads_leftmost(alloc, reader, &[(1, 4, 1), (4, 7, 0)], None)
}

/// Whether a call on an automaton of `PATVALS` that is built in this way returns what it should.
fn gives_of_built<S: Automaton>(alloc: S::Alloc, way: Way, request: Request) -> Result<bool> {
    let mut automaton = S::built(alloc, way, &PATVALS)?;
    match request {
        Request::Read(is_checked) => { Ok(automaton.read_back(alloc, is_checked)? == automaton) }
        Request::Clone => Ok(automaton.cloned()? == automaton),
        Request::CacheDepths => caches(&mut automaton),
        Request::Accelerate => automaton.accelerates(alloc),
        Request::Replace => {
            let replaced = automaton.replaced(alloc, TEXT)?;
            Ok(replaced.as_slice() == b"xabc-".as_slice())
        }
        Request::ReplaceWith => {
            let bracketed = automaton.bracketed(alloc, TEXT)?;
            Ok(bracketed.as_slice() == b"x[ab]c[bcd]".as_slice())
        }
        Request::ReplaceFromReader => or_refused(replaces_read(alloc, &automaton)),
        Request::SearchReader => or_refused(searches_read(alloc, &automaton, way)),
        _ => automaton.lists(alloc, LISTED),
    }
}

/// Whether a call returns what it should.
fn gives<S: Automaton>(alloc: S::Alloc, way: Way, request: Request) -> Result<bool> {
    match request {
        Request::Plainly(how) => S::built_plainly(alloc, how)?.lists(alloc, LISTED),
        Request::ManyCharacters => {
            let automaton = S::built(alloc, way, MANY_CHARACTERS)?;
            Ok(automaton.cloned()? == automaton)
        }
        _ => gives_of_built::<S>(alloc, way, request),
    }
}

/// A call over bytes, after a build in this way.
#[derive(Clone, Copy)]
struct OverBytes {
    way: Way,
    request: Request,
}

impl Call for OverBytes {
    fn answer(&self, heap: &Refusing<Global>) -> Answer {
        answer_of(&gives::<Bytewise<&Refusing<Global>>>(heap, self.way, self.request))
    }
}

/// A call over characters, after a build in this way.
#[derive(Clone, Copy)]
struct OverCharacters {
    way: Way,
    request: Request,
}

impl Call for OverCharacters {
    fn answer(&self, heap: &Refusing<Global>) -> Answer {
        answer_of(&gives::<Charwise<&Refusing<Global>>>(heap, self.way, self.request))
    }
}

#[test]
fn each_request_may_be_refused(rt: HostRuntime) {
    for (shows, way, request) in REQUESTS {
        let holds = each_request(rt.alloc(), &OverBytes { way, request });
        expect_over(&rt, holds, shows, "bytes");
        let holds = each_request(rt.alloc(), &OverCharacters { way, request });
        expect_over(&rt, holds, shows, "characters");
    }
}
