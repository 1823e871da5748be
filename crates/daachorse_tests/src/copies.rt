//! Copies of automata and automata that are built alike are equal, and others are told apart.

use crate::automata::{
    Automaton, BUILT, Bytewise, Charwise, FIRST, LONGEST, PATVALS, Patvals, Plainly, Way,
};
use crate::expect_over;
use daachorse::Result;
use std::alloc::Global;
use std::hash::{DefaultHasher, Hash, Hasher};
use std::process::Abort;
use std::test::Fail;

fn hash_of<T: Hash>(value: &T) -> u64 {
    let mut state = DefaultHasher::new();
    value.hash(&mut state);
    state.finish()
}

/// Whether two automata are equal, and have the same hash.
fn are_same<S: Automaton>(one: &S, other: &S) -> bool {
    one == other && hash_of(one) == hash_of(other)
}

/// Whether two automata are unequal, and have different hashes.
fn are_others<S: Automaton>(one: &S, other: &S) -> bool {
    one != other && hash_of(one) != hash_of(other)
}

/// Whether an automaton equals its clone and what each read returns.
fn is_copied<S: Automaton>(alloc: S::Alloc, way: Way) -> Result<bool> {
    let automaton = S::built(alloc, way, &PATVALS)?;
    Ok(
        are_same(&automaton, &automaton.cloned()?)
            && are_same(&automaton, &automaton.read_back(alloc, true)?)
            && are_same(&automaton, &automaton.read_back(alloc, false)?),
    )
}

/// Whether an automaton with cached depths differs from one without, and equals its clone.
fn is_other_cached<S: Automaton>(alloc: S::Alloc) -> Result<bool> {
    let automaton = S::built(alloc, BUILT, &PATVALS)?;
    let mut cached = automaton.cloned()?;
    cached.cache()?;
    Ok(are_others(&automaton, &cached) && are_same(&cached, &cached.cloned()?))
}

/// The ways in which automata that are copied are built.
const COPIED: [(&str, Way); 3] = [
    ("copies for the standard searches", BUILT),
    ("copies for the longest", LONGEST),
    ("copies for the first", FIRST),
];

/// The calls that build from patterns, or patterns with values, alone.
const BUILT_ALIKE: [(&str, Plainly); 3] = [
    ("new", Plainly::New),
    ("with_values", Plainly::WithValues),
    ("build", Plainly::Build),
];

/// The options of [`BUILT`], without a prefilter.
const UNFILTERED: Way = Way {
    filtered: false,
    ..BUILT
};

/// The options of [`BUILT`], without regard to case.
const FOLDING: Way = Way {
    folds: true,
    ..BUILT
};

/// `PATVALS` in another order.
const REORDERED: Patvals = &[("ab", 2), ("bcd", 0), ("abc", 1)];

/// `PATVALS` with another value.
const REVALUED: Patvals = &[("bcd", 0), ("abc", 1), ("ab", 3)];

/// What a row shows, a way, patterns, and whether they make the automaton that is built of `PATVALS`
/// with the default options.
const ROWS: [(&str, Way, Patvals, bool); 6] = [
    ("patterns in another order", BUILT, REORDERED, true),
    ("another value", BUILT, REVALUED, false),
    ("no filter", UNFILTERED, &PATVALS, false),
    ("no regard to case", FOLDING, &PATVALS, false),
    ("the longest", LONGEST, &PATVALS, false),
    ("the first", FIRST, &PATVALS, false),
];

/// Whether a row holds for an automaton of `PATVALS`.
fn holds<S: Automaton>(
    alloc: S::Alloc,
    automaton: &S,
    row: &(&str, Way, Patvals, bool),
) -> Result<bool> {
    let (_, way, patvals, is_same) = *row;
    let other = S::built(alloc, way, patvals)?;
    Ok(if is_same {
        are_same(automaton, &other)
    } else {
        are_others(automaton, &other)
    })
}

/// Asserts that copies and like builds are equal, and that others are not.
fn are_told_apart<S: Automaton<Alloc = Global>>(
    rt: &impl Abort,
    alloc: Global,
    units: &str,
) -> Result<()> {
    let automaton = S::built(alloc, BUILT, &PATVALS)?;
    for (shows, way) in COPIED {
        expect_over(rt, is_copied::<S>(alloc, way)?, shows, units);
    }
    for (shows, how) in BUILT_ALIKE {
        let is_alike = are_same(&automaton, &S::built_plainly(alloc, how)?);
        expect_over(rt, is_alike, shows, units);
    }
    for row in &ROWS {
        expect_over(rt, holds(alloc, &automaton, row)?, row.0, units);
    }
    expect_over(rt, is_other_cached::<S>(alloc)?, "cached depths", units);
    Ok(())
}

#[test]
fn automata_are_told_apart(rt: HostRuntime) -> Result<(), Fail> {
    are_told_apart::<Bytewise>(&rt, rt.alloc(), "bytes")?;
    are_told_apart::<Charwise>(&rt, rt.alloc(), "characters")?;
    Ok(())
}
