//! Visits and probes of each state in searches over documents, worked out by hand for each kind of
//! trie, with a table in place of the root and without.

ghost use Rattle.std.specs.Prelude.{IfOk, length};
ghost use Rattle.daachorse_build.specs.Builders.{states_of};
ghost use Rattle.daachorse_build.specs.Counts.{HasCounts, LinksLeadBack};

use super::expect;
use super::trie::trie_of;
use daachorse_build::nfa_builder::NfaBuilder;
use daachorse_core::MatchKind;
use daachorse_core::edge_label::EdgeLabel;
use daachorse_core::errors::Result;
use daachorse_placement::build_helper::Profile;
use std::alloc::Global;
use std::test::Fail;

/// A profile of this many states, with all counts 0.
fn empty_profile(alloc: Global, num_states: usize) -> Result<Profile>
    ensures { IfOk result (HasCounts num_states) }
{
    let mut profile = Profile::new(alloc);
    profile.resize(num_states)?;
    Ok(profile)
}

/// Patterns, documents, and the visits and probes of each state. States are numbered as the
/// patterns make them: 0 is the root, 1 is dead, and 2 is the first label of the first pattern.
type Row<'a, L> = (&'a [&'a [L]], &'a [&'a [L]], &'a [usize], &'a [usize]);

/// Rows for one kind of trie, with a table in place of the root or without.
struct Rows<'a, L> {
    kind: MatchKind,
    dense_root: bool,
    rows: &'a [Row<'a, L>],
}

/// Counts searches over documents.
fn count_all<L: EdgeLabel, H: Fn(L) -> bool>(
    builder: &NfaBuilder<L, u32>,
    documents: &[&[L]],
    profile: &mut Profile,
    dense_root: bool,
    has_label: &H,
)
    requires links { LinksLeadBack L.cmp (states_of builder.now) }
    requires counts { HasCounts (length (states_of builder.now)) profile.old }
    requires callable { H.IsAlwaysCallable has_label.now }
{
    for document in documents {
        builder.profile_haystack(document, profile, dense_root, has_label);
    }
}

/// Whether the documents of a row give its counts.
fn holds<L: EdgeLabel, H: Fn(L) -> bool>(
    alloc: Global,
    kind: MatchKind,
    dense_root: bool,
    row: &Row<'_, L>,
    has_label: &H,
) -> Result<bool>
    requires { H.IsAlwaysCallable has_label.now }
{
    let (patterns, documents, visits, probes) = *row;
    let (builder, _order) = trie_of(alloc, kind, patterns)?;
    let mut profile = empty_profile(alloc, builder.states().len())?;
    count_all(&builder, documents, &mut profile, dense_root, has_label);
    Ok(profile.visits.as_slice() == visits && profile.probes.as_slice() == probes)
}

/// Whether each of these rows holds.
fn hold<L: EdgeLabel, H: Fn(L) -> bool>(
    alloc: Global,
    rows: &Rows<'_, L>,
    has_label: &H,
) -> Result<bool>
    requires { H.IsAlwaysCallable has_label.now }
{
    for row in rows.rows {
        if !holds(alloc, rows.kind, rows.dense_root, row, has_label)? {
            return Ok(false);
        }
    }
    Ok(true)
}

/// Searches over bytes, where each byte has a label.
const BYTES: &[Rows<'static, u8>] = &[
    Rows {
        kind: MatchKind::Standard,
        dense_root: true,
        rows: &[
            // The table replaces the root.
            (&[b"ab"], &[b"abx"], &[0, 0, 1, 2], &[0, 0, 0, 0]),
            // A failure link to the root, whose child is in the table.
            (&[b"ab", b"c"], &[b"ac"], &[0, 0, 1, 0, 0], &[0, 0, 1, 0, 0]),
            // A failure link to another state: d is a child of b, not of ab.
            (
                &[b"abc", b"bd"],
                &[b"abd"],
                &[0, 0, 1, 2, 0, 1, 1],
                &[0, 0, 0, 1, 0, 0, 0],
            ),
            // Documents add up, and an empty one counts nothing.
            (
                &[b"ab"],
                &[b"ab", b"", b"abx", b"a"],
                &[0, 0, 2, 3],
                &[0, 0, 0, 0],
            ),
        ],
    },
    Rows {
        kind: MatchKind::Standard,
        dense_root: false,
        rows: &[
            // A failure link to the root.
            (&[b"ab", b"c"], &[b"ac"], &[2, 0, 2, 0, 1], &[0, 0, 1, 0, 0]),
            (&[b"ab"], &[b"abx"], &[2, 0, 2, 2], &[1, 0, 0, 0]),
            // A standard search never restarts.
            (
                &[b"a", b"abc"],
                &[b"abd"],
                &[2, 0, 2, 2, 0],
                &[1, 0, 0, 1, 0],
            ),
            // No edge is looked up at a root without edges.
            (&[], &[b"ab"], &[2, 0], &[0, 0]),
        ],
    },
    Rows {
        kind: MatchKind::LeftmostLongest,
        dense_root: false,
        rows: &[
            // An empty document counts nothing.
            (&[b"ab"], &[b""], &[0, 0, 0, 0], &[0, 0, 0, 0]),
            // The search restarts after a, so b and d are read twice.
            (
                &[b"a", b"abc"],
                &[b"abd"],
                &[3, 0, 2, 2, 0],
                &[2, 0, 0, 1, 0],
            ),
            // The search restarts after the last match, so only x is read twice.
            (&[b"a", b"ab"], &[b"abx"], &[2, 0, 2, 2], &[1, 0, 0, 0]),
            // The document ends before the search restarts.
            (
                &[b"a", b"abc"],
                &[b"ab"],
                &[1, 0, 2, 1, 0],
                &[0, 0, 0, 0, 0],
            ),
            // A failure link of a leftmost search that is not dead.
            (
                &[b"abc", b"bd"],
                &[b"abd"],
                &[1, 0, 2, 2, 0, 1, 1],
                &[0, 0, 0, 1, 0, 0, 0],
            ),
        ],
    },
    Rows {
        kind: MatchKind::LeftmostFirst,
        dense_root: false,
        rows: &[
            // The first pattern ends the search for longer ones.
            (
                &[b"a", b"ab", b"bc"],
                &[b"abc"],
                &[2, 0, 2, 2, 1],
                &[0, 0, 0, 0, 0],
            ),
        ],
    },
];

/// Searches over characters, where `x` has no label.
const CHARACTERS: &[Rows<'static, char>] = &[
    Rows {
        kind: MatchKind::Standard,
        dense_root: false,
        rows: &[
            // A character without a label counts nothing.
            (
                &[&['a', 'b']],
                &[&['a', 'b', 'x']],
                &[1, 0, 2, 1],
                &[0, 0, 0, 0],
            ),
            (
                &[&['世', '界'], &['界']],
                &[&['世', 'x', '界', '世', '世']],
                &[4, 0, 4, 0, 2],
                &[0, 0, 1, 0, 0],
            ),
        ],
    },
    Rows {
        kind: MatchKind::LeftmostLongest,
        dense_root: false,
        rows: &[
            // A character without a label leads to the root, so the search restarts after it.
            (
                &[&['世'], &['世', '界', '世']],
                &[&['世', '界', 'x']],
                &[2, 0, 2, 1, 0],
                &[1, 0, 0, 0, 0],
            ),
        ],
    },
    Rows {
        kind: MatchKind::LeftmostFirst,
        dense_root: false,
        rows: &[(
            &[&['世', '界'], &['世']],
            &[&['世', 'x', '世', '界']],
            &[2, 0, 3, 1],
            &[0, 0, 0, 0],
        )],
    },
];

#[test]
fn reads_of_bytes_are_counted(rt: HostRuntime) -> Result<(), Fail> {
    for rows in BYTES {
        let all_labels = |_: u8| true;
        expect(&rt, hold(rt.alloc(), rows, &all_labels)?, "the counts");
    }
    Ok(())
}

#[test]
fn reads_of_characters_are_counted(rt: HostRuntime) -> Result<(), Fail> {
    for rows in CHARACTERS {
        let has_label = |label: char| label != 'x';
        expect(&rt, hold(rt.alloc(), rows, &has_label)?, "the counts");
    }
    Ok(())
}

/// Whether counts stay at `usize::MAX` once they reach it.
fn stay_at_the_greatest(alloc: Global) -> Result<bool> {
    let (builder, _order) = trie_of(alloc, MatchKind::Standard, &[b"ab".as_slice()])?;
    let mut profile = Profile {
        visits: vec![in alloc; 0, 0, usize::MAX - 1, 0]?,
        probes: vec![in alloc; 0, 0, usize::MAX, 0]?,
    };
    if builder.states().len() != 4 {
        return Ok(false);
    }
    builder.profile_haystack(b"abaaa", &mut profile, true, |_: u8| true);
    Ok(
        profile.visits.as_slice() == [0, 0, usize::MAX, 2].as_slice()
            && profile.probes.as_slice() == [0, 0, usize::MAX, 0].as_slice(),
    )
}

#[test]
fn a_count_stays_at_the_greatest(rt: HostRuntime) -> Result<(), Fail> {
    expect(&rt, stay_at_the_greatest(rt.alloc())?, "the counts");
    Ok(())
}
