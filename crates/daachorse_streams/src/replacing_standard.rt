//! The loop that replaces the standard matches in what a source gives.

ghost use Rattle.std.specs.Prelude.{◌≡◌, ◌⊎◌, ℕ, ◌+◌, ◌≤◌, [], IfErr, IfOk, IfSome, OnErr, OnOk, drop, length, take, None, Some};
ghost use Rattle.std.specs.Io.KnownBytes.{Appends};
ghost use Rattle.daachorse_model.specs.Folding.{as_read};
ghost use Rattle.daachorse_model.specs.Matches.{standard};
ghost use Rattle.daachorse_search.specs.Views.{IsStandard};
ghost use Rattle.daachorse_streams.specs.Replaced.{AppendsPart};
ghost use Rattle.daachorse_streams.specs.Streams.{EndsWithin, GoesOutSettled, HasNoLonger, IsStreamed, IsStreamedSoFar, Settles, SettlesSoFar};

use crate::appending::write_whole;
use daachorse_core::Match;
use daachorse_core::ascii_fold::AsciiFold;
use daachorse_core::edge_label::EdgeLabel;
use daachorse_search::automaton::Automaton;
use daachorse_search::find::FindWalk;
use daachorse_search::find_stepper::FindStepper;
use daachorse_search::reader::ReadSource;
use daachorse_search::step_unit::StepUnit;
use std::alloc::Allocator;
use std::io::{self, Write};

// How many bytes are held beside those that a later match may need, at most.
const BLOCK: usize = 65536;

// The most bytes of a unit.
const WIDEST: usize = 4;

/// The most bytes that are held beside those that a later match may need: a block and a unit.
pub(crate) const ROOM: usize = BLOCK + WIDEST;

/// Puts out what the source gives, in place of each match what `write` appends for it and its
/// bytes. Holds at most `longest` bytes, a block of 64 KiB and a unit, for which it allocates once.
///
/// Stops at the first error, of the allocation, the source, `out` or `write`.
///
/// # Conditions
/// The automaton is for standard searches, and the source may be read. No pattern takes more bytes
/// than `longest`. The closure may be called at any match, any bytes and any output.
pub fn replace_from<
    V: Copy,
    A: Automaton<V>,
    S: ReadSource<A::Unit>,
    O: Write,
    F: FnMut(Match<V>, &[u8], &mut O) -> io::Result<()> + Drop,
    B: Allocator,
>(
    automaton: A,
    folds: bool,
    mut source: S,
    longest: usize,
    alloc: B,
    out: &mut O,
    mut write: F,
) -> io::Result<()>
where
    A::Unit: StepUnit,
    requires standard { IsStandard (A.sees automaton) }
    requires may { S.Source.may_read source [] }
    requires longest { HasNoLonger A.Unit.width (A.sees automaton).content longest }
    requires callable { F.IsAlwaysCallable write }
    ensures whole { OnOk result (IsStreamed (λ s. s.now) O.contents F.step S.next_gives S.failure A.Unit.unit A.Unit.form
        (λ units. standard A.Unit.width (A.sees automaton).content (as_read folds units)) source write out.old out.new) }
    ensures beginning { IfErr result (λ e. IsStreamedSoFar (λ s. s.now) O.contents F.step S.next_gives S.failure A.Unit.unit A.Unit.form
        (λ units. standard A.Unit.width (A.sees automaton).content (as_read folds units)) longest e source write out.old out.new) }
{
    let walk = FindWalk::new(automaton);
    let mut stepper = FindStepper::new(walk, &[], folds);
    let mut held = Vec::with_capacity(alloc, longest.saturating_add(ROOM))?;
    'units: loop {
        settle(stepper.matches(), longest, &mut held, out, &mut write)?;
        let Some(unit) = source.next() else {
            return finish(source, &held, out);
        };
        // The bytes of a unit are as many as it is wide.
        unit.in_range();
        unit.append_to(&mut held)?;
        stepper.consume(unit);
    }
}

/// Puts out what no later match may need of the bytes held: those up to the match that they end
/// with, and then what `write` appends for it; or, with no match, all that are too many.
fn settle<V: Copy, O: Write, F: FnMut(Match<V>, &[u8], &mut O) -> io::Result<()>, A: Allocator>(
    found: Option<Match<V>>,
    longest: usize,
    held: &mut Vec<u8, A>,
    out: &mut O,
    write: &mut F,
) -> io::Result<()>
    requires within { IfSome found (EndsWithin held.old.items) }
    requires callable { F.IsAlwaysCallable write.old }
    ensures whole { OnOk result (Settles (λ s. s.now) O.contents F.step longest found held.old.items write.old out.old held.new.items write.new out.new) }
    ensures callable { OnOk result (F.IsAlwaysCallable write.new) }
    ensures stops { IfErr result (λ e. SettlesSoFar (λ s. s.now) O.contents F.step e longest found held.old.items write.old out.old out.new) }
{
    let Some(found) = found else {
        put_out_settled(longest, held, out)?;
        return Ok(());
    };
    put_out(held.len() - (found.end - found.start), held, out)?;
    write(found, held, out)?;
    held.clear();
    Ok(())
}

/// Puts out all bytes held but the last `longest`, if they are more than a block, and returns how
/// many went out. Those are held no more.
pub(crate) fn put_out_settled<O: Write, A: Allocator>(
    longest: usize,
    held: &mut Vec<u8, A>,
    out: &mut O,
) -> io::Result<usize>
    ensures whole { IfOk result (λ n. GoesOutSettled O.contents longest n held.old.items out.old held.new.items out.new) }
    ensures part { OnErr result ((n : ℕ) × (n + longest ≤ length held.old.items) × AppendsPart (O.contents out.old) (O.contents out.new) (take n held.old.items)) }
{
    let settled = held.len().saturating_sub(longest);
    if settled <= BLOCK {
        return Ok(0);
    }
    put_out(settled, held, out)?;
    Ok(settled)
}

/// Puts out the first `count` of the bytes held, which then are held no more.
fn put_out<O: Write, A: Allocator>(
    count: usize,
    held: &mut Vec<u8, A>,
    out: &mut O,
) -> io::Result<()>
    requires { count ≤ length held.old.items }
    ensures whole { OnOk result (Appends (O.contents out.old) (O.contents out.new) (take count held.old.items)) }
    ensures held { OnOk result (held.new.items ≡ drop count held.old.items) }
    ensures part { OnErr result (AppendsPart (O.contents out.old) (O.contents out.new) (take count held.old.items)) }
{
    write_whole(out, &held[..count])?;
    drop_first(count, held);
    Ok(())
}

/// Drops the first `count` of the bytes held.
pub(crate) fn drop_first<A: Allocator>(count: usize, held: &mut Vec<u8, A>)
    requires { count ≤ length held.old.items }
    ensures { held.new.items ≡ drop count held.old.items }
{
    held.copy_within(count.., 0);
    held.truncate(held.len() - count);
}

/// Puts out the bytes held, if the source came to its end.
fn finish<U: AsciiFold, S: ReadSource<U>, O: Write>(
    source: S,
    held: &[u8],
    out: &mut O,
) -> io::Result<()>
    ensures whole { OnOk result ((S.failure source ≡ None) × Appends (O.contents out.old) (O.contents out.new) held.now) }
    ensures stops { IfErr result (λ e. ((S.failure source ≡ Some e) × (out.new ≡ out.old))
        ⊎ ((S.failure source ≡ None) × AppendsPart (O.contents out.old) (O.contents out.new) held.now)) }
{
    match source.into_failure() {
        Some(error) => Err(error),
        None => write_whole(out, held),
    }
}
