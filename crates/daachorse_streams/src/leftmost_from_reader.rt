//! Leftmost matches in what a reader gives.

ghost use Rattle.std.specs.Prelude.{◌≡◌, ◌+◌, ◌*◌, ◌≤◌, ℕ, false, List, [], Some, IfSome, length};
ghost use Rattle.daachorse_haystack.specs.Filters.{IsSoundFor};
ghost use Rattle.daachorse_search.specs.BestScans.{HasNoLongerKey};
ghost use Rattle.daachorse_streams.specs.LeftmostReading.{MayReadOn, ReadsOn};
ghost use Rattle.daachorse_streams.specs.Streamed.{LooksAtKeys};

use crate::block_source::{BlockSource, BlockUnit};
use crate::keep::Unkept;
use crate::leftmost_stream::LeftmostStream;
use daachorse_core::Match;
use daachorse_prefilter::skipping::Skipping;
use daachorse_search::automaton::Automaton;
use std::alloc::Allocator;
use std::io;
use std::marker::Model;

/// The leftmost matches in what a reader gives, in order, and then the error at which it ended, if
/// it did.
///
/// Each match is given as soon as it is certain, before another unit is read. So a call of `next`
/// reads past a match that could be longer. Matches that only the end decides are given at the end,
/// and not where the reader fails.
///
/// It passes over what the prefilter passes over of each block that the reader has at hand.
#[derive(Drop)]
pub struct LeftmostFromReader<
    'a,
    V: Copy,
    A: Automaton<V>,
    ALLOC: Allocator,
    S: BlockSource<A::Unit>,
    B: Allocator,
>
where
    A::Unit: BlockUnit,
{
    stream: LeftmostStream<'a, V, A, ALLOC>,
    // `None` after its end.
    source: Option<S>,
    // Whether all was given.
    over: bool,
    skipping: Skipping<'a, B>,
}

impl<'a, V: Copy, A: Automaton<V>, ALLOC: Allocator, S: BlockSource<A::Unit>, B: Allocator> Model
    for LeftmostFromReader<'a, V, A, ALLOC, S, B>
where
    A::Unit: BlockUnit,
{
    ghost use Rattle.std.specs.Prelude.{◌≡◌, false};
    ghost use Rattle.daachorse_haystack.specs.Filters.{IsSoundFor};
    ghost use Rattle.daachorse_streams.specs.LeftmostReading.{LeftmostReading, MayReadOn};

    ghost Value = { LeftmostReading V A S };

    ghost view = { λ s. record { stream = s.stream; source = s.source; over = s.over } };

    ghost invariant = { λ s. (s.over ≡ false → MayReadOn S.Source.may_read s.stream s.source)
        × IsSoundFor (A.Unit.passes s.skipping) (A.sees s.stream.automaton).content };
}

impl<
    'a,
    V: Copy,
    A: Automaton<V>,
    ALLOC: Allocator,
    S: BlockSource<A::Unit>,
    B: Allocator,
> LeftmostFromReader<'a, V, A, ALLOC, S, B>
where
    A::Unit: BlockUnit,
{
    /// A search that has read nothing. It takes no memory.
    ///
    /// # Conditions
    /// The stream was given nothing yet, and has not ended. The prefilter lets pass at each pattern.
    #[inline(always)]
    pub fn new(
        stream: LeftmostStream<'a, V, A, ALLOC>,
        source: S,
        skipping: Skipping<'a, B>,
    ) -> Self
        requires read { stream.read ≡ [] }
        requires open { stream.ended ≡ false }
        requires may { S.Source.may_read source [] }
        requires sound { IsSoundFor (A.Unit.passes skipping) (A.sees stream.automaton).content }
        ensures { result ≡ record { stream = stream.entry; source = Some source; over = false } }
    {
        Self {
            stream,
            source: Some(source),
            over: false,
            skipping,
        }
    }

    /// Does nothing. Its contract bounds the turns.
    #[inline(always)]
    pub fn turns_are_bounded(&self)
        ensures most { (m : ℕ) → HasNoLongerKey (A.sees self.now.stream.automaton).content m
            → self.now.stream.turns ≤ 2 * length self.now.stream.read + 4 * (m * length self.now.stream.given) }
        ensures least { self.now.stream.waiting ≡ false
            → LooksAtKeys (A.sees self.now.stream.automaton) self.now.stream.read self.now.stream.read self.now.stream.turns }
    {
        self.stream.turns_are_bounded();
    }
}

impl<'a, V: Copy, A: Automaton<V>, ALLOC: Allocator, S: BlockSource<A::Unit>, B: Allocator> Iterator
    for LeftmostFromReader<'a, V, A, ALLOC, S, B>
where
    A::Unit: BlockUnit,
{
    ghost use Rattle.daachorse_streams.specs.LeftmostReading.{GivesLeftmost, items_to_give};

    type Item = io::Result<Match<V>>;

    ghost next_gives = { GivesLeftmost A.Unit.width A.sees S.next_gives S.remaining A.Unit.unit S.failure };

    ghost remaining = { items_to_give S.remaining };

    #[inline(always)]
    fn next(&mut self) -> Option<io::Result<Match<V>>> {
        if self.over {
            return None;
        }
        if let Some(source) = self.source.take() {
            let (behind, some) = read_on(&mut self.stream, source, &mut self.skipping);
            if let Some(found) = some {
                self.source = Some(behind);
                return Some(Ok(found));
            }
            if let Some(error) = behind.into_failure() {
                self.over = true;
                return Some(Err(error));
            }
            self.stream.end();
        }
        if let Some(found) = self.stream.next_certain() {
            return Some(Ok(found));
        }
        self.over = true;
        None
    }
}

/// Reads on to the next certain match, or returns `None` at the end of the source. Returns the
/// source behind what it read.
#[inline(always)]
fn read_on<V: Copy, A: Automaton<V>, ALLOC: Allocator, S: BlockSource<A::Unit>, B: Allocator>(
    stream: &mut LeftmostStream<'_, V, A, ALLOC>,
    mut source: S,
    skipping: &mut Skipping<'_, B>,
) -> (S, Option<Match<V>>)
where
    A::Unit: BlockUnit,
    requires may { MayReadOn S.Source.may_read stream.old (Some source) }
    requires sound { IsSoundFor (A.Unit.passes skipping.old) (A.sees stream.old.automaton).content }
    ensures passes { (w : List ℕ) → A.Unit.passes skipping.new w ≡ A.Unit.passes skipping.old w }
    ensures reads { ReadsOn A.Unit.width A.sees S.next_gives S.remaining A.Unit.unit S.failure stream.old source result.1 stream.new result.0 }
    ensures may { IfSome result.1 (λ _. MayReadOn S.Source.may_read stream.new (Some result.0)) }
{
    'units: loop {
        if let Some(found) = stream.next_certain() {
            return (source, Some(found));
        }
        let Ok((behind, some)) = source.advance(stream, skipping, &mut Unkept);
        source = behind;
        if !some {
            return (source, None);
        }
    }
}
