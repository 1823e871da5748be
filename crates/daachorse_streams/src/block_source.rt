//! Sources in whose blocks a leftmost stream can skip.

ghost use Rattle.std.specs.Prelude.{◌≡◌, ℕ, ◌+◌, ◌<◌, ◌≤◌, ◌++◌, ◌^◌, Bool, true, false, List, Some, IfOk, IsUtf8, length};
ghost use Rattle.daachorse_model.specs.Units.{size, byte_width};
ghost use Rattle.daachorse_haystack.specs.Filters.{IsSoundFor};
ghost use Rattle.daachorse_prefilter.specs.Asked.{Asked};
ghost use Rattle.daachorse_streams.specs.Advancing.{Advances, ConsumesFront, SkipsBlock, TakesBlock};
ghost use Rattle.daachorse_streams.specs.LeftmostReading.{MayReadOn};

use crate::keep::Keep;
use crate::leftmost_stream::LeftmostStream;
use daachorse_haystack::filter::Filter;
use daachorse_haystack::haystack::{Bytes, Haystack};
use daachorse_haystack::text::Text;
use daachorse_prefilter::skipping::Skipping;
use daachorse_search::automaton::Automaton;
use daachorse_search::read_chars::ReadChars;
use daachorse_search::reader::{ReadBytes, ReadSource};
use daachorse_search::step_unit::StepUnit;
use std::alloc::Allocator;
use std::io::{self, BufRead, ErrorKind};
use std::str;

/// A unit of which a stream can skip some at the beginning of a block of bytes.
pub trait BlockUnit: StepUnit {
    /// Where a prefilter lets pass, by units.
    ghost passes: { Asked → List ℕ → Bool };

    /// What a unit that a reader gives is.
    ghost is_given: { Self → Type 0 };

    /// Has a stream skip at the beginning of a block, and returns how many bytes it consumed.
    fn skip_front<V: Copy, A: Automaton<V, Unit = Self>, ALLOC: Allocator, B: Allocator>(
        block: &[u8],
        stream: &mut LeftmostStream<'_, V, A, ALLOC>,
        skipping: &mut Skipping<'_, B>,
    ) -> usize
        requires taken { stream.old.waiting ≡ false }
        requires open { stream.old.ended ≡ false }
        requires fits { size Self.EdgeLabel.width stream.old.read + length block.now < 2 ^ 64 }
        requires sound { IsSoundFor (passes skipping.old) (A.sees stream.old.automaton).content }
        ensures passes { (w : List ℕ) → passes skipping.new w ≡ passes skipping.old w }
        ensures front { ConsumesFront A.sees is_given Self.EdgeLabel.width Self.EdgeLabel.unit Self.EdgeLabel.form stream.old block.now result stream.new };
}

/// A source in whose blocks a leftmost stream can skip.
pub trait BlockSource<U: BlockUnit>: ReadSource<U> {
    /// Has a stream skip in what the source's reader has at hand, or else consume one unit, and
    /// has the bytes of what it consumed kept. Returns the source behind them, and whether there
    /// were any: none come where it ended.
    fn advance<V: Copy, A: Automaton<V, Unit = U>, ALLOC: Allocator, B: Allocator, K: Keep>(
        self,
        stream: &mut LeftmostStream<'_, V, A, ALLOC>,
        skipping: &mut Skipping<'_, B>,
        kept: &mut K,
    ) -> Result<(Self, bool), K::Error>
        requires taken { stream.old.waiting ≡ false }
        requires may { MayReadOn Self.Source.may_read stream.old (Some self) }
        requires sound { IsSoundFor (U.passes skipping.old) (A.sees stream.old.automaton).content }
        ensures passes { (w : List ℕ) → U.passes skipping.new w ≡ U.passes skipping.old w }
        ensures advances { IfOk result (λ r. Advances A.sees U.EdgeLabel.width Self.next_gives Self.remaining U.EdgeLabel.unit U.EdgeLabel.form K.keeps stream.old self kept.old r.1 stream.new r.0 kept.new) }
        ensures may { IfOk result (λ r. r.1 ≡ true → MayReadOn Self.Source.may_read stream.new (Some r.0)) };
}

impl BlockUnit for u8 {
    ghost use Rattle.std.specs.Prelude.{⊤};
    ghost use Rattle.daachorse_prefilter.specs.Asked.{lets_pass};
    ghost use Rattle.daachorse_prefilter.specs.Buckets.{may_begin};

    ghost passes = { λ s w. lets_pass (may_begin s.buckets) s.filter w };

    ghost is_given = { λ b. ⊤ };

    #[inline(always)]
    fn skip_front<V: Copy, A: Automaton<V, Unit = u8>, ALLOC: Allocator, B: Allocator>(
        block: &[u8],
        stream: &mut LeftmostStream<'_, V, A, ALLOC>,
        skipping: &mut Skipping<'_, B>,
    ) -> usize {
        stream.skip(skipping, Bytes::new(block, stream.folds()))
    }
}

impl BlockUnit for char {
    ghost use Rattle.std.specs.Prelude.{encode_utf8_all};
    ghost use Rattle.std.specs.Char.{IsScalar};
    ghost use Rattle.daachorse_prefilter.specs.Asked.{lets_pass};
    ghost use Rattle.daachorse_prefilter.specs.Buckets.{may_begin};

    ghost passes = { λ s w. lets_pass (may_begin s.buckets) s.filter (encode_utf8_all w) };

    ghost is_given = { IsScalar };

    #[inline(always)]
    fn skip_front<V: Copy, A: Automaton<V, Unit = char>, ALLOC: Allocator, B: Allocator>(
        block: &[u8],
        stream: &mut LeftmostStream<'_, V, A, ALLOC>,
        skipping: &mut Skipping<'_, B>,
    ) -> usize {
        let folds = stream.folds();
        // No more bytes are read as text than the prefilter passes over.
        let count = pass_over(skipping, Bytes::new(block, folds));
        let text = text_at_front(&block[..count]);
        let units = Text::new(text, folds);
        stream.skip(skipping, units)
    }
}

/// How many bytes a filter passes over in a block: none, if it is closed.
#[inline(always)]
fn pass_over<H: Haystack<u8>, F: Filter<u8, H>>(filter: &mut F, mut block: H) -> usize
    ensures passes { (w : List ℕ) → F.passes filter.new w ≡ F.passes filter.old w }
    ensures within { result ≤ size byte_width (H.rest block) }
{
    if !filter.is_open() {
        return 0;
    }
    let all = block.left();
    filter.skip(&mut block);
    all - block.left()
}

/// The beginning of a block that is text.
#[inline(always)]
fn text_at_front(block: &[u8]) -> &str
    ensures text { IsUtf8 result.now }
    ensures front { (rest : List ℕ) × (block.now ≡ result.now ++ rest) }
{
    match str::from_utf8(block) {
        Ok(text) => text,
        // What comes before the first fault is UTF-8.
        Err(error) => unsafe { str::from_utf8_unchecked(&block[..error.valid_up_to()]) },
    }
}

/// What was taken of what a reader has at hand.
enum Taken {
    /// So many bytes.
    Block(usize),
    /// Nothing, since the stream skips none here, or the reader was interrupted.
    Nothing,
    /// Nothing, since the reader has ended, with an error or with none.
    Ended(Option<io::Error>),
}

/// Has a stream skip, of what a reader has at hand, at most so many bytes, and has them kept.
#[inline(always)]
fn take_block<
    U: BlockUnit,
    R: BufRead,
    V: Copy,
    A: Automaton<V, Unit = U>,
    ALLOC: Allocator,
    B: Allocator,
    K: Keep,
>(
    reader: &mut R,
    most: usize,
    stream: &mut LeftmostStream<'_, V, A, ALLOC>,
    skipping: &mut Skipping<'_, B>,
    kept: &mut K,
) -> Result<Taken, K::Error>
    requires taken { stream.old.waiting ≡ false }
    requires open { stream.old.ended ≡ false }
    requires fits { size U.EdgeLabel.width stream.old.read + most < 2 ^ 64 }
    requires sound { IsSoundFor (U.passes skipping.old) (A.sees stream.old.automaton).content }
    ensures passes { (w : List ℕ) → U.passes skipping.new w ≡ U.passes skipping.old w }
    ensures ok { IfOk result (λ r. TakesBlock A.sees U.is_given U.EdgeLabel.width U.EdgeLabel.unit U.EdgeLabel.form K.keeps most (R.remaining reader.old) stream.old kept.old r (R.remaining reader.new) stream.new kept.new) }
{
    let shown = match reader.fill_buf() {
        Ok(shown) => shown,
        Err(error) if error.kind() == ErrorKind::Interrupted => return Ok(Taken::Nothing),
        Err(error) => return Ok(Taken::Ended(Some(error))),
    };
    if shown.is_empty() {
        return Ok(Taken::Ended(None));
    }
    let block = &shown[..shown.len().min(most)];
    let count = U::skip_front(block, stream, skipping);
    if count == 0 {
        return Ok(Taken::Nothing);
    }
    kept.keep(&block[..count])?;
    reader.consume(count);
    Ok(Taken::Block(count))
}

/// Has a stream skip in what a reader has at hand, as far as there is room, and has the bytes of
/// what it consumed kept. Returns what the reader gives from there on, and whether there were any
/// bytes: none come where it has ended. It can't say where it took nothing.
#[inline(always)]
fn skip_block<
    U: BlockUnit,
    R: BufRead + Drop,
    V: Copy,
    A: Automaton<V, Unit = U>,
    ALLOC: Allocator,
    B: Allocator,
    K: Keep,
>(
    source: ReadBytes<R>,
    stream: &mut LeftmostStream<'_, V, A, ALLOC>,
    skipping: &mut Skipping<'_, B>,
    kept: &mut K,
) -> Result<(ReadBytes<R>, Option<bool>), K::Error>
    requires taken { stream.old.waiting ≡ false }
    requires open { stream.old.ended ≡ false }
    requires fits { size U.EdgeLabel.width stream.old.read + source.left < 2 ^ 64 }
    requires sound { IsSoundFor (U.passes skipping.old) (A.sees stream.old.automaton).content }
    ensures passes { (w : List ℕ) → U.passes skipping.new w ≡ U.passes skipping.old w }
    ensures ok { IfOk result (λ r. SkipsBlock A.sees U.is_given U.EdgeLabel.width U.EdgeLabel.unit U.EdgeLabel.form K.keeps R.remaining stream.old source kept.old r.1 stream.new r.0 kept.new) }
{
    let (mut reader, left) = source.into_parts();
    let most = kept.room().min(left as usize);
    match take_block(&mut reader, most, stream, skipping, kept)? {
        Taken::Block(count) => {
            let left = left - count as u64;
            Ok((ReadBytes::from_parts(reader, left), Some(true)))
        }
        Taken::Nothing => Ok((ReadBytes::from_parts(reader, left), None)),
        Taken::Ended(failure) => Ok((ReadBytes::ended(reader, left, failure), Some(false))),
    }
}

/// Has a stream consume the next unit of a source, and has its bytes kept.
#[inline(always)]
fn consume_one<
    U: StepUnit,
    S: ReadSource<U>,
    V: Copy,
    A: Automaton<V, Unit = U>,
    ALLOC: Allocator,
    K: Keep,
>(
    mut source: S,
    stream: &mut LeftmostStream<'_, V, A, ALLOC>,
    kept: &mut K,
) -> Result<(S, bool), K::Error>
    requires taken { stream.old.waiting ≡ false }
    requires may { MayReadOn S.Source.may_read stream.old (Some source) }
    ensures advances { IfOk result (λ r. Advances A.sees U.EdgeLabel.width S.next_gives S.remaining U.EdgeLabel.unit U.EdgeLabel.form K.keeps stream.old source kept.old r.1 stream.new r.0 kept.new) }
    ensures may { IfOk result (λ r. r.1 ≡ true → MayReadOn S.Source.may_read stream.new (Some r.0)) }
{
    let Some(unit) = source.next() else {
        return Ok((source, false));
    };
    // The bytes of a unit are as many as it is wide.
    unit.in_range();
    kept.keep_unit(unit)?;
    stream.consume(unit);
    Ok((source, true))
}

impl<R: BufRead> BlockSource<u8> for ReadBytes<R>
where
    R: Drop,
{
    #[inline(always)]
    fn advance<V: Copy, A: Automaton<V, Unit = u8>, ALLOC: Allocator, B: Allocator, K: Keep>(
        self,
        stream: &mut LeftmostStream<'_, V, A, ALLOC>,
        skipping: &mut Skipping<'_, B>,
        kept: &mut K,
    ) -> Result<(Self, bool), K::Error> {
        if !stream.asks::<Bytes<'_>, Skipping<'_, B>>(skipping) {
            return consume_one(self, stream, kept);
        }
        let (behind, taken) = skip_block(self, stream, skipping, kept)?;
        match taken {
            Some(some) => Ok((behind, some)),
            None => consume_one(behind, stream, kept),
        }
    }
}

impl<R: BufRead> BlockSource<char> for ReadChars<R>
where
    R: Drop,
{
    #[inline(always)]
    fn advance<V: Copy, A: Automaton<V, Unit = char>, ALLOC: Allocator, B: Allocator, K: Keep>(
        self,
        stream: &mut LeftmostStream<'_, V, A, ALLOC>,
        skipping: &mut Skipping<'_, B>,
        kept: &mut K,
    ) -> Result<(Self, bool), K::Error> {
        if !stream.asks::<Text<'_>, Skipping<'_, B>>(skipping) {
            return consume_one(self, stream, kept);
        }
        let (behind, taken) = skip_block(self.into_bytes(), stream, skipping, kept)?;
        match taken {
            Some(some) => Ok((ReadChars::from_bytes(behind), some)),
            None => consume_one(ReadChars::from_bytes(behind), stream, kept),
        }
    }
}
