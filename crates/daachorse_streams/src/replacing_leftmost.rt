//! The loop that replaces the leftmost matches in what a source gives.

ghost use Rattle.std.specs.Prelude.{◌≡◌, ◌+◌, ◌++◌, ℕ, true, List, [], IfErr, OnOk, length};
ghost use Rattle.daachorse_model.specs.Folding.{as_read};
ghost use Rattle.daachorse_model.specs.Laws.{Follows};
ghost use Rattle.daachorse_model.specs.Leftmost.{leftmost};
ghost use Rattle.daachorse_model.specs.Units.{size};
ghost use Rattle.daachorse_haystack.specs.Filters.{IsSoundFor};
ghost use Rattle.daachorse_search.specs.Views.{IsLeftmostView};
ghost use Rattle.daachorse_streams.specs.Streams.{IsStreamed, IsStreamedSoFar};
ghost use Rattle.daachorse_streams.specs.Marked.{IsMarkedFor};
ghost use Rattle.daachorse_streams.specs.Replacing.{GoesOut, GoesOutSoFar};
ghost use Rattle.daachorse_streams.specs.Streamed.{IsSameStream, IsSettled};

use crate::appending::write_whole;
use crate::block_source::{BlockSource, BlockUnit};
use crate::leftmost_stream::LeftmostStream;
use crate::replacing_standard::{ROOM, drop_first, put_out_settled};
use crate::stream_marks::StreamMarks;
use daachorse_core::Match;
use daachorse_core::edge_label::EdgeLabel;
use daachorse_prefilter::skipping::Skipping;
use daachorse_search::automaton::Automaton;
use std::alloc::Allocator;
use std::io::{self, Write};

/// The bytes that were taken and have not gone out.
#[derive(Drop)]
struct Held<B: Allocator> {
    /// Where they begin, in bytes from the beginning of what the source gave.
    place: usize,
    bytes: Vec<u8, B>,
}

/// Puts out what the source gives, in place of each leftmost match what `write` appends for it and
/// its bytes, as soon as the match is certain. Passes over what the prefilter passes over of each
/// block that the source's reader has at hand.
///
/// Holds at most as many bytes as the longest pattern has, a block of 64 KiB and a unit, and as many
/// units that it may have to read again. It allocates twice, before it reads.
///
/// Stops at the first error, of an allocation, the source, `out` or `write`.
///
/// # Conditions
/// The automaton is for leftmost searches, the marks are its own, the source may be read, and the
/// prefilter lets pass at each pattern. The closure may be called at any match, any bytes and any
/// output.
pub fn replace_leftmost_skipping<
    V: Copy,
    A: Automaton<V>,
    S: BlockSource<A::Unit>,
    O: Write,
    F: FnMut(Match<V>, &[u8], &mut O) -> io::Result<()> + Drop,
    B: Allocator + Copy,
    C: Allocator,
    D: Allocator,
>(
    automaton: A,
    marks: &StreamMarks<C>,
    folds: bool,
    mut source: S,
    mut skipping: Skipping<'_, D>,
    alloc: B,
    out: &mut O,
    mut write: F,
) -> io::Result<()>
where
    A::Unit: BlockUnit,
    requires kind { IsLeftmostView (A.sees automaton) }
    requires marks { IsMarkedFor A.Unit.width (A.sees automaton) marks.now }
    requires may { S.Source.may_read source [] }
    requires sound { IsSoundFor (A.Unit.passes skipping) (A.sees automaton).content }
    requires callable { F.IsAlwaysCallable write }
    ensures whole { OnOk result (IsStreamed (λ s. s.now) O.contents F.step S.next_gives S.failure A.Unit.unit A.Unit.form
        (λ units. leftmost A.Unit.width (A.sees automaton).content (as_read folds units)) source write out.old out.new) }
    ensures beginning { IfErr result (λ e. IsStreamedSoFar (λ s. s.now) O.contents F.step S.next_gives S.failure A.Unit.unit A.Unit.form
        (λ units. leftmost A.Unit.width (A.sees automaton).content (as_read folds units)) marks.now.longest e source write out.old out.new) }
{
    let longest = marks.longest;
    let mut stream = LeftmostStream::new(alloc, automaton, marks, folds)?;
    let bytes = Vec::with_capacity(alloc, longest.saturating_add(ROOM))?;
    let mut held = Held { place: 0, bytes };
    'units: loop {
        replace_certain(&mut stream, &mut held, out, &mut write)?;
        held.place += put_out_settled(longest, &mut held.bytes, out)?;
        let (behind, some) = source.advance(&mut stream, &mut skipping, &mut held.bytes)?;
        source = behind;
        if !some {
            if let Some(error) = source.into_failure() {
                return Err(error);
            }
            stream.end();
            replace_certain(&mut stream, &mut held, out, &mut write)?;
            return write_whole(out, &held.bytes);
        }
    }
}

/// Puts out the bytes up to each certain match, and then what `write` appends for it.
fn replace_certain<
    V: Copy,
    A: Automaton<V>,
    O: Write,
    F: FnMut(Match<V>, &[u8], &mut O) -> io::Result<()>,
    ALLOC: Allocator,
    B: Allocator,
>(
    stream: &mut LeftmostStream<'_, V, A, ALLOC>,
    held: &mut Held<B>,
    out: &mut O,
    write: &mut F,
) -> io::Result<()>
    requires read { held.old.place + length held.old.bytes.items ≡ size A.Unit.width stream.old.read }
    requires behind { (d : List ℕ) (rest : List (Match V)) → leftmost A.Unit.width (A.sees stream.old.automaton).content (stream.old.read ++ d) ≡ stream.old.given ++ rest → Follows held.old.place rest }
    requires callable { F.IsAlwaysCallable write.old }
    ensures same { IsSameStream stream.old stream.new }
    ensures settled { OnOk result (IsSettled A.Unit.width (A.sees stream.new.automaton).content stream.new stream.new) }
    ensures callable { OnOk result (F.IsAlwaysCallable write.new) }
    ensures whole { OnOk result (GoesOut (λ s. s.now) O.contents F.step stream.old.given stream.new.given held.old.place held.old.bytes.items write.old out.old held.new.place held.new.bytes.items write.new out.new) }
    ensures beginning { IfErr result (λ e. (d : List ℕ) → (stream.old.ended ≡ true → d ≡ [])
        → GoesOutSoFar (λ s. s.now) O.contents F.step e (leftmost A.Unit.width (A.sees stream.old.automaton).content (stream.old.read ++ d)) stream.old.given held.old.place held.old.bytes.items write.old out.old out.new) }
{
    'matches: while let Some(found) = stream.next_certain() {
        let start = found.start - held.place;
        let end = found.end - held.place;
        write_whole(out, &held.bytes[..start])?;
        write(found, &held.bytes[start..end], out)?;
        drop_first(end, &mut held.bytes);
        held.place = found.end;
    }
    Ok(())
}
