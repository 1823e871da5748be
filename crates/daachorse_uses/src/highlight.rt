//! Which bytes of a stream lie in a match.

ghost use Rattle.std.specs.Prelude.{◌≡◌, ◌<◌, ℕ, true, false, length, slice_index_or, IfOk, if◌then◌else◌};
ghost use Rattle.std.specs.Iterator.{IsFinite};
ghost use Rattle.std.specs.Iterator.Runs.{WholeRun};
ghost use Rattle.daachorse_model.specs.declared.MatchKind.TheVariants.{Standard};
ghost use Rattle.daachorse_model.specs.Folding.{as_read};
ghost use Rattle.daachorse_model.specs.Matches.{standard};
ghost use Rattle.daachorse_model.specs.Units.{byte_width};
ghost use Rattle.daachorse.specs.bytewise.Automata.{dictionary_of, kind_of};
ghost use Rattle.daachorse_uses.specs.Covered.{AreMarks, FitsIn, is_within};

use daachorse::{DoubleArrayAhoCorasick, Match};
use std::alloc::{AllocError, Allocator};

/// Returns for each byte of a stream whether it lies in a match of the standard search. The stream
/// is read once, and only its marks are kept. Fails if an allocation does.
pub fn highlight<S: Iterator<Item = u8> + Drop, A: Allocator>(
    alloc: A,
    words: &DoubleArrayAhoCorasick<u32>,
    stream: S,
) -> Result<Vec<bool, A>, AllocError>
    requires standard { kind_of words.now ≡ Standard }
    requires can { S.can_next stream }
    requires ends { IsFinite (S.remaining stream) }
    ensures { IfOk result (λ marks. WholeRun S.next_gives stream (λ p. AreMarks (standard byte_width (dictionary_of words.now) (as_read words.now.folds p.items)) (length p.items) marks.items)) }
{
    let mut stepper = words.find_stepper();
    let mut marks = Vec::new(alloc);
    for byte in stream {
        marks.push(false)?;
        stepper.consume(byte);
        if let Some(found) = stepper.matches() {
            mark(&mut marks, found);
        }
    }
    Ok(marks)
}

fn mark(marks: &mut [bool], found: Match<u32>)
    requires { FitsIn (length marks.old) found }
    ensures { (i : ℕ) → i < length marks.old
        → slice_index_or marks.new i false ≡ (if is_within found.start found.end i then true else slice_index_or marks.old i false) }
{
    marks[found.start..found.end].fill(true);
}
