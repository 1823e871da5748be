//! Whether an array's texts are folded: no ASCII capital letter leads to an element.

ghost use Rattle.std.specs.Prelude.{◌<◌, ◌↔◌, IsTrue, true, false, IfOk, IfErr};
ghost use Rattle.daachorse_core.specs.Refusals.{IsOutOfMemory};
ghost use Rattle.daachorse_array.specs.Arrays.{HasEdges};
ghost use Rattle.daachorse_checker.specs.Folded.{AreFolded, HasFoldedUnits};
ghost use Rattle.daachorse_checker.specs.Ranks.{HasOnePath};

use crate::ranks::Ranks;
use daachorse_array::array::Array;
use daachorse_core::errors::Result;
use std::alloc::Allocator;

/// Whether no unit of a tree is an ASCII capital letter.
///
/// # Errors
/// Out of memory.
pub fn is_folded<E: Array, A: Allocator + Copy>(alloc: A, array: &E) -> Result<bool>
    requires edges { HasEdges (E.sees array.now) }
    requires some { 0 < (E.sees array.now).count }
    requires tree { HasOnePath (E.sees array.now).child }
    ensures ok { IfOk result (λ folded. IsTrue folded ↔ HasFoldedUnits (E.sees array.now).child) }
    ensures err { IfErr result IsOutOfMemory }
{
    let Some(ranks) = Ranks::new(alloc, array)? else {
        return Ok(false);
    };
    Ok(are_folded(&ranks.labels))
}

/// Whether no label but the first, which is no unit, is an ASCII capital letter.
fn are_folded(labels: &[u32]) -> bool
    ensures { IsTrue result ↔ AreFolded labels.now }
{
    for rank in 1..labels.len() {
        let label = labels[rank];
        if label >= u32::from('A') && label <= u32::from('Z') {
            return false;
        }
    }
    true
}
