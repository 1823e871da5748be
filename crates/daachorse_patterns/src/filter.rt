//! The prefilter of patterns, those too that a kind leaves out.

ghost use Rattle.std.specs.Prelude.{◌≡◌, map, IfOk, IfErr};
ghost use Rattle.daachorse_core.specs.Refusals.{IsOutOfMemory};
ghost use Rattle.daachorse_model.specs.declared.MatchKind.{MatchKind};
ghost use Rattle.daachorse_model.specs.Dictionary.{dictionary};
ghost use Rattle.daachorse_patterns.specs.Filters.{kept_filter};
ghost use Rattle.daachorse_patterns.specs.Patterns.{texts_of};
ghost use Rattle.daachorse_prefilter.specs.Filters.{PassesKeys};

use crate::pattern::Pattern;
use daachorse_core::edge_label::EdgeLabel;
use daachorse_core::errors::Result;
use daachorse_prefilter::prefilter::{Prefilter, PrefilterBuilder};
use std::alloc::Allocator;

/// The prefilter of these patterns, if wanted and worth its run. Fails if an allocation does.
pub fn build_filter<L: EdgeLabel, P: Pattern<L>, V: Copy, A: Allocator>(
    alloc: A,
    wanted: bool,
    patterns: &[(P, V)],
) -> Result<Option<Prefilter<A>>>
    ensures ok { IfOk result (λ filter. filter ≡ kept_filter P.spell wanted (map (λ r. r.0) (texts_of P.units patterns.now))) }
    ensures passes { IfOk result (λ filter. (kind : MatchKind) → PassesKeys P.spell (dictionary kind (texts_of P.units patterns.now)) filter) }
    ensures err { IfErr result IsOutOfMemory }
{
    if !wanted {
        return Ok(None);
    }
    let mut builder = PrefilterBuilder::new(alloc)?;
    for (pattern, _value) in patterns {
        builder.add(pattern.bytes());
    }
    Ok(builder.build())
}
