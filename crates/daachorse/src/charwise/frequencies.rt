//! How often each character occurs in patterns.

ghost use Rattle.std.specs.Prelude.{◌≡◌, ◌+◌, ◌≤◌, ℕ, List, length, map, min, slice_index, IsTrue, IfOk, IfErr, OnOk};
ghost use Rattle.std.specs.List.{AllByRecursion};
ghost use Rattle.std.specs.Str.{all_scalars, chars};
ghost use Rattle.daachorse_core.specs.Refusals.{IsOutOfMemory};
ghost use Rattle.daachorse.specs.charwise.Frequencies.{AreFrequencies, HasCounted, frequency};

use daachorse_core::errors::Result;
use std::alloc::Allocator;

/// How often each character occurs in the patterns, by code point. Counts saturate.
pub(crate) fn frequencies<V: Copy, A: Allocator>(
    alloc: A,
    patterns: &[(&str, V)],
) -> Result<Vec<u32, A>>
    ensures ok { IfOk result (λ freqs. AreFrequencies (map (λ p. chars p.0.now) patterns.now) freqs.items) }
    ensures texts { OnOk result (AllByRecursion (λ p. IsTrue (all_scalars (chars p.0.now))) patterns.now) }
    ensures err { IfErr result IsOutOfMemory }
{
    let mut freqs = Vec::new(alloc);
    for (pattern, _) in patterns {
        count_chars(&mut freqs, pattern)?;
    }
    Ok(freqs)
}

fn count_chars<A: Allocator>(freqs: &mut Vec<u32, A>, text: &str) -> Result<()>
    requires { length freqs.old.items ≤ 1114112 }
    ensures ok { OnOk result (HasCounted freqs.old.items (chars text.now) freqs.new.items) }
    ensures text { OnOk result (IsTrue (all_scalars (chars text.now))) }
    ensures err { IfErr result IsOutOfMemory }
{
    for c in text.chars() {
        let index = c as usize;
        if index >= freqs.len() {
            freqs.resize(index + 1, 0)?;
        }
        freqs[index] = freqs[index].saturating_add(1);
    }
    Ok(())
}
