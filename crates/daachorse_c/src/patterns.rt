//! The patterns that C passes: their joined bytes, and where each ends.

ghost use Rattle.std.specs.Prelude.{◌≡◌, ◌⊎◌, IfErr, IfOk};
ghost use Rattle.daachorse_model.specs.Dictionary.{registrations_of};
ghost use Rattle.daachorse.specs.charwise.Building.{registrations_of_strings};
ghost use Rattle.daachorse_c.specs.Patterns.{ArePatterns, AreTexts, registrations, texts_in};
ghost use Rattle.daachorse_c.specs.declared.refusal.Refusal.TheVariants.{InvalidUtf8, OutOfMemory, WrongPatterns};
ghost use Rattle.daachorse_c.specs.declared.unit.Unit.TheVariants.{Character};

use crate::refusal::Refusal;
use std::alloc::Global;

/// Returns the patterns with their values. Fails if the ends and values do not fit the bytes, or if
/// an allocation fails.
pub(crate) fn patterns_in<'a>(
    alloc: Global,
    bytes: &'a [u8],
    ends: &[usize],
    values: &[u32],
) -> Result<Vec<(&'a [u8], u32), Global>, Refusal>
    ensures right { IfOk result (λ _. ArePatterns bytes.entry.now ends.now values.now) }
    ensures all { IfOk result (λ v. registrations_of v.items ≡ registrations bytes.entry.now 0 ends.now values.now) }
    ensures err { IfErr result (λ r. (r ≡ OutOfMemory) ⊎ ((r ≡ WrongPatterns) × (ArePatterns bytes.entry.now ends.now values.now → ⊥))) }
{
    if ends.len() != values.len() {
        return Err(Refusal::WrongPatterns);
    }
    let mut patterns = Vec::new(alloc);
    let mut start = 0;
    for (i, end) in ends.iter().enumerate() {
        let Some(pattern) = bytes.get(start..*end) else {
            return Err(Refusal::WrongPatterns);
        };
        patterns.push((pattern, values[i]))?;
        start = *end;
    }
    Ok(patterns)
}

/// Returns the patterns as text. Fails if one is no UTF-8, or if an allocation fails.
pub(crate) fn texts_of<'a>(
    alloc: Global,
    patterns: &[(&'a [u8], u32)],
) -> Result<Vec<(&'a str, u32), Global>, Refusal>
    ensures text { IfOk result (λ _. AreTexts Character (registrations_of patterns.entry.now)) }
    ensures all { IfOk result (λ v. registrations_of_strings v.items ≡ texts_in Character (registrations_of patterns.entry.now)) }
    ensures err { IfErr result (λ r. (r ≡ OutOfMemory) ⊎ ((r ≡ InvalidUtf8) × ¬ AreTexts Character (registrations_of patterns.entry.now))) }
{
    let mut texts = Vec::new(alloc);
    for (pattern, value) in patterns {
        match str::from_utf8(pattern) {
            Ok(text) => texts.push((text, *value))?,
            Err(_) => return Err(Refusal::InvalidUtf8),
        }
    }
    Ok(texts)
}
