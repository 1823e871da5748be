//! The lines of the patterns, each of which may have a value after a tab.

ghost use Rattle.std.specs.Prelude.{◌≡◌, map};
ghost use Rattle.daacgrep_command.specs.Rules.{match_value, pattern_of, value_of};

use crate::lines::first_line;
use daachorse::Match;

/// Returns the pattern of a line: what stands before its first tab, if lines have values.
pub fn pattern_of(has_value: bool, line: &[u8]) -> &[u8]
    ensures { result.now ≡ pattern_of has_value line.now }
{
    if has_value {
        let (len, _) = first_line(b'\t', line);
        &line[..len]
    } else {
        line
    }
}

/// Returns the value of a line: what stands after its first tab.
pub fn value_of(line: &[u8]) -> &[u8]
    ensures { result.now ≡ value_of line.now }
{
    let (_, end) = first_line(b'\t', line);
    &line[end..]
}

/// Returns the value of a match, by the line of its pattern.
pub fn match_value<'r>(rules: &[&'r [u8]], found: Match<u32>) -> &'r [u8]
    ensures { result.now ≡ match_value (map (λ r. r.now) rules.now) found }
{
    let number = found.value as usize;
    let count = rules.len();
    if number < count {
        value_of(rules[number])
    } else {
        &[]
    }
}
