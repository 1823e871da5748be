//! The search of one file.

ghost use Rattle.std.specs.Prelude.{◌≡◌, ◌≤◌, [], if◌then◌else◌, ◌+◌, IfOk, length, slice_range};
ghost use Rattle.daacgrep_command.specs.Fields.{entry};
ghost use Rattle.daacgrep_command.specs.Jobs.{wanted_of};
ghost use Rattle.daacgrep_command.specs.Lines.{lines_of_part, seen};
ghost use Rattle.daacgrep_command.specs.Printed.{end_of, line_text, lines_text, match_text, matches_text, selected_count};
ghost use Rattle.daacgrep_command.specs.Rules.{first_value, match_value};
ghost use Rattle.daacgrep_command.specs.Sending.{IsWritten};
ghost use Rattle.daacgrep_command.specs.Sought.{matches_in};

use crate::line::{Line, Part};
use crate::output::Output;
use crate::printing::{Labels, write_count, write_entry, write_marked};
use crate::rule::match_value;
use crate::searcher::Searcher;
use crate::selected_lines::SelectedLines;
use daacfind_command::sink::SinkError;
use daachorse::Match;
use std::alloc::Allocator;

/// What is written of a file.
#[derive(Clone, Copy, Debug, PartialEq, Eq)]
pub enum Report {
    /// Its selected lines.
    Lines,
    /// The nonempty matches in these.
    Matches,
    /// The number of these.
    Count,
    /// Its name, if a line is selected.
    Name,
    /// Nothing.
    Nothing,
}

/// How files are searched.
#[derive(Clone, Copy, Debug, PartialEq, Eq)]
pub struct Task {
    /// What is written.
    pub report: Report,
    /// Whether the lines without a match are selected, and not those with one.
    pub inverts: bool,
    /// What stands in front of a line, or with [`Report::Matches`] of a match.
    pub labels: Labels,
}

/// What files are searched for, and how.
#[derive(Drop)]
pub struct Job<'j, A: Allocator> {
    /// What finds the matches.
    pub searcher: &'j Searcher<A>,
    /// The lines of the patterns.
    pub rules: &'j [&'j [u8]],
    /// How the files are searched.
    pub task: Task,
}

impl<'j, A: Allocator + Copy> Job<'j, A> {
    /// Writes each selected line of a part, or its matches, if that is asked, and returns how many
    /// lines are selected.
    pub fn write_selected<S: Output>(
        &self,
        name: &str,
        part: Part,
        out: &mut S,
    ) -> Result<usize, SinkError>
        ensures written { IsWritten (S.sees out.old) (S.sees out.new) result
            (lines_text (wanted_of self.now) name.now (lines_of_part self.now.task.labels.end part.entry)) }
        ensures selected { IfOk result (λ n. n ≡ selected_count (wanted_of self.now).sought self.now.task.inverts
            (lines_of_part self.now.task.labels.end part.entry)) }
        ensures few { IfOk result (λ n. n ≤ length part.entry.bytes.now) }
    {
        let labels = self.task.labels;
        let mut count = 0usize;
        for line in SelectedLines::new(
            self.searcher,
            self.task.inverts,
            labels.numbers,
            labels.end,
            part,
        ) {
            self.write_line(name, line, out)?;
            count += 1;
        }
        Ok(count)
    }

    fn write_line<S: Output>(&self, name: &str, line: Line, out: &mut S) -> Result<(), SinkError>
        ensures { IsWritten (S.sees out.old) (S.sees out.new) result
            (line_text (wanted_of self.now) name.now self.now.task.report (seen line.entry)) }
    {
        match self.task.report {
            Report::Lines => self.write_whole_line(name, line, out),
            Report::Matches => self.write_matches(name, line, out),
            Report::Count | Report::Name | Report::Nothing => Ok(()),
        }
    }

    // Writes a line after the value of its first match.
    fn write_whole_line<S: Output>(
        &self,
        name: &str,
        line: Line,
        out: &mut S,
    ) -> Result<(), SinkError>
        ensures { IsWritten (S.sees out.old) (S.sees out.new) result
            (entry self.now.task.labels name.now line.entry.number line.entry.start
            (first_value (wanted_of self.now).rules (matches_in (wanted_of self.now).sought line.entry.bytes.now)) line.entry.bytes.now) }
    {
        let value = self.line_value(line.bytes);
        write_entry(
            self.task.labels,
            name,
            line.number,
            line.start,
            value,
            line.bytes,
            out,
        )
    }

    // The value of a line, if it is wanted.
    fn line_value(&self, line: &[u8]) -> &'j [u8]
        ensures { result.now ≡ (if self.now.task.labels.values then first_value (wanted_of self.now).rules
            (matches_in (wanted_of self.now).sought line.now) else []) }
    {
        if self.task.labels.values {
            self.first_value(line)
        } else {
            &[]
        }
    }

    // The value of the first match in a line.
    fn first_value(&self, line: &[u8]) -> &'j [u8]
        ensures { result.now ≡ first_value (wanted_of self.now).rules (matches_in (wanted_of self.now).sought line.now) }
    {
        match self.searcher.matches(line).next() {
            Some(found) => match_value(self.rules, found),
            None => &[],
        }
    }

    // The value of a match, if it is wanted.
    fn wanted_value(&self, found: Match<u32>) -> &'j [u8]
        ensures { result.now ≡ (if self.now.task.labels.values then match_value (wanted_of self.now).rules found else []) }
    {
        if self.task.labels.values {
            match_value(self.rules, found)
        } else {
            &[]
        }
    }

    fn write_matches<S: Output>(&self, name: &str, line: Line, out: &mut S) -> Result<(), SinkError>
        ensures { IsWritten (S.sees out.old) (S.sees out.new) result
            (matches_text (wanted_of self.now) name.now (seen line.entry)) }
    {
        for found in self.searcher.matches(line.bytes) {
            self.write_match(name, line, found, out)?;
        }
        Ok(())
    }

    // Writes a match, unless it is empty.
    fn write_match<S: Output>(
        &self,
        name: &str,
        line: Line,
        found: Match<u32>,
        out: &mut S,
    ) -> Result<(), SinkError>
        requires ordered { found.start ≤ found.end }
        requires within { found.end ≤ length line.bytes.now }
        ensures { IsWritten (S.sees out.old) (S.sees out.new) result
            (match_text (wanted_of self.now).rules self.now.task.labels name.now (seen line.entry) found) }
    {
        if found.start == found.end {
            return Ok(());
        }
        self.write_part(name, line, found, out)
    }

    // Writes the part of a line that a match takes.
    fn write_part<S: Output>(
        &self,
        name: &str,
        line: Line,
        found: Match<u32>,
        out: &mut S,
    ) -> Result<(), SinkError>
        requires ordered { found.start ≤ found.end }
        requires within { found.end ≤ length line.bytes.now }
        ensures { IsWritten (S.sees out.old) (S.sees out.new) result
            (entry self.now.task.labels name.now line.entry.number (line.entry.start + found.start)
            (match_value (wanted_of self.now).rules found) (slice_range line.entry.bytes.now found.start found.end)) }
    {
        let value = self.wanted_value(found);
        let place = line.start + found.start;
        let text = &line.bytes[found.start..found.end];
        write_entry(self.task.labels, name, line.number, place, value, text, out)
    }
}

/// Writes what stands after the lines of a file: the number of the selected ones, or the name if
/// there is one, if that is asked.
pub fn write_end<S: Output>(
    task: Task,
    name: &str,
    count: usize,
    out: &mut S,
) -> Result<(), SinkError>
    ensures { IsWritten (S.sees out.old) (S.sees out.new) result (end_of task.report task.labels name.now count) }
{
    match task.report {
        Report::Count => write_count(task.labels.names, name, count, out),
        Report::Name if count > 0 => write_marked(name.as_bytes(), b'\n', out),
        Report::Name | Report::Lines | Report::Matches | Report::Nothing => Ok(()),
    }
}
