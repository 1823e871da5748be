//! The search of a file as it is read.

ghost use Rattle.std.specs.Prelude.{◌≡◌, ◌≤◌, ◌+◌, ◌==◌, ◌&&◌, ◌++◌, if◌then◌else◌, IfOk, OnOk, count_by, drop, length, nat_lt, take};
ghost use Rattle.daacgrep_command.specs.FileSystems.{IsTrouble, OnlyReads};
ghost use Rattle.daacgrep_command.specs.Jobs.{wanted_of};
ghost use Rattle.daacgrep_command.specs.Lines.{lines_from, pieces_of};
ghost use Rattle.daacgrep_command.specs.Printed.{end_of, lines_text, selected_count};
ghost use Rattle.daacgrep_command.specs.Reading.{IsFileSearched, IsWithin, asks_for_one};
ghost use Rattle.daacgrep_command.specs.Sending.{IsWritten};

use crate::file_system::{FileSystem, ReadError};
use crate::files::Outcome;
use crate::line::Part;
use crate::lines::count_marks;
use crate::output::Output;
use crate::search::{Job, Report, write_end};
use crate::window::Window;
use daacfind_command::sink::SinkError;
use std::alloc::Allocator;

/// How far a file was searched.
#[derive(Clone, Copy, Debug, PartialEq, Eq)]
struct Progress {
    /// How many lines were passed, if lines are numbered.
    lines: usize,
    /// How many of these are selected.
    selected: usize,
}

impl<A: Allocator + Copy> Job<'_, A> {
    /// Writes what the task asks of the file that was opened last, and returns what came of it.
    /// Where the file cannot be read on, there is trouble, and the search ends there.
    pub fn search_open<F: FileSystem, S: Output>(
        &self,
        name: &str,
        files: &mut F,
        window: &mut Window,
        out: &mut S,
    ) -> Result<Outcome, SinkError>
        ensures reads { OnlyReads (F.sees files.old) (F.sees files.new) }
        ensures trouble { IfOk result (λ o. IsTrouble o.trouble (F.sees files.old).failures (F.sees files.new).failures) }
        ensures searched { IsFileSearched (wanted_of self.now) name.now (F.left files.old) (S.sees out.old) (S.sees out.new) result }
    {
        window.begin(self.task.labels.end);
        let mut progress = Progress {
            lines: 0,
            selected: 0,
        };
        while !is_settled(self.task.report, progress.selected) {
            match window.read_on(files) {
                Ok(count) => {
                    if count == 0 {
                        return self.finish(name, progress, false, window, out);
                    }
                    let len = window.complete_len(count);
                    progress = self.search_on(name, progress, len, window, out)?;
                }
                Err(ReadError) => return self.finish(name, progress, true, window, out),
            }
        }
        self.finish(name, progress, false, window, out)
    }

    // Searches the bytes that are held as the last line, and writes what stands after the lines.
    fn finish<S: Output>(
        &self,
        name: &str,
        progress: Progress,
        is_cut: bool,
        window: &mut Window,
        out: &mut S,
    ) -> Result<Outcome, SinkError>
        requires few { IsWithin progress window.old.start }
        ensures written { IsWritten (S.sees out.old) (S.sees out.new) result
            (lines_text (wanted_of self.now) name.now
            (lines_from progress.lines window.old.start (pieces_of self.now.task.labels.end window.old.bytes))
            ++ end_of self.now.task.report self.now.task.labels name.now
            (progress.selected + selected_count (wanted_of self.now).sought self.now.task.inverts
            (lines_from progress.lines window.old.start (pieces_of self.now.task.labels.end window.old.bytes)))) }
        ensures selected { IfOk result (λ o. o.selected ≡ nat_lt 0
            (progress.selected + selected_count (wanted_of self.now).sought self.now.task.inverts
            (lines_from progress.lines window.old.start (pieces_of self.now.task.labels.end window.old.bytes)))) }
        ensures trouble { IfOk result (λ o. o.trouble ≡ is_cut) }
    {
        let len = window.bytes().len();
        let last = self.search_on(name, progress, len, window, out)?;
        write_end(self.task, name, last.selected, out)?;
        Ok(Outcome {
            selected: last.selected > 0,
            trouble: is_cut,
        })
    }

    // Searches the lines that the first bytes of the window are, and passes over them.
    fn search_on<S: Output>(
        &self,
        name: &str,
        progress: Progress,
        len: usize,
        window: &mut Window,
        out: &mut S,
    ) -> Result<Progress, SinkError>
        requires within { len ≤ length window.old.bytes }
        requires few { IsWithin progress window.old.start }
        ensures mark { window.new.mark ≡ window.old.mark }
        ensures start { OnOk result (window.new.start ≡ window.old.start + len) }
        ensures bytes { OnOk result (window.new.bytes ≡ drop len window.old.bytes) }
        ensures written { IsWritten (S.sees out.old) (S.sees out.new) result
            (lines_text (wanted_of self.now) name.now
            (lines_from progress.lines window.old.start (pieces_of self.now.task.labels.end (take len window.old.bytes)))) }
        ensures selected { IfOk result (λ p. p.selected
            ≡ progress.selected + selected_count (wanted_of self.now).sought self.now.task.inverts
            (lines_from progress.lines window.old.start (pieces_of self.now.task.labels.end (take len window.old.bytes)))) }
        ensures lines { IfOk result (λ p. p.lines ≡ progress.lines
            + (if self.now.task.labels.numbers then count_by (λ b. b == self.now.task.labels.end) (take len window.old.bytes) else 0)) }
        ensures few { IfOk result (λ p. IsWithin p (window.old.start + len)) }
    {
        let labels = self.task.labels;
        let part = Part {
            before: progress.lines,
            start: window.start(),
            bytes: &window.bytes()[..len],
        };
        let selected = self.write_selected(name, part, out)?;
        let lines = marks_if(labels.numbers, labels.end, part.bytes);
        window.pass(len);
        Ok(Progress {
            lines: progress.lines + lines,
            selected: progress.selected + selected,
        })
    }
}

// Whether the rest of a file makes no difference.
fn is_settled(report: Report, selected: usize) -> bool
    ensures { result ≡ (nat_lt 0 selected && asks_for_one report) }
{
    match report {
        Report::Name | Report::Nothing => selected > 0,
        Report::Lines | Report::Matches | Report::Count => false,
    }
}

// How many marks there are, if that is asked, and else 0.
fn marks_if(is_asked: bool, mark: u8, bytes: &[u8]) -> usize
    ensures is { result ≡ (if is_asked then count_by (λ b. b == mark) bytes.now else 0) }
    ensures few { result ≤ length bytes.now }
{
    if is_asked {
        count_marks(mark, bytes)
    } else {
        0
    }
}
