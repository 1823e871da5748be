//! The search of files by their names.

ghost use Rattle.std.specs.Prelude.{◌≡◌, ◌∷◌, ◌&&◌, ◌||◌, [], IfOk, map, not};
ghost use Rattle.daacgrep_command.specs.Asked.{AreSearched, both, shown, status_of_outcome};
ghost use Rattle.daacgrep_command.specs.FileSystems.{IsTrouble, OnlyReads};
ghost use Rattle.daacgrep_command.specs.Jobs.{wanted_of};

use crate::file_system::FileSystem;
use crate::messages::{Message, Messages};
use crate::output::Output;
use crate::search::Job;
use crate::window::Window;
use daacfind_command::sink::SinkError;
use std::alloc::Allocator;

/// What came of a search of files.
#[derive(Clone, Copy, Debug, PartialEq, Eq)]
pub struct Outcome {
    /// Whether a line is selected.
    pub selected: bool,
    /// Whether a file could not be read, or not to its end.
    pub trouble: bool,
}

impl Outcome {
    /// Returns the status: 0 if a line is selected, 1 if none is, and 2 after trouble, unless the
    /// search is quiet and a line is selected.
    pub fn status(self, is_quiet: bool) -> u8
        ensures { result ≡ status_of_outcome is_quiet self }
    {
        if self.trouble && !(is_quiet && self.selected) {
            2
        } else if self.selected {
            0
        } else {
            1
        }
    }

    // What came of this search and then of another.
    fn and(self, other: Outcome) -> Outcome
        ensures { result ≡ both self other }
    {
        Outcome {
            selected: self.selected | other.selected,
            trouble: self.trouble | other.trouble,
        }
    }
}

impl<A: Allocator + Copy> Job<'_, A> {
    /// Writes what the task asks of each of the files, and returns what came of it. A file that
    /// cannot be read, or not to its end, is reported on `err`, and the search goes on with the next.
    pub fn search_files<F: FileSystem, S: Output, M: Messages>(
        &self,
        names: &[&str],
        files: &mut F,
        window: &mut Window,
        out: &mut S,
        err: &mut M,
    ) -> Result<Outcome, SinkError>
        ensures reads { OnlyReads (F.sees files.old) (F.sees files.new) }
        ensures trouble { IfOk result (λ o. IsTrouble o.trouble (F.sees files.old).failures (F.sees files.new).failures) }
        ensures searched { AreSearched (wanted_of self.now) (F.sees files.old).given (map (λ n. n.now) names.now) (S.sees out.old)
            (S.sees out.new) (M.sent err.old) (M.sent err.new) result }
    {
        let mut outcome = Outcome {
            selected: false,
            trouble: false,
        };
        for name in names {
            let found = self.search_named(name, files, window, out, err)?;
            outcome = outcome.and(found);
        }
        Ok(outcome)
    }

    fn search_named<F: FileSystem, S: Output, M: Messages>(
        &self,
        name: &str,
        files: &mut F,
        window: &mut Window,
        out: &mut S,
        err: &mut M,
    ) -> Result<Outcome, SinkError>
        ensures reads { OnlyReads (F.sees files.old) (F.sees files.new) }
        ensures trouble { IfOk result (λ o. IsTrouble o.trouble (F.sees files.old).failures (F.sees files.new).failures) }
        ensures searched { AreSearched (wanted_of self.now) (F.sees files.old).given (name.now ∷ []) (S.sees out.old) (S.sees out.new)
            (M.sent err.old) (M.sent err.new) result }
    {
        if !files.open(name) {
            err.send(Message::Unread(name));
            return Ok(Outcome {
                selected: false,
                trouble: true,
            });
        }
        let outcome = self.search_open(shown(name), files, window, out)?;
        if outcome.trouble {
            err.send(Message::Unread(name));
        }
        Ok(outcome)
    }
}

// The name of a file as it is printed.
fn shown(name: &str) -> &str
    ensures { result.now ≡ shown name.now }
{
    match name {
        "-" => "(standard input)",
        _ => name,
    }
}
