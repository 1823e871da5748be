//! What is written about a row that differs.

use std::alloc::{AllocError, AllocFailed, Global};
use std::io;

/// Why a row is not run to its end.
#[derive(Clone, Copy, Debug, PartialEq, Eq, Drop)]
pub enum Stop {
    /// An allocation failed.
    Memory,
    /// It is not a row.
    Unreadable,
    /// Its automaton was refused.
    Refused,
}

impl From<AllocError> for Stop {
    fn from(_error: AllocError) -> Self {
        Stop::Memory
    }
}

impl<T: Drop> From<AllocFailed<T>> for Stop {
    fn from(_error: AllocFailed<T>) -> Self {
        Stop::Memory
    }
}

/// What is compared with a row.
#[derive(Clone, Copy)]
pub enum Form {
    Kind,
    Left,
    Rows,
    Answer,
    Plain,
    Slice,
    Iterator,
    Reader,
    SlowReader,
    Buffer,
    Stepper,
    Resumed,
    Cached,
    Find,
    IsMatch,
    Stream,
    ResumedStream,
    Dropped,
    Same,
    Vector,
    Writer,
    VectorWith,
    WriterWith,
}

/// The number of forms.
const COUNT: usize = 23;

/// Each form with the name that is written for it, in the order in which they are written.
const NAMES: [(Form, &str); COUNT] = [
    (Form::Kind, "kind"),
    (Form::Left, "left"),
    (Form::Rows, "rows"),
    (Form::Answer, "answer"),
    (Form::Plain, "plain"),
    (Form::Slice, "slice"),
    (Form::Iterator, "iterator"),
    (Form::Reader, "reader"),
    (Form::SlowReader, "slow reader"),
    (Form::Buffer, "buffer"),
    (Form::Stepper, "stepper"),
    (Form::Resumed, "resumed"),
    (Form::Cached, "cached"),
    (Form::Find, "find"),
    (Form::IsMatch, "is match"),
    (Form::Stream, "stream"),
    (Form::ResumedStream, "resumed stream"),
    (Form::Dropped, "dropped"),
    (Form::Same, "same"),
    (Form::Vector, "vector"),
    (Form::Writer, "writer"),
    (Form::VectorWith, "vector with"),
    (Form::WriterWith, "writer with"),
];

/// How often each form of a row differed.
#[derive(Clone, Copy)]
pub struct Differences {
    counts: [u32; COUNT],
}

impl Differences {
    /// No difference.
    pub fn none() -> Self {
        Self { counts: [0; COUNT] }
    }

    /// Notes whether a form is as the row says.
    pub fn note(&mut self, form: Form, holds: bool) {
        if holds {
            return;
        }
        if let Some(count) = self.counts.get_mut(form as usize) {
            *count = count.saturating_add(1);
        }
    }

    /// Notes a form that a search has only where it is `Some`.
    pub fn note_some(&mut self, form: Form, holds: Option<bool>) {
        self.note(form, holds.unwrap_or(true));
    }

    /// Whether any form differed.
    pub fn is_any(&self) -> bool {
        self.counts.iter().any(|count| *count > 0)
    }

    /// How often a form differed.
    fn count_of(&self, form: Form) -> u32 {
        self.counts.get(form as usize).copied().unwrap_or(0)
    }

    /// The forms that differed, each with how often it did.
    pub fn listed(&self, alloc: Global) -> Result<String, AllocError> {
        let mut listed = String::new(alloc);
        for (form, name) in NAMES {
            let count = self.count_of(form);
            if count > 0 {
                push_form(&mut listed, name, count)?;
            }
        }
        Ok(listed)
    }
}

/// Appends a form with how often it differed, behind a comma if it is not the first.
fn push_form(listed: &mut String, name: &str, count: u32) -> Result<(), AllocError> {
    if !listed.is_empty() {
        listed.push_str(", ")?;
    }
    write!(listed, "{name} {count}")
}

/// How many rows there were, and how many of them differed.
#[derive(Drop)]
pub struct Totals {
    pub rows: u64,
    pub differing: u64,
}

impl Totals {
    /// Counts a row.
    pub fn count(&mut self, differs: bool) {
        self.rows = self.rows.saturating_add(1);
        if differs {
            self.differing = self.differing.saturating_add(1);
        }
    }
}

/// Writes a row behind what is said of it.
pub fn write_row(rt: &impl Print, said: &str, row: &str) -> io::Result<()> {
    println!(rt; "{said}: {row}")
}
