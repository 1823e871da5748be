//! Why an automaton got no rows.

ghost use Rattle.std.specs.Prelude.{Some};
ghost use Rattle.daachorse_rows.specs.Refused.{refused_text};

use daachorse_core::errors::DaachorseError;
use std::error::Error;
use std::fmt;

/// An automaton that got no rows, as it was.
#[derive(Drop)]
pub struct AccelerateError<T> {
    /// The automaton.
    pub automaton: T,
    /// The allocation that failed; `None` if there is no room for the rows of all short prefixes.
    pub refusal: Option<DaachorseError>,
}

impl<T> fmt::Debug for AccelerateError<T> {
    fn fmt<W: fmt::Write>(&self, f: &mut fmt::Formatter<W>) -> fmt::Result {
        f.debug_struct("AccelerateError")
            .field("refusal", &self.refusal)
            .finish_non_exhaustive()
    }
}

impl<T> fmt::Display for AccelerateError<T> {
    ghost output = { λ e. Some (refused_text e.refusal) };

    fn fmt<W: fmt::Write>(&self, f: &mut fmt::Formatter<W>) -> fmt::Result {
        match self.refusal {
            Some(refusal) => write!(f, "AccelerateError: {refusal}"),
            None => f.write_str("AccelerateError: no room for rows"),
        }
    }
}

impl<T: Drop> Error for AccelerateError<T> {}
