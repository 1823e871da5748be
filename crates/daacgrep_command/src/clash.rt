//! Options that do not go together.

use thiserror::Error;

/// Options that do not go together. Its text names them.
#[derive(Clone, Copy, Debug, PartialEq, Eq, Error)]
pub enum Clash {
    /// `--values` and `--load` without `-f`: a written automaton has no lines of patterns.
    #[error("--values wants -f beside --load")]
    NoLines,
    /// Patterns beside `--load`, and no `--values` that wants their lines.
    #[error("-e and -f do not go with --load, except for --values")]
    Patterns,
    /// A file to be searched beside `--save`.
    #[error("--save searches no file")]
    Files,
}
