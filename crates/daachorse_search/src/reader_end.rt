//! How a reader ended, for contracts alone.

ghost use Rattle.std.specs.Prelude.{◌≡◌, None, Some};

use std::io;
use std::marker::Model;
use std::snapshot::Snapshot;

/// How a reader ended, with an error or with none, if it did. It takes no byte at run time.
#[derive(Drop)]
pub struct ReaderEnd {
    end: Snapshot<Option<Snapshot<Option<io::Error>>>>,
}

impl Model for ReaderEnd {
    ghost use Rattle.std.specs.Prelude.{Option};
    ghost use Rattle.std.specs.Option.{option_map};
    ghost use Rattle.std.specs.declared.io.Error.{Error};

    ghost Value = { Option (Option Error) };

    ghost view = { λ s. option_map (λ e. e.value) s.end.value };
}

impl ReaderEnd {
    /// It has not ended.
    pub fn none() -> Self
        ensures { result ≡ None }
    {
        let end = None;
        Self {
            end: Snapshot::of(&end),
        }
    }

    /// It ended with an error or with none.
    pub fn with(failure: &Option<io::Error>) -> Self
        ensures { result ≡ Some failure.now }
    {
        let end = Some(Snapshot::of(failure));
        Self {
            end: Snapshot::of(&end),
        }
    }
}
