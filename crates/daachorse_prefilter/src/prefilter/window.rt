//! The window of a prefilter over the beginning of a text that is read byte by byte.

ghost use Rattle.std.specs.Prelude.{◌≡◌, ◌++◌, ◌∷◌, [], ℕ, List};
ghost use Rattle.daachorse_prefilter.specs.Filters.{Filter, admits};

use super::Prefilter;
use super::pair_table::pair_of;
use std::alloc::Allocator;

/// What a prefilter keeps of the beginning of a text that is read byte by byte.
#[derive(Clone, Copy, Drop)]
pub struct Window {
    // How many bytes of the window were read.
    len: u8,
    // The last of them.
    last: u8,
    // Whether each pair of them may be at its offset.
    passes: bool,
}

impl Window {
    ghost use Rattle.daachorse_prefilter.specs.Windows.{HasRead};

    /// A window of which nothing was read.
    pub fn new() -> Self
        ensures { (filter : Filter) → HasRead filter [] result }
    {
        Self {
            len: 0,
            last: 0,
            passes: true,
        }
    }
}

impl<A: Allocator> Prefilter<A> {
    ghost use Rattle.daachorse_prefilter.specs.Windows.{HasRead};

    /// The window after some more bytes.
    pub fn read(&self, window: Window, bytes: &[u8]) -> Window
        ensures { (text : List ℕ) → HasRead self.now text window → HasRead self.now (text ++ bytes.now) result }
    {
        let mut window = window;
        for byte in bytes {
            window = self.read_byte(window, *byte);
        }
        window
    }

    /// The window after one more byte.
    #[inline(always)]
    fn read_byte(&self, window: Window, byte: u8) -> Window
        ensures { (text : List ℕ) → HasRead self.now text window → HasRead self.now (text ++ byte ∷ []) result }
    {
        if window.len >= self.window_len {
            return window;
        }
        let mut passes = window.passes;
        if window.len > 0 {
            let entry = self.table.entry(pair_of(window.last, byte));
            passes = passes && (entry >> (window.len - 1)) % 2 == 0;
        }
        Window {
            len: window.len + 1,
            last: byte,
            passes,
        }
    }

    /// Whether what was read begins with a candidate.
    pub fn admits(&self, window: Window) -> bool
        ensures { (text : List ℕ) → HasRead self.now text window → result ≡ admits self.now text }
    {
        window.len >= self.window_len && window.passes
    }
}
