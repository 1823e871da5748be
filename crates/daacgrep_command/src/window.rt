//! A part of a file that is read piece by piece.

ghost use Rattle.std.specs.Prelude.{◌≡◌, ◌⊎◌, ◌-◌, ◌+◌, ◌<◌, ◌≤◌, ◌==◌, ◌^◌, [], ℕ, IfOk, List, OnErr, count_by, drop, is_ok, length};
ghost use Rattle.std.specs.Prelude.{slice_index, take};
ghost use Rattle.std.specs.Io.KnownBytes.{Consumes};
ghost use Rattle.daacgrep_command.specs.FileSystems.{after_reading};
ghost use Rattle.daacgrep_command.specs.Windows.{HasNone, IsReadOn};

use crate::file_system::{FileSystem, ReadError};
use crate::lines::after_last;
use std::alloc::{AllocError, Global};
use std::marker::Model;

// How many bytes are read at a time.
const PIECE: usize = 65536;

/// What is held of a file: bytes that were read and not yet passed over.
#[derive(Drop)]
pub struct Window {
    piece: Vec<u8>,
    held: Vec<u8>,
    // The place in the file where the held bytes begin.
    start: usize,
    // The byte that ends lines.
    mark: u8,
}

impl Model for Window {
    ghost use Rattle.std.specs.Prelude.{◌+◌, ◌<◌, ◌^◌, length};
    ghost use Rattle.daacgrep_command.specs.Windows.{Held};

    ghost Value = { Held };

    ghost view = { λ s. record { start = s.start; bytes = s.held.items; mark = s.mark } };

    ghost invariant = { λ s. (0 < length s.piece.items) × (s.start + length s.held.items < 2 ^ 64) };
}

impl Window {
    /// A window that holds nothing.
    pub fn new(alloc: Global) -> Result<Window, AllocError>
        ensures { IfOk result (λ w. w.bytes ≡ []) }
    {
        Ok(Window {
            piece: Vec::from_elem(alloc, 0u8, PIECE)?,
            held: Vec::new(alloc),
            start: 0,
            mark: b'\n',
        })
    }

    /// Begins at the front of a file, where the mark ends lines.
    pub fn begin(&mut self, mark: u8)
        ensures mark { self.new.mark ≡ mark }
        ensures start { self.new.start ≡ 0 }
        ensures bytes { self.new.bytes ≡ [] }
    {
        self.held.clear();
        self.start = 0;
        self.mark = mark;
    }

    /// Returns the bytes that are held.
    #[inline]
    pub fn bytes(&self) -> &[u8]
        ensures { result.now ≡ self.now.bytes }
    {
        &self.held
    }

    /// Returns the place in the file where the held bytes begin.
    #[inline]
    pub fn start(&self) -> usize
        ensures start { result ≡ self.now.start }
        ensures within { result + length self.now.bytes < 2 ^ 64 }
    {
        self.start
    }

    /// Reads on, and returns how many bytes more are held: 0 at the end. No line that is complete may
    /// be held.
    ///
    /// # Errors
    ///
    /// An error of the file, a failed allocation, or a place that is too great.
    pub fn read_on<F: FileSystem>(&mut self, files: &mut F) -> Result<usize, ReadError>
        requires passed { HasNone self.old.mark self.old.bytes }
        ensures start { self.new.start ≡ self.old.start }
        ensures mark { self.new.mark ≡ self.old.mark }
        ensures within { self.new.start + length self.new.bytes < 2 ^ 64 }
        ensures counted { F.sees files.new ≡ after_reading (is_ok result) (F.sees files.old) }
        ensures ok { IfOk result (λ n. IsReadOn (F.left files.old) (F.left files.new) self.old.bytes self.new.bytes n) }
        ensures kept { OnErr result (self.new.bytes ≡ self.old.bytes) }
        ensures lost { OnErr result ((lost : List ℕ) × Consumes (F.left files.old) (F.left files.new) lost) }
    {
        let count = files.read_next(&mut self.piece)?;
        let len = self.held.len() + count;
        if self.start.checked_add(len).is_none() {
            let is_too_far = usize::MAX - self.start < len;
            prove!(is_too_far);
            files.give_up();
            return Err(ReadError);
        }
        match self.held.extend_from_slice(&self.piece[..count]) {
            Ok(()) => Ok(count),
            Err(AllocError) => {
                files.give_up();
                Err(ReadError)
            }
        }
    }

    /// Returns how many bytes the lines take that are complete, where the last `count` bytes are new.
    pub fn complete_len(&self, count: usize) -> usize
        requires new { count ≤ length self.now.bytes }
        requires none { HasNone self.now.mark (take (length self.now.bytes - count) self.now.bytes) }
        ensures within { result ≤ length self.now.bytes }
        ensures closed { (result ≡ 0) ⊎ ((0 < result) × (slice_index self.now.bytes (result - 1) ≡ self.now.mark)) }
        ensures rest { HasNone self.now.mark (drop result self.now.bytes) }
    {
        let old = self.held.len() - count;
        match after_last(self.mark, &self.held[old..]) {
            0 => 0,
            place => old + place,
        }
    }

    /// Passes over the first bytes that are held.
    pub fn pass(&mut self, count: usize)
        requires { count ≤ length self.old.bytes }
        ensures mark { self.new.mark ≡ self.old.mark }
        ensures start { self.new.start ≡ self.old.start + count }
        ensures bytes { self.new.bytes ≡ drop count self.old.bytes }
    {
        let len = self.held.len();
        self.held.copy_within(count..len, 0);
        self.held.truncate(len - count);
        self.start += count;
    }
}
