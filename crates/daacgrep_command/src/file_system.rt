//! The files as the command sees them.

ghost use Rattle.std.specs.Prelude.{◌≡◌, ◌≤◌, ◌∷◌, [], IfOk, List, None, OnErr, OnOk, Option, false, is_ok, is_some, length, true, ℕ};
ghost use Rattle.std.specs.Option.{option_map};
ghost use Rattle.std.specs.Io.KnownBytes.{ReadConsumes};
ghost use Rattle.daacfind_command.specs.Commands.{Tells};
ghost use Rattle.daacgrep_command.specs.FileSystems.{Disk, IsOpened, Stores, after_reading};

use daacfind_command::sink::SinkError;

/// A file could not be read on.
#[derive(Clone, Copy, Debug, PartialEq, Eq)]
pub struct ReadError;

/// Files by name. They are read whole, or one at a time piece by piece, and written whole.
pub trait FileSystem {
    // What the files have and which were written, if known, and how often one could not be read.
    ghost sees: { Self → Disk };

    // What is left of the file that was opened last, if known.
    ghost left: { Self → Option (List ℕ) };

    /// Reads the bytes of a file, or returns `None` if it cannot be read.
    fn read(&mut self, name: &str) -> Option<Vec<u8>>
        ensures has { Tells (sees self.old).given name.now (option_map (λ bytes. bytes.items) result) }
        ensures counted { sees self.new ≡ after_reading (is_some result) (sees self.old) };

    /// Opens a file, and returns whether it can be read.
    fn open(&mut self, name: &str) -> bool
        ensures opened { result ≡ true → IsOpened (sees self.old).given name.now (left self.new) }
        ensures unread { result ≡ false → Tells (sees self.old).given name.now None }
        ensures counted { sees self.new ≡ after_reading result (sees self.old) };

    /// Reads the next bytes of the file that was opened last into the buffer, and returns how many:
    /// 0 only at its end, or if the buffer is empty.
    fn read_next(&mut self, buffer: &mut [u8]) -> Result<usize, ReadError>
        ensures bound { IfOk result (λ n. n ≤ length buffer.new) }
        ensures bytes { ReadConsumes (left self.old) (left self.new) result buffer.new }
        ensures counted { sees self.new ≡ after_reading (is_ok result) (sees self.old) };

    /// Gives up the file that was opened last, for which there is no room.
    fn give_up(&mut self)
        ensures left { left self.new ≡ left self.old }
        ensures counted { sees self.new ≡ after_reading false (sees self.old) };

    /// Writes the bytes as the file of this name, in place of what it had. After a failure the file
    /// may have a beginning of them.
    fn write(&mut self, name: &str, bytes: &[u8]) -> Result<(), SinkError>
        ensures stored { OnOk result (Stores (sees self.old).saved (sees self.new).saved
            (record { name = name.now; bytes = bytes.now } ∷ [])) }
        ensures kept { OnErr result ((sees self.new).saved ≡ (sees self.old).saved) };
}
