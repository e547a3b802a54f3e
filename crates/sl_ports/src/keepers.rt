//! Where files are kept.

ghost use Rattle.std.specs.Prelude.{◌≡◌, ℕ, Option};
ghost use Rattle.sl_base.specs.Counting.{Counts};
ghost use Rattle.sl_ports.specs.Files.{Files};
ghost use Rattle.sl_ports.specs.Reading.{Reads, is_failed as read_failed};
ghost use Rattle.sl_ports.specs.Keeping.{kept, is_failed as write_failed};

use sl_base::Name;
use std::alloc::Global;

/// What came of reading a file.
#[derive(Drop)]
pub enum FileAnswer {
    /// The whole file.
    Bytes(Vec<u8>),
    /// There is no such file.
    Missing,
    /// The file could not be read, and the count of faults of reading was raised.
    Failed,
    /// Out of memory.
    Memory,
}

/// What came of writing a file.
#[derive(Clone, Copy, Debug, PartialEq, Eq)]
pub enum KeepAnswer {
    /// The file has exactly these bytes.
    Done,
    /// The file could not be written, and the count of faults of writing was raised.
    Failed,
    /// Out of memory.
    Memory,
}

/// Keeps files by name: a directory, a list in memory.
pub trait Keeper: Drop {
    // The number of readings that failed.
    ghost read_faults: { Self → ℕ };

    // The number of writes that failed.
    ghost write_faults: { Self → ℕ };

    // The files by name, where the keeper tells them.
    ghost files: { Self → Option Files };

    /// Reads a whole file.
    fn read_file(&mut self, alloc: Global, name: &Name) -> FileAnswer
        ensures counts { Counts (read_faults self.old) (read_faults self.new) (read_failed result) }
        ensures writes { write_faults self.new ≡ write_faults self.old }
        ensures value { Reads (files self.old) name.now result }
        ensures unchanged { files self.new ≡ files self.old };

    /// Writes a whole file, over one of the same name.
    fn write_file(&mut self, alloc: Global, name: &Name, bytes: &[u8]) -> KeepAnswer
        ensures counts { Counts (write_faults self.old) (write_faults self.new)
            (write_failed result) }
        ensures reads { read_faults self.new ≡ read_faults self.old }
        ensures value { files self.new ≡ kept (files self.old) name.now bytes.now result };
}
