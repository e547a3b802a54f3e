//! A keeper in memory.

ghost use Rattle.std.specs.Prelude.{◌≡◌, ◌++◌, ◌∷◌, [], Some, OnOk, OnErr};
ghost use Rattle.std.specs.Option.{option_copied};
ghost use Rattle.std.specs.Str.{bytes_eq};
ghost use Rattle.sl_ports.specs.Calls.{untried, is_to_fail, counted};
ghost use Rattle.sl_ports.specs.Keeping.{is_failed as write_failed};
ghost use Rattle.sl_ports.specs.MemoryEnds.{files_in, written_after, IsCopy};
ghost use Rattle.sl_ports.specs.Reading.{Reads, is_failed as read_failed};

use crate::calls::Calls;
use crate::keepers::{FileAnswer, KeepAnswer, Keeper};
use sl_base::{Memory, Name};
use std::alloc::Global;
use std::marker::Model;

/// A file as it was written.
#[derive(Drop)]
struct StoredFile {
    name: Name,
    bytes: Vec<u8>,
}

impl Model for StoredFile {
    ghost use Rattle.sl_ports.specs.MemoryEnds.{File};

    ghost Value = { File };

    ghost view = { λ f. record { name = f.name; bytes = f.bytes.items } };
}

impl StoredFile {
    fn is_named(&self, name: &Name) -> bool
        ensures { result ≡ bytes_eq self.now.name name.now }
    {
        self.name.as_bytes() == name.as_bytes()
    }

    fn as_slice(&self) -> &[u8]
        ensures { result.now ≡ self.now.bytes }
    {
        self.bytes.as_slice()
    }
}

/// The answer that has these bytes.
fn copied(alloc: Global, bytes: &[u8]) -> FileAnswer
    ensures { IsCopy bytes.now result }
{
    match Vec::from_slice(alloc, bytes) {
        Ok(copy) => FileAnswer::Bytes(copy),
        Err(_) => FileAnswer::Memory,
    }
}

/// Keeps files in memory. Readings and writes of given numbers fail. A write whose memory is
/// refused answers `Memory`.
#[derive(Drop)]
pub struct MemKeeper {
    written: Vec<StoredFile>,
    reads: Calls,
    writes: Calls,
}

impl Model for MemKeeper {
    ghost use Rattle.sl_ports.specs.MemoryEnds.{KeeperState};

    ghost Value = { KeeperState };

    ghost view = { λ k. record { written = k.written.items; reads = k.reads; writes = k.writes } };
}

impl MemKeeper {
    /// No files. The readings and the writes of the listed numbers, each counted from 1, are to
    /// fail.
    pub fn new(alloc: Global, failing_reads: Vec<u64>, failing_writes: Vec<u64>) -> MemKeeper
        ensures { result ≡ record {
          written = [];
          reads = untried failing_reads.items;
          writes = untried failing_writes.items;
        } }
    {
        MemKeeper {
            written: Vec::new(alloc),
            reads: Calls::new(failing_reads),
            writes: Calls::new(failing_writes),
        }
    }

    /// Puts a file there without a call of the keeper, so that none is counted and none fails.
    pub fn put(&mut self, alloc: Global, name: &Name, bytes: &[u8]) -> Result<(), Memory>
        ensures ok { OnOk result (self.new ≡ record self.old {
          written = self.old.written ++ record { name = name.now; bytes = bytes.now } ∷ [];
        }) }
        ensures unchanged { OnErr result (self.new ≡ self.old) }
    {
        let bytes = Vec::from_slice(alloc, bytes)?;
        let name = name.duplicate();
        self.written.push(StoredFile { name, bytes })?;
        Ok(())
    }

    /// The bytes of the file under a name, or None where there is no such file.
    pub fn file(&self, name: &Name) -> Option<&[u8]>
        ensures { option_copied result ≡ files_in self.now name.now }
    {
        let last = self.written.iter().rev().find(|file| file.is_named(name))?;
        Some(last.as_slice())
    }
}

impl Keeper for MemKeeper {
    ghost read_faults = { λ k. k.reads.faults };

    ghost write_faults = { λ k. k.writes.faults };

    ghost files = { λ k. Some (files_in k) };

    fn read_file(&mut self, alloc: Global, name: &Name) -> FileAnswer
        ensures listed { read_failed result ≡ is_to_fail self.old.reads }
        ensures value { Reads (Some (files_in self.old)) name.now result }
        ensures after { self.new ≡ record self.old
            { reads = counted self.old.reads (read_failed result) } }
    {
        if self.reads.count() {
            return FileAnswer::Failed;
        }
        match self.file(name) {
            None => FileAnswer::Missing,
            Some(bytes) => copied(alloc, bytes),
        }
    }

    fn write_file(&mut self, alloc: Global, name: &Name, bytes: &[u8]) -> KeepAnswer
        ensures listed { write_failed result ≡ is_to_fail self.old.writes }
        ensures after { self.new ≡ record self.old {
          written = written_after
              self.old.written (record { name = name.now; bytes = bytes.now }) result;
          writes = counted self.old.writes (write_failed result);
        } }
    {
        if self.writes.count() {
            return KeepAnswer::Failed;
        }
        match self.put(alloc, name, bytes) {
            Ok(()) => KeepAnswer::Done,
            Err(_) => KeepAnswer::Memory,
        }
    }
}
