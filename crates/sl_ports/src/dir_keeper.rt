//! The keeper of real files, those of the working directory.

ghost use Rattle.std.specs.Prelude.{◌≡◌, None, if◌then◌else◌};
ghost use Rattle.sl_base.specs.Counting.{raised};
ghost use Rattle.sl_ports.specs.Reading.{is_failed};
ghost use Rattle.sl_ports.specs.Keeping.{is_failed as is_unwritten};

use crate::first_fault::{FirstFault, Tried};
use crate::keepers::{FileAnswer, KeepAnswer, Keeper};
use crate::new_file::put_in_place;
use crate::transfer::read_whole;
use sl_base::Name;
use std::alloc::Global;
use std::fs::File;
use std::io::ErrorKind;
use std::marker::Model;
use std::rt::Files;
use std::{fs, io};

/// Keeps the files of the working directory. It tells nothing of what they hold, and remembers the
/// first call that failed.
///
/// A file that isn't read to its end in 4294967296 turns is answered `Failed`. A write makes a new
/// file and renames it once the system has taken all of it to the disk, so that the named file is
/// the old one or the new one whatever happens. It holds the folder's lock the while, so that of
/// two programs that write in one folder each writes its own files, one after the other.
#[derive(Drop)]
pub struct DirKeeper<R> {
    rt: R,
    read_faults: u64,
    write_faults: u64,
    first: Option<FirstFault>,
}

impl<R> Model for DirKeeper<R> {
    ghost use Rattle.sl_ports.specs.RealEnds.{FaultCounts};

    ghost Value = { FaultCounts };

    ghost view = { λ k. record { reads = k.read_faults; writes = k.write_faults } };
}

impl<R> DirKeeper<R> {
    /// The keeper over the files of this runtime, with no fault yet.
    pub fn new(rt: R) -> DirKeeper<R>
        ensures { result ≡ record { reads = 0; writes = 0 } }
    {
        DirKeeper {
            rt,
            read_faults: 0,
            write_faults: 0,
            first: None,
        }
    }

    /// The first call that failed, if any did.
    pub fn first_fault(&self) -> Option<&FirstFault> {
        self.first.as_ref()
    }

    fn remember(&mut self, tried: Tried, name: &Name, error: io::Error)
        ensures { self.new ≡ self.old }
    {
        if self.first.is_some() {
            return;
        }
        if let Ok(file) = name.clone() {
            self.first = Some(FirstFault { tried, file, error });
        }
    }

    /// The answer to a reading that didn't succeed, counted where it failed.
    fn unread(&mut self, name: &Name, error: io::Error) -> FileAnswer
        ensures { self.new ≡ record self.old {
          reads = if is_failed result then raised self.old.reads else self.old.reads;
        } }
    {
        if error.kind() == ErrorKind::OutOfMemory {
            return FileAnswer::Memory;
        }
        self.read_faults = self.read_faults.saturating_add(1);
        self.remember(Tried::Read, name, error);
        FileAnswer::Failed
    }

    /// The answer to a write that didn't succeed, counted where it failed.
    fn unwritten(&mut self, name: &Name, error: io::Error) -> KeepAnswer
        ensures { self.new ≡ record self.old {
          writes = if is_unwritten result then raised self.old.writes else self.old.writes;
        } }
    {
        if error.kind() == ErrorKind::OutOfMemory {
            return KeepAnswer::Memory;
        }
        self.write_faults = self.write_faults.saturating_add(1);
        self.remember(Tried::Write, name, error);
        KeepAnswer::Failed
    }
}

impl<R: Files<File = File> + Drop> Keeper for DirKeeper<R> {
    ghost read_faults = { λ k. k.reads };

    ghost write_faults = { λ k. k.writes };

    ghost files = { λ _. None };

    fn read_file(&mut self, alloc: Global, name: &Name) -> FileAnswer {
        let mut file = match fs::open(&self.rt, name.as_str()) {
            Ok(file) => file,
            Err(e) if e.kind() == ErrorKind::NotFound => return FileAnswer::Missing,
            Err(e) => return self.unread(name, e),
        };
        match read_whole(alloc, &mut file) {
            Ok(bytes) => FileAnswer::Bytes(bytes),
            Err(e) => self.unread(name, e),
        }
    }

    fn write_file(&mut self, _alloc: Global, name: &Name, bytes: &[u8]) -> KeepAnswer {
        match put_in_place(&self.rt, name.as_str(), bytes) {
            Ok(()) => KeepAnswer::Done,
            Err(e) => self.unwritten(name, e),
        }
    }
}
