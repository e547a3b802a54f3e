//! Stamped commands: the entries of a journal.

ghost use Rattle.std.specs.Prelude.{◌≡◌, [], ◌∷◌, ◌++◌, length, OnOk, OnErr};
ghost use Rattle.sl_commands.specs.Entries.{is_sender, is_valid};

use crate::command::Command;
use sl_base::Memory;
use std::alloc::Global;
use std::marker::Model;

/// The sender of what came as OSC.
pub const OSC: u8 = 0;
/// The sender of what came as MIDI.
pub const MIDI: u8 = 1;
/// The sender of releases.
pub const SAVER: u8 = 2;

/// A command with the frame at which it applies, who sent it, and its number among this sender's.
#[derive(Drop, PartialEq, Eq)]
pub struct Entry {
    pub frame: u64,
    pub sender: u8,
    pub seq: u32,
    pub command: Command,
}

impl Entry {
    /// The entry may stand in a journal, where there are so many loops.
    pub fn is_valid(&self, loops: u8) -> bool
        ensures { result ≡ is_valid loops self.now }
    {
        is_sender(self.sender, &self.command) && self.command.is_allowed(loops)
    }

    /// The same entry once more.
    pub fn duplicate(&self) -> Entry
        ensures { result ≡ self.now }
    {
        Entry {
            frame: self.frame,
            sender: self.sender,
            seq: self.seq,
            command: self.command.duplicate(),
        }
    }
}

/// This sender may send this command.
pub fn is_sender(sender: u8, command: &Command) -> bool
    ensures { result ≡ is_sender sender command.now }
{
    match command {
        Command::Release(_, _) => sender == SAVER,
        _ => sender < SAVER,
    }
}

/// A list of entries, in the order in which they apply.
#[derive(Drop)]
pub struct Entries {
    entries: Vec<Entry>,
}

impl Model for Entries {
    ghost use Rattle.std.specs.Prelude.{List};
    ghost use Rattle.sl_commands.specs.declared.entry.Entry.{Entry};

    ghost Value = { List Entry };

    ghost view = { λ e. e.entries.items };
}

impl Entries {
    /// No entries.
    pub fn new(alloc: Global) -> Entries
        ensures { result ≡ [] }
    {
        Entries {
            entries: Vec::new(alloc),
        }
    }

    /// The entries of a vector.
    pub fn of(entries: Vec<Entry>) -> Entries
        ensures { result ≡ entries.items }
    {
        Entries { entries }
    }

    /// Puts one entry at the end. After `Memory` the list is as before.
    pub fn push(&mut self, entry: Entry) -> Result<(), Memory>
        ensures ok { OnOk result (self.new ≡ self.old ++ entry ∷ []) }
        ensures unchanged { OnErr result (self.new ≡ self.old) }
    {
        self.entries.push(entry)?;
        Ok(())
    }

    /// The entries, in the order in which they apply.
    pub fn as_slice(&self) -> &[Entry]
        ensures { result.now ≡ self.now }
    {
        &self.entries
    }

    /// How many entries there are.
    pub fn len(&self) -> usize
        ensures { result ≡ length self.now }
    {
        self.entries.len()
    }

    /// The entries in the vector that holds them. No memory is taken.
    pub fn into_vec(self) -> Vec<Entry>
        ensures { result.items ≡ self }
    {
        self.entries
    }
}
