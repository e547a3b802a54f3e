//! The entries that were read so far.

ghost use Rattle.std.specs.Prelude.{◌≡◌, ◌≤◌, ◌<◌, ◌++◌, ◌∷◌, [], length, IfSome, IfNone, IsTrue, OnOk, OnErr};
ghost use Rattle.sl_commands.specs.Entries.{may_be_next, entries_of};
ghost use Rattle.journal_text.specs.Journals.{CannotFollow, most_of, max_lines};

use sl_base::{MAX_QUOTA, MAX_SAVER_QUOTA, Memory};
use sl_commands::{Entries, Entry, TextKind};
use std::alloc::Global;
use std::marker::Model;

/// The entries that were read so far, with the last frame and how many entries each sender has.
#[derive(Drop)]
pub struct SoFar {
    entries: Entries,
    last: u64,
    counts: [u32; 3],
}

impl Model for SoFar {
    ghost use Rattle.std.specs.Prelude.{List};
    ghost use Rattle.sl_commands.specs.declared.entry.Entry.{Entry};

    ghost Value = { List Entry };

    ghost use Rattle.journal_text.specs.SoFars.{entries_so_far, IsSoFar};

    ghost view = { entries_so_far };

    ghost invariant = { IsSoFar };
}

impl SoFar {
    /// No entries.
    pub fn new(alloc: Global) -> SoFar
        ensures { result ≡ [] }
    {
        SoFar {
            entries: Entries::new(alloc),
            last: 0,
            counts: [0; 3],
        }
    }

    /// How many entries there are.
    pub fn count(&self) -> u32
        ensures value { result ≡ length self.now }
        ensures within { length self.now ≤ max_lines }
    {
        self.entries.len() as u32
    }

    /// Why the entry may not follow, or None where it may. Its sender is 0, 1 or 2.
    pub fn refusal(&self, entry: &Entry) -> Option<TextKind>
        requires { entry.now.sender ≤ 2 }
        ensures may { IfNone result (IsTrue (may_be_next self.now entry.now)
            × (length (entries_of entry.now.sender self.now) < most_of entry.now.sender)) }
        ensures wrong { IfSome result (CannotFollow self.now entry.now) }
    {
        let count = self.counts[entry.sender as usize];
        let most = if entry.sender == 2 {
            MAX_SAVER_QUOTA
        } else {
            MAX_QUOTA
        };
        if entry.frame < self.last || entry.seq != count {
            Some(TextKind::Order)
        } else if count >= most {
            Some(TextKind::TooMany)
        } else {
            None
        }
    }

    /// Puts an entry that may follow at the end.
    pub fn push(&mut self, entry: Entry) -> Result<(), Memory>
        requires sender { entry.sender ≤ 2 }
        requires room { length self.old < max_lines }
        requires few { length (entries_of entry.sender self.old) < most_of entry.sender }
        ensures ok { OnOk result (self.new ≡ self.old ++ entry ∷ []) }
        ensures unchanged { OnErr result (self.new ≡ self.old) }
    {
        let frame = entry.frame;
        let sender = entry.sender as usize;
        self.entries.push(entry)?;
        self.last = frame;
        self.counts[sender] += 1;
        Ok(())
    }

    pub fn into_entries(self) -> Entries
        ensures { result ≡ self }
    {
        self.entries
    }
}
