//! Stamped entries, with room for a quota of each sender.

ghost use Rattle.std.specs.Prelude.{◌≡◌, ◌<◌, ◌≤◌, [], ◌∷◌, ◌++◌, ◌*◌, length, ◌↔◌, IsTrue, IfOk};
ghost use Rattle.sl_base.specs.Limits.{max_quota};
ghost use Rattle.sl_commands.specs.Entries.{last_frame, are_stamped};
ghost use Rattle.frame_stamp.specs.Journals.{JournalOf, HasRoom, room_of, next_seq, next_entry};

use sl_base::Memory;
use sl_commands::{Command, Entries, Entry};
use std::alloc::Global;
use std::marker::Model;

/// Entries in the order in which they apply, stamped.
#[derive(Drop)]
pub struct Journal {
    entries: Vec<Entry>,
    quota: u32,
    counts: [u32; 3],
}

impl Model for Journal {
    ghost use Rattle.std.specs.Vec.{vec_capacity};
    ghost use Rattle.frame_stamp.specs.Journals.{JournalOf, IsJournal};

    ghost Value = { JournalOf };

    ghost view = { λ j. record { entries = j.entries.items; quota = j.quota } };

    ghost invariant = { λ j. IsJournal j.entries.items j.quota (vec_capacity j.entries) j.counts };
}

impl Journal {
    /// No entries yet. There is room for `quota` entries each of senders 0 and 1, and for twice as
    /// many of sender 2.
    pub fn with_quota(alloc: Global, quota: u32) -> Result<Journal, Memory>
        requires some { 1 ≤ quota }
        requires within { quota ≤ max_quota }
        ensures { IfOk result (λ journal. journal ≡ record { entries = []; quota = quota }) }
    {
        let capacity = 4 * quota as usize;
        Ok(Journal {
            entries: Vec::with_capacity(alloc, capacity)?,
            quota,
            counts: [0; 3],
        })
    }

    /// How many entries the sender has: the number of its next one.
    pub fn count(&self, sender: u8) -> u32
        ensures value { result ≡ next_seq sender self.now.entries }
        ensures within { result ≤ room_of sender self.now.quota }
    {
        if sender < 3 {
            self.counts[sender as usize]
        } else {
            0
        }
    }

    /// The sender has room for one more entry.
    pub fn has_room(&self, sender: u8) -> bool
        ensures { IsTrue result ↔ HasRoom sender self.now }
    {
        let room = match sender {
            0 | 1 => self.quota,
            2 => 2 * self.quota,
            _ => 0,
        };
        self.count(sender) < room
    }

    /// Puts one entry at the end, and tells its number among its sender's. `frame` is the number of
    /// frames done.
    pub fn stamp(&mut self, frame: u64, sender: u8, command: Command) -> u32
        requires room { HasRoom sender self.old }
        requires frame { last_frame self.old.entries ≤ frame }
        ensures seq { result ≡ next_seq sender self.old.entries }
        ensures entries { self.new.entries ≡ self.old.entries
            ++ next_entry frame sender command self.old.entries ∷ [] }
        ensures quota { self.new.quota ≡ self.old.quota }
    {
        let seq = self.count(sender);
        self.put(frame, sender, command);
        seq
    }

    /// Puts one entry at the end, with its sender's next number.
    fn put(&mut self, frame: u64, sender: u8, command: Command)
        requires room { HasRoom sender self.old }
        requires frame { last_frame self.old.entries ≤ frame }
        ensures entries { self.new.entries ≡ self.old.entries
            ++ next_entry frame sender command self.old.entries ∷ [] }
        ensures quota { self.new.quota ≡ self.old.quota }
    {
        let seq = self.counts[sender as usize];
        self.counts[sender as usize] = seq + 1;
        self.entries.push_reserved(Entry {
            frame,
            sender,
            seq,
            command,
        });
    }

    pub fn entries(&self) -> &[Entry]
        ensures value { result.now ≡ self.now.entries }
        ensures stamped { IsTrue (are_stamped self.now.entries) }
    {
        &self.entries
    }

    /// The entries alone. No memory is taken.
    pub fn into_entries(self) -> Entries
        ensures value { result ≡ self.entries }
        ensures stamped { IsTrue (are_stamped self.entries) }
    {
        Entries::of(self.entries)
    }

    /// What always holds of a journal.
    pub fn facts(&self)
        ensures stamped { IsTrue (are_stamped self.now.entries) }
        ensures quota { self.now.quota ≤ max_quota }
        ensures osc { next_seq 0 self.now.entries ≤ self.now.quota }
        ensures midi { next_seq 1 self.now.entries ≤ self.now.quota }
        ensures saver { next_seq 2 self.now.entries ≤ 2 * self.now.quota }
    {
        let _quota = self.quota;
    }

    /// The number of entries that senders 0 and 1 may have.
    pub fn quota(&self) -> u32
        ensures value { result ≡ self.now.quota }
        ensures within { result ≤ max_quota }
    {
        self.quota
    }
}
