//! The sender of what comes by MIDI.

ghost use Rattle.std.specs.Prelude.{◌≡◌, ◌<◌, ◌≤◌, ℕ, List, [], ◌∷◌, ◌++◌, IfOk, option_to_list};
ghost use Rattle.midi_reader.specs.Feeding.{HasBeenFed};
ghost use Rattle.senders.specs.Tallies.{empty_tally};
ghost use Rattle.senders.specs.Hearing.{Hears};
ghost use Rattle.senders.specs.Senders.{AreInStep, byte_inputs, IsNewMidi, StaysMidiSender};

use crate::account::Account;
use crate::decision::Decision;
use crate::play::play;
use crate::tally::Tally;
use event_rings::Putter;
use midi_bindings::Bindings;
use midi_reader::MidiReader;
use sl_base::Memory;
use sl_commands::Command;
use std::alloc::Global;
use std::marker::Model;
use std::sync::Wait;

/// Accepts what MIDI events are bound to, and puts it on its ring.
#[derive(Drop)]
pub struct MidiSender {
    account: Account,
    bindings: Bindings,
    reader: MidiReader,
    ring: Putter<Command>,
}

impl Model for MidiSender {
    ghost use Rattle.senders.specs.Senders.{MidiSenderOf, IsMidiSender};

    ghost Value = { MidiSenderOf };

    ghost view = { λ s. record {
      account = s.account;
      bindings = s.bindings;
      reader = s.reader;
      ring = s.ring;
    } };

    ghost invariant = { λ s. IsMidiSender (record {
      account = s.account;
      bindings = s.bindings;
      reader = s.reader;
      ring = s.ring;
    }) };
}

impl MidiSender {
    /// A sender that was fed nothing, on a ring that was sent nothing. It accepts `quota` commands
    /// at most, 1048576 at most.
    pub fn new(
        alloc: Global,
        quota: u32,
        bindings: Bindings,
        ring: Putter<Command>,
    ) -> Result<MidiSender, Memory>
        requires within { quota ≤ 1048576 }
        requires sent { ring.sent ≡ [] }
        requires fulls { ring.fulls ≡ 0 }
        requires room { quota ≤ ring.limit }
        ensures { IfOk result (IsNewMidi quota bindings ring) }
    {
        let tally = Tally::new(alloc, quota)?;
        Ok(MidiSender {
            account: Account { tally, unsent: 0 },
            bindings,
            reader: MidiReader::new(),
            ring,
        })
    }

    /// What came of the command that a byte gives. None where it gives none. No memory is taken.
    pub fn byte<R: Wait>(&mut self, wait: &R, byte: u8) -> Option<Decision>
        ensures stays { StaysMidiSender self.old self.new }
        ensures fed { (fed : List ℕ) → HasBeenFed self.old.reader fed →
            HasBeenFed self.new.reader (fed ++ byte ∷ []) }
        ensures heard { (fed : List ℕ) → HasBeenFed self.old.reader fed →
            Hears self.old.ring.capacity (byte_inputs self.old.bindings fed byte)
            self.old.account.tally self.new.account.tally (option_to_list result) }
    {
        let event = self.reader.feed(byte)?;
        let command = self.bindings.lookup(event)?;
        Some(play(wait, &mut self.account.tally, &mut self.ring, command, None))
    }

    /// What came of all that was fed.
    pub fn account(&self) -> &Account
        ensures { result.now ≡ self.now.account }
    {
        &self.account
    }

    /// What always holds.
    pub fn facts(&self)
        ensures step { AreInStep self.now.account.tally self.now.ring }
    {
        let _unsent = self.account.unsent;
    }

    /// The account and the ring's end as they are.
    pub fn into_parts(self) -> (Account, Putter<Command>)
        ensures account { result.0 ≡ self.account }
        ensures ring { result.1 ≡ self.ring }
    {
        (self.account, self.ring)
    }
}
