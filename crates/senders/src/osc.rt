//! The sender of what comes by OSC.

ghost use Rattle.std.specs.Prelude.{◌≡◌, ◌<◌, ◌≤◌, [], ◌∷◌, length, map, IfOk, OnErr};
ghost use Rattle.event_rings.specs.Ends.{SamePutRing};
ghost use Rattle.sl_base.specs.Counting.{raised};
ghost use Rattle.osc_paths.specs.Answers.{answered};
ghost use Rattle.senders.specs.Commands.{AreGood};
ghost use Rattle.senders.specs.Tallies.{empty_tally};
ghost use Rattle.senders.specs.Hearing.{faulty, message_input, packet_inputs, Hears};
ghost use Rattle.senders.specs.Senders.{AreInStep, OscSenderOf, IsOscSender, StaysSender};

use crate::account::Account;
use crate::decision::{Decision, Decisions};
use crate::play::play;
use crate::tally::Tally;
use event_rings::Putter;
use osc_paths::{Request, command_of};
use osc_reader::{Message, PacketFault, PacketKind, read_packet};
use sl_base::{Addr, Memory};
use sl_commands::Command;
use std::alloc::Global;
use std::marker::Model;
use std::sync::Wait;

/// Accepts what packets say, and puts it on its ring.
#[derive(Drop)]
pub struct OscSender {
    account: Account,
    loops: u8,
    ring: Putter<Command>,
}

impl Model for OscSender {
    ghost use Rattle.senders.specs.Senders.{OscSenderOf, IsOscSender};

    ghost Value = { OscSenderOf };

    ghost view = { λ s. record { account = s.account; loops = s.loops; ring = s.ring } };

    ghost invariant = { λ s. IsOscSender
        (record { account = s.account; loops = s.loops; ring = s.ring }) };
}

impl OscSender {
    /// A sender that has heard nothing, on a ring that was sent nothing. It accepts `quota`
    /// commands at most, 1048576 at most.
    pub fn new(
        alloc: Global,
        quota: u32,
        loops: u8,
        ring: Putter<Command>,
    ) -> Result<OscSender, Memory>
        requires within { quota ≤ 1048576 }
        requires sent { ring.sent ≡ [] }
        requires fulls { ring.fulls ≡ 0 }
        requires room { quota ≤ ring.limit }
        ensures { IfOk result (λ sender. sender ≡ record {
          account = record { tally = empty_tally quota; unsent = 0 };
          loops = loops;
          ring = ring;
        }) }
    {
        let tally = Tally::new(alloc, quota)?;
        Ok(OscSender {
            account: Account { tally, unsent: 0 },
            loops,
            ring,
        })
    }

    /// What came of one message.
    fn message<R: Wait>(&mut self, wait: &R, message: &Message, from: Addr) -> Decision
        ensures stays { StaysSender self.old self.new }
        ensures heard { Hears self.old.ring.capacity
            (message_input self.old.loops from message.now ∷ [])
            self.old.account.tally self.new.account.tally (result ∷ []) }
    {
        match command_of(message, self.loops, from) {
            Ok(Request::Play(command, answer)) => {
                play(
                    wait,
                    &mut self.account.tally,
                    &mut self.ring,
                    command,
                    answer,
                )
            }
            Ok(Request::Ping(to)) => Decision::Ping(to),
            Err(fault) => {
                self.account.tally.refuse_path(fault);
                Decision::Path(fault)
            }
        }
    }

    /// What came of the messages of a packet. All memory is taken before the first is heard.
    fn messages<R: Wait>(
        &mut self,
        alloc: Global,
        wait: &R,
        messages: &[Message],
        from: Addr,
    ) -> Result<Decisions, Memory>
        ensures stays { StaysSender self.old self.new }
        ensures heard { IfOk result (Hears self.old.ring.capacity
            (map (message_input self.old.loops from) messages.now)
            self.old.account.tally self.new.account.tally) }
        ensures unchanged { OnErr result (self.new ≡ self.old) }
    {
        let Ok(mut decisions) = Vec::with_capacity(alloc, messages.len()) else {
            return Err(Memory);
        };
        'messages: for place in 0..messages.len() {
            let decision = self.message(wait, &messages[place], from);
            decisions.push_reserved(decision);
        }
        Ok(Decisions::of(decisions))
    }

    /// What came of a packet with a fault.
    fn faulty(&mut self, alloc: Global, fault: PacketFault) -> Result<Decisions, Memory>
        ensures stays { StaysSender self.old self.new }
        ensures heard { IfOk result (Hears self.old.ring.capacity (faulty fault ∷ [])
            self.old.account.tally self.new.account.tally) }
        ensures unchanged { OnErr result (self.new ≡ self.old) }
    {
        let Ok(mut decisions) = Vec::with_capacity(alloc, 1) else {
            return Err(Memory);
        };
        decisions.push_reserved(Decision::Packet(fault));
        self.account.tally.refuse_packet(fault);
        Ok(Decisions::of(decisions))
    }

    /// What came of a packet from somewhere: one decision for each message, or one for its fault.
    /// After `Memory` nothing was put, and the account is as before.
    pub fn packet<R: Wait>(
        &mut self,
        alloc: Global,
        wait: &R,
        bytes: &[u8],
        from: Addr,
    ) -> Result<Decisions, Memory>
        ensures stays { StaysSender self.old self.new }
        ensures heard { IfOk result (Hears self.old.ring.capacity
            (packet_inputs self.old.loops from bytes.now)
            self.old.account.tally self.new.account.tally) }
        ensures unchanged { OnErr result (self.new ≡ self.old) }
    {
        match read_packet(alloc, bytes) {
            Ok(messages) => self.messages(alloc, wait, messages.as_slice(), from),
            Err(fault) => {
                if fault.kind == PacketKind::Memory {
                    return Err(Memory);
                }
                self.faulty(alloc, fault)
            }
        }
    }

    /// Counts an answer that wasn't sent.
    pub fn note_unsent(&mut self)
        ensures { self.new ≡ record self.old {
          account = record self.old.account { unsent = raised self.old.account.unsent };
        } }
    {
        self.account.note_unsent();
    }

    /// What came of all that was heard.
    pub fn account(&self) -> &Account
        ensures { result.now ≡ self.now.account }
    {
        &self.account
    }

    /// What always holds.
    pub fn facts(&self)
        ensures step { AreInStep self.now.account.tally self.now.ring }
        ensures good { AreGood 0 self.now.loops self.now.account.tally.accepted }
    {
        let _loops = self.loops;
    }

    /// How many loops there are.
    pub fn loops(&self) -> u8
        ensures { result ≡ self.now.loops }
    {
        self.loops
    }

    /// The account and the ring's end as they are.
    pub fn into_parts(self) -> (Account, Putter<Command>)
        ensures account { result.0 ≡ self.account }
        ensures ring { result.1 ≡ self.ring }
    {
        (self.account, self.ring)
    }
}
