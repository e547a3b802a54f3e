//! The counts of an account, and the commands that were accepted.

ghost use Rattle.std.specs.Prelude.{◌≡◌, ◌<◌, ◌≤◌, length, IfOk};
ghost use Rattle.senders.specs.Commands.{accepted, has_quit};
ghost use Rattle.senders.specs.Tallies.{empty_tally, with_packet_fault, with_path_fault, with_ring_full, with_session_full, with_ended, with_accepted};

use crate::accepted::{Accepted, is_quit};
use crate::refusal::Refusal;
use circular_buffer::HeapCircularBuffer;
use osc_paths::{PathFault, ReturnTo};
use osc_reader::PacketFault;
use sl_base::Memory;
use sl_commands::Command;
use std::alloc::Global;
use std::marker::Model;

/// What came of all that one sender heard.
#[derive(Drop)]
pub struct Tally {
    accepted: Vec<Accepted>,
    quota: u32,
    quit: bool,
    ring_full: u64,
    session_full: u64,
    ended: u64,
    packet_faults: u64,
    path_faults: [u64; 7],
    last: HeapCircularBuffer<Refusal>,
}

impl Model for Tally {
    ghost use Rattle.std.specs.Vec.{vec_capacity};
    ghost use Rattle.senders.specs.Tallies.{TallyOf, IsTally};
    ghost use Rattle.senders.specs.TallyFields.{tally_of};

    ghost Value = { TallyOf };

    ghost view = { λ t. tally_of t.quota t.accepted.items t.ring_full t.session_full t.ended
        t.packet_faults t.path_faults t.last.items };

    ghost invariant = { λ t. IsTally (tally_of t.quota t.accepted.items t.ring_full t.session_full
        t.ended t.packet_faults t.path_faults t.last.items) t.quit (vec_capacity t.accepted)
        t.last.capacity };
}

impl Tally {
    /// Nothing was heard yet. There is room for `quota` commands.
    pub fn new(alloc: Global, quota: u32) -> Result<Tally, Memory>
        requires within { quota ≤ 1048576 }
        ensures { IfOk result (λ tally. tally ≡ empty_tally quota) }
    {
        let Ok(accepted) = Vec::with_capacity(alloc, quota as usize) else {
            return Err(Memory);
        };
        let Ok(last) = HeapCircularBuffer::with_capacity(alloc, 32) else {
            return Err(Memory);
        };
        Ok(Tally {
            accepted,
            quota,
            quit: false,
            ring_full: 0,
            session_full: 0,
            ended: 0,
            packet_faults: 0,
            path_faults: [0; 7],
            last,
        })
    }

    /// A packet with a fault came.
    pub(crate) fn refuse_packet(&mut self, fault: PacketFault)
        ensures { self.new ≡ with_packet_fault fault self.old }
    {
        self.packet_faults = self.packet_faults.saturating_add(1);
        self.last.push_back(Refusal {
            group: 1,
            code: fault.kind.number(),
        });
    }

    /// A message with a fault came.
    pub(crate) fn refuse_path(&mut self, fault: PathFault)
        ensures { self.new ≡ with_path_fault fault self.old }
    {
        let number = fault.number();
        let place = number as usize - 1;
        self.path_faults[place] = self.path_faults[place].saturating_add(1);
        self.last.push_back(Refusal {
            group: 2,
            code: number,
        });
    }

    /// A command met a full ring.
    pub(crate) fn refuse_full(&mut self)
        ensures { self.new ≡ with_ring_full self.old }
    {
        self.ring_full = self.ring_full.saturating_add(1);
        self.last.push_back(Refusal { group: 3, code: 1 });
    }

    /// A command came when the quota was used up.
    pub(crate) fn refuse_used_up(&mut self)
        ensures { self.new ≡ with_session_full self.old }
    {
        self.session_full = self.session_full.saturating_add(1);
        self.last.push_back(Refusal { group: 3, code: 2 });
    }

    /// A command came behind a quit.
    pub(crate) fn refuse_ended(&mut self)
        ensures { self.new ≡ with_ended self.old }
    {
        self.ended = self.ended.saturating_add(1);
        self.last.push_back(Refusal { group: 3, code: 3 });
    }

    /// A command was accepted. No memory is taken.
    pub(crate) fn accept(&mut self, command: Command, answer: Option<ReturnTo>)
        requires room { length self.old.accepted < self.old.quota }
        ensures { self.new ≡ with_accepted (accepted command answer) self.old }
    {
        self.quit = self.quit || is_quit(&command);
        self.accepted.push_reserved(Accepted { command, answer });
    }

    /// The commands that were accepted, in order.
    pub fn accepted(&self) -> &[Accepted]
        ensures value { result.now ≡ self.now.accepted }
        ensures within { length self.now.accepted ≤ self.now.quota }
        ensures small { self.now.quota ≤ 1048576 }
    {
        &self.accepted
    }

    /// How many commands were accepted.
    pub fn count(&self) -> u32
        ensures value { result ≡ length self.now.accepted }
        ensures within { result ≤ self.now.quota }
    {
        self.accepted.len() as u32
    }

    /// How many may be.
    pub fn quota(&self) -> u32
        ensures { result ≡ self.now.quota }
    {
        self.quota
    }

    /// A quit was accepted.
    pub fn has_quit(&self) -> bool
        ensures { result ≡ has_quit self.now.accepted }
    {
        self.quit
    }

    pub fn ring_full(&self) -> u64
        ensures { result ≡ self.now.ring_full }
    {
        self.ring_full
    }

    pub fn session_full(&self) -> u64
        ensures { result ≡ self.now.session_full }
    {
        self.session_full
    }

    pub fn ended(&self) -> u64
        ensures { result ≡ self.now.ended }
    {
        self.ended
    }

    pub fn packet_faults(&self) -> u64
        ensures { result ≡ self.now.packet_faults }
    {
        self.packet_faults
    }

    /// The counts of the seven faults of a message, in their order.
    pub fn path_faults(&self) -> &[u64]
        ensures { result.now ≡ self.now.path_faults }
    {
        &self.path_faults
    }

    /// The last refusals, 32 at most.
    pub fn last(&self) -> &HeapCircularBuffer<Refusal>
        ensures { result.now.items ≡ self.now.last }
    {
        &self.last
    }
}
