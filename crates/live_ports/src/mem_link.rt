//! A link in memory.

ghost use Rattle.std.specs.Prelude.{◌≡◌, ◌≤◌, ◌++◌, ◌∷◌, [], length, false, OnOk, OnErr, IsTrue};
ghost use Rattle.sl_ports.specs.Texts.{is_failed};
ghost use Rattle.live_ports.specs.Calls.{untried, is_next};
ghost use Rattle.live_ports.specs.Links.{IsWithin, DidReceive, DidSend, packet, is_end};
ghost use Rattle.live_ports.specs.MemoryEnds.{link_seen, out_behind};

use crate::calls::{Calls, Due};
use crate::link::{Link, LinkAnswer, MAX_DATAGRAM};
use sl_base::{Addr, Memory};
use sl_ports::SinkAnswer;
use std::alloc::Global;
use std::marker::Model;

/// A packet that is kept, with the address that it comes from or was sent to.
#[derive(Drop)]
pub struct StoredPacket {
    addr: Addr,
    bytes: Vec<u8>,
}

impl Model for StoredPacket {
    ghost use Rattle.live_ports.specs.Links.{Packet};

    ghost Value = { Packet };

    ghost view = { λ p. record { addr = p.addr; bytes = p.bytes.items } };
}

impl StoredPacket {
    pub fn addr(&self) -> Addr
        ensures { result ≡ self.now.addr }
    {
        self.addr
    }

    pub fn bytes(&self) -> &[u8]
        ensures { result.now ≡ self.now.bytes }
    {
        self.bytes.as_slice()
    }
}

/// Gives the packets of a list, and keeps those that are sent. Receives and sends of given numbers
/// fail, and other receives give nothing for now.
#[derive(Drop)]
pub struct MemLink {
    alloc: Global,
    packets: Vec<StoredPacket>,
    next: usize,
    out: Vec<StoredPacket>,
    receives: Calls,
    sends: Calls,
    ended: bool,
}

impl Model for MemLink {
    ghost use Rattle.std.specs.Prelude.{length, drop};
    ghost use Rattle.live_ports.specs.MemoryEnds.{LinkState, IsPlace};

    ghost Value = { LinkState };

    ghost view = { λ l. record {
      left = drop l.next l.packets.items;
      out = l.out.items;
      receives = l.receives;
      sends = l.sends;
      ended = l.ended;
    } };

    ghost invariant = { λ l. IsPlace l.next (length l.packets.items) l.ended };
}

impl MemLink {
    /// No packets yet. The receives of the listed numbers, each counted from 1, are to fail, those
    /// of the second list to give nothing, and the sends of the third list to fail.
    pub fn new(
        alloc: Global,
        failing: Vec<u64>,
        idling: Vec<u64>,
        failing_sends: Vec<u64>,
    ) -> MemLink
        ensures { result ≡ record {
          left = [];
          out = [];
          receives = untried failing.items idling.items;
          sends = untried failing_sends.items [];
          ended = false;
        } }
    {
        MemLink {
            alloc,
            packets: Vec::new(alloc),
            next: 0,
            out: Vec::new(alloc),
            receives: Calls::new(failing, idling),
            sends: Calls::new(failing_sends, Vec::new(alloc)),
            ended: false,
        }
    }

    /// Puts a packet behind those that are to be received.
    pub fn give(&mut self, from: Addr, bytes: &[u8]) -> Result<(), Memory>
        requires goes_on { self.old.ended ≡ false }
        ensures goes_on { self.new.ended ≡ false }
        ensures ok { OnOk result (self.new ≡ record self.old {
          left = self.old.left ++ packet from bytes.now ∷ [];
        }) }
        ensures unchanged { OnErr result (self.new ≡ self.old) }
    {
        let bytes = Vec::from_slice(self.alloc, bytes).map_err(|_| Memory)?;
        self.packets
            .push(StoredPacket { addr: from, bytes })
            .map_err(|_| Memory)
    }

    /// The packets that were sent, in order.
    pub fn out(&self) -> &[StoredPacket]
        ensures { result.now ≡ self.now.out }
    {
        self.out.as_slice()
    }

    /// Gives the next packet, or the end.
    fn received(&mut self, buf: &mut [u8; 8192]) -> LinkAnswer
        requires goes_on { self.old.ended ≡ false }
        ensures within { IsWithin result }
        ensures did { DidReceive (link_seen self.old) (link_seen self.new) buf.new result }
    {
        let (_, left) = self.packets.split_at(self.next);
        let Some(packet) = left.first() else {
            self.ended = true;
            return LinkAnswer::End;
        };
        let (from, bytes) = (packet.addr(), packet.bytes());
        let count = MAX_DATAGRAM.min(bytes.len());
        buf[..count].copy_from_slice(&bytes[..count]);
        self.next += 1;
        LinkAnswer::Got(count, from)
    }

    /// Keeps a packet that was sent.
    fn keep(&mut self, to: Addr, bytes: &[u8]) -> Result<(), Memory>
        ensures ok { OnOk result (self.new ≡ record self.old {
          out = self.old.out ++ packet to bytes.now ∷ [];
        }) }
        ensures unchanged { OnErr result (self.new ≡ self.old) }
    {
        let bytes = Vec::from_slice(self.alloc, bytes).map_err(|_| Memory)?;
        self.out
            .push(StoredPacket { addr: to, bytes })
            .map_err(|_| Memory)
    }
}

impl Link for MemLink {
    ghost seen = { link_seen };

    fn recv(&mut self, buf: &mut [u8; 8192]) -> LinkAnswer
        ensures within { IsWithin result }
        ensures did { DidReceive (link_seen self.old) (link_seen self.new) buf.new result }
    {
        if self.ended {
            return LinkAnswer::End;
        }
        match self.receives.count() {
            Due::Failure => LinkAnswer::Failed,
            Due::Nothing => LinkAnswer::Idle,
            Due::Success => self.received(buf),
        }
    }

    fn send(&mut self, to: Addr, bytes: &[u8]) -> SinkAnswer
        ensures did { DidSend (packet to bytes.now) (link_seen self.old) (link_seen self.new)
            (is_failed result) }
        ensures listed { IsTrue (is_next self.old.sends.made self.old.sends.failing) →
            result ≡ SinkAnswer.Failed }
        ensures out { self.new.out ≡ out_behind self.old.out (packet to bytes.now) result }
    {
        match self.sends.count() {
            Due::Failure => return SinkAnswer::Failed,
            Due::Nothing => {
                self.sends.fail();
                return SinkAnswer::Failed;
            }
            Due::Success => {}
        }
        if self.keep(to, bytes).is_err() {
            self.sends.fail();
            return SinkAnswer::Failed;
        }
        SinkAnswer::Done
    }
}
