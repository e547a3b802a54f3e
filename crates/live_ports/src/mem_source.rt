//! A source in memory.

ghost use Rattle.std.specs.Prelude.{◌≡◌, ◌≤◌, length, false, ◌||◌};
ghost use Rattle.live_ports.specs.Calls.{untried, due, counted};
ghost use Rattle.live_ports.specs.Sources.{IsWithin, DidRead, is_end};
ghost use Rattle.live_ports.specs.MemoryEnds.{source_seen, answer_of, left_behind};

use crate::calls::{Calls, Due};
use crate::source::{Source, SourceAnswer};
use std::marker::Model;

/// Gives the bytes of a list, as many as fit. Reads of given numbers fail, and others give nothing
/// for now.
#[derive(Drop)]
pub struct MemSource {
    bytes: Vec<u8>,
    next: usize,
    calls: Calls,
    ended: bool,
}

impl Model for MemSource {
    ghost use Rattle.std.specs.Prelude.{length, drop};
    ghost use Rattle.live_ports.specs.MemoryEnds.{SourceState, IsPlace};

    ghost Value = { SourceState };

    ghost view = { λ s. record {
      left = drop s.next s.bytes.items;
      calls = s.calls;
      ended = s.ended;
    } };

    ghost invariant = { λ s. IsPlace s.next (length s.bytes.items) s.ended };
}

impl MemSource {
    /// The bytes. The reads of the listed numbers, counted from 1, are to fail, and those of the
    /// second list to give nothing.
    pub fn new(bytes: Vec<u8>, failing: Vec<u64>, idling: Vec<u64>) -> MemSource
        ensures { result ≡ record {
          left = bytes.items;
          calls = untried failing.items idling.items;
          ended = false;
        } }
    {
        MemSource {
            bytes,
            next: 0,
            calls: Calls::new(failing, idling),
            ended: false,
        }
    }

    /// Gives what fits and is left, or the end.
    fn give(&mut self, buf: &mut [u8]) -> SourceAnswer
        requires room { 1 ≤ length buf.old }
        requires goes_on { self.old.ended ≡ false }
        ensures within { IsWithin (length buf.old) result }
        ensures value { result ≡ answer_of false Due.Success (length buf.old) self.old.left }
        ensures did { DidRead (source_seen self.old) (source_seen self.new) buf.new result }
        ensures after { self.new ≡ record self.old {
          left = left_behind self.old.left result;
          ended = is_end result;
        } }
    {
        let (_, left) = self.bytes.split_at(self.next);
        if left.is_empty() {
            self.ended = true;
            return SourceAnswer::End;
        }
        let count = left.len().min(buf.len());
        buf[..count].copy_from_slice(&left[..count]);
        self.next += count;
        SourceAnswer::Got(count)
    }
}

impl Source for MemSource {
    ghost seen = { source_seen };

    fn read(&mut self, buf: &mut [u8]) -> SourceAnswer
        requires room { 1 ≤ length buf.old }
        ensures within { IsWithin (length buf.old) result }
        ensures did { DidRead (source_seen self.old) (source_seen self.new) buf.new result }
        ensures value { result ≡ answer_of self.old.ended (due self.old.calls) (length buf.old)
            self.old.left }
    {
        if self.ended {
            return SourceAnswer::End;
        }
        match self.calls.count() {
            Due::Failure => SourceAnswer::Failed,
            Due::Nothing => SourceAnswer::Idle,
            Due::Success => self.give(buf),
        }
    }
}
