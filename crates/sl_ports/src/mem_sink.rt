//! A sink in memory.

ghost use Rattle.std.specs.Prelude.{◌≡◌, [], Some, IsTrue};
ghost use Rattle.sl_ports.specs.Calls.{untried, is_to_fail, counted};
ghost use Rattle.sl_ports.specs.MemoryEnds.{bytes_after};
ghost use Rattle.sl_ports.specs.Texts.{is_failed};

use crate::calls::Calls;
use crate::sinks::{Sink, SinkAnswer};
use std::alloc::Global;
use std::marker::Model;

/// Holds what is written to it. Writes of given numbers fail and append nothing, and so does one
/// whose memory is refused.
#[derive(Drop)]
pub struct MemSink {
    bytes: Vec<u8>,
    calls: Calls,
}

impl Model for MemSink {
    ghost use Rattle.sl_ports.specs.MemoryEnds.{SinkState};

    ghost Value = { SinkState };

    ghost view = { λ s. record { bytes = s.bytes.items; calls = s.calls } };
}

impl MemSink {
    /// An empty sink. Its writes of the listed numbers, counted from 1, are to fail.
    pub fn new(alloc: Global, failing: Vec<u64>) -> MemSink
        ensures { result ≡ record { bytes = []; calls = untried failing.items } }
    {
        MemSink {
            bytes: Vec::new(alloc),
            calls: Calls::new(failing),
        }
    }

    /// The bytes taken so far, oldest first.
    pub fn bytes(&self) -> &[u8]
        ensures { result.now ≡ self.now.bytes }
    {
        self.bytes.as_slice()
    }
}

impl Sink for MemSink {
    ghost faults = { λ s. s.calls.faults };

    ghost held = { λ s. Some s.bytes };

    fn write_all(&mut self, bytes: &[u8]) -> SinkAnswer
        ensures listed { IsTrue (is_to_fail self.old.calls) → result ≡ SinkAnswer.Failed }
        ensures after { self.new ≡ record {
          bytes = bytes_after self.old.bytes bytes.now result;
          calls = counted self.old.calls (is_failed result);
        } }
    {
        if self.calls.count() {
            return SinkAnswer::Failed;
        }
        if self.bytes.extend_from_slice(bytes).is_err() {
            self.calls.fail();
            return SinkAnswer::Failed;
        }
        SinkAnswer::Done
    }
}
