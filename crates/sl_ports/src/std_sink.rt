//! Standard output as a sink.

ghost use Rattle.std.specs.Prelude.{◌≡◌, None};

use crate::sinks::{Sink, SinkAnswer};
use crate::transfer::write_whole;
use std::io;
use std::marker::Model;

/// Writes to standard output, at once and with no buffer. It tells nothing of what was written, and
/// remembers the first error.
#[derive(Drop)]
pub struct StdSink<R> {
    rt: R,
    faults: u64,
    first: Option<io::Error>,
}

impl<R> Model for StdSink<R> {
    ghost use Rattle.std.specs.Prelude.{ℕ};

    ghost Value = { ℕ };

    ghost view = { λ s. s.faults };
}

impl<R> StdSink<R> {
    /// The standard output of this runtime. Contracts see the sink as its count of faults.
    pub fn new(rt: R) -> StdSink<R>
        ensures { result ≡ 0 }
    {
        StdSink {
            rt,
            faults: 0,
            first: None,
        }
    }

    /// The system's error at the first write that failed, if any did.
    pub fn first_fault(&self) -> Option<&io::Error> {
        self.first.as_ref()
    }
}

impl<R: Print + Drop> Sink for StdSink<R> {
    ghost faults = { λ s. s };

    ghost held = { λ _. None };

    fn write_all(&mut self, bytes: &[u8]) -> SinkAnswer {
        match write_whole(&mut io::writer(&self.rt), bytes) {
            Ok(()) => SinkAnswer::Done,
            Err(e) => {
                self.faults = self.faults.saturating_add(1);
                if self.first.is_none() {
                    self.first = Some(e);
                }
                SinkAnswer::Failed
            }
        }
    }
}
