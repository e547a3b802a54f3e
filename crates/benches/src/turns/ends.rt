//! A source that never ends and a sink that keeps nothing.

ghost use Rattle.std.specs.Prelude.{◌≡◌, ◌≤◌, false, None};

use live_ports::{Source, SourceAnswer};
use sl_ports::{Sink, SinkAnswer};

/// How many bytes stand one behind another.
pub const BYTES: usize = 32768;

/// Gives the same bytes again and again.
#[derive(Drop)]
pub struct Round {
    pub bytes: [u8; BYTES],
    pub next: usize,
}

impl Source for Round {
    ghost seen = { λ _. record { left = None; faults = 0; idles = 0; ended = false } };

    fn read(&mut self, buf: &mut [u8]) -> SourceAnswer {
        if self.next >= BYTES {
            self.next = 0;
        }
        let (_, left) = self.bytes.split_at(self.next);
        let count = left.len().min(buf.len());
        buf[..count].copy_from_slice(&left[..count]);
        self.next += count;
        SourceAnswer::Got(count)
    }
}

/// Takes all bytes, and adds up the first of each write, so that no work is in vain.
#[derive(Drop)]
pub struct Away {
    pub sum: u64,
}

impl Sink for Away {
    ghost faults = { λ _. 0 };

    ghost held = { λ _. None };

    fn write_all(&mut self, bytes: &[u8]) -> SinkAnswer {
        if let [first, ..] = bytes {
            self.sum = self.sum.wrapping_add(*first as u64);
        }
        SinkAnswer::Done
    }
}
