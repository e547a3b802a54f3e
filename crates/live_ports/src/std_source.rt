//! Standard input as a source.

ghost use Rattle.std.specs.Prelude.{◌≡◌};
ghost use Rattle.live_ports.specs.Sources.{unread, untold};

use crate::reads::Reads;
use crate::source::{Source, SourceAnswer};
use std::io;
use std::io::Read;
use std::marker::Model;

/// Reads standard input, or another reader that waits for its next byte. A read gives what has
/// come, and waits where nothing has. It tells nothing of what it holds.
#[derive(Drop)]
pub struct StdSource<I> {
    input: I,
    reads: Reads,
}

impl<I> Model for StdSource<I> {
    ghost use Rattle.live_ports.specs.Sources.{ReadCounts};

    ghost Value = { ReadCounts };

    ghost view = { λ s. s.reads };
}

impl<I> StdSource<I> {
    /// A source over this reader, of which nothing was read.
    pub fn new(input: I) -> StdSource<I>
        ensures { result ≡ unread }
    {
        StdSource {
            input,
            reads: Reads::new(None),
        }
    }

    /// The system's error at the first read that failed, if any did.
    pub fn first_fault(&self) -> Option<&io::Error> {
        self.reads.first_fault()
    }
}

impl<I: Read + Drop> Source for StdSource<I> {
    ghost seen = { untold };

    fn read(&mut self, buf: &mut [u8]) -> SourceAnswer {
        if self.reads.has_ended() {
            return self.reads.end(buf);
        }
        let read = self.input.read(buf);
        self.reads.answer(read, buf)
    }
}
