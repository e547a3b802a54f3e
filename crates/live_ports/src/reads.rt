//! What a real source tells of the reads that it made.

ghost use Rattle.std.specs.Prelude.{◌≡◌, ◌≤◌, length, false, IfOk};
ghost use Rattle.live_ports.specs.Sources.{DidRead, IsWithin, unread, untold};

use crate::source::SourceAnswer;
use std::io;
use std::io::ErrorKind;
use std::marker::Model;

/// The counts of a real source, whether it has ended, and the first error. What is left isn't told.
#[derive(Drop)]
pub struct Reads {
    faults: u64,
    idles: u64,
    ended: bool,
    first: Option<io::Error>,
}

impl Model for Reads {
    ghost use Rattle.live_ports.specs.Sources.{ReadCounts};

    ghost Value = { ReadCounts };

    ghost view = { λ r. record { faults = r.faults; idles = r.idles; ended = r.ended } };
}

impl Reads {
    /// None was made yet. An error may have come when the source was opened.
    pub fn new(first: Option<io::Error>) -> Reads
        ensures { result ≡ unread }
    {
        Reads {
            faults: 0,
            idles: 0,
            ended: false,
            first,
        }
    }

    pub fn has_ended(&self) -> bool
        ensures { result ≡ self.now.ended }
    {
        self.ended
    }

    pub fn first_fault(&self) -> Option<&io::Error> {
        self.first.as_ref()
    }

    /// Nothing is left.
    pub fn end(&mut self, buf: &[u8]) -> SourceAnswer
        ensures within { IsWithin (length buf.now) result }
        ensures did { DidRead (untold self.old) (untold self.new) buf.now result }
    {
        self.ended = true;
        SourceAnswer::End
    }

    /// Nothing came for now.
    pub fn idle(&mut self, buf: &[u8]) -> SourceAnswer
        requires goes_on { self.old.ended ≡ false }
        ensures within { IsWithin (length buf.now) result }
        ensures did { DidRead (untold self.old) (untold self.new) buf.now result }
    {
        self.idles = self.idles.saturating_add(1);
        SourceAnswer::Idle
    }

    /// A read failed.
    pub fn fail(&mut self, buf: &[u8]) -> SourceAnswer
        requires goes_on { self.old.ended ≡ false }
        ensures within { IsWithin (length buf.now) result }
        ensures did { DidRead (untold self.old) (untold self.new) buf.now result }
    {
        self.faults = self.faults.saturating_add(1);
        SourceAnswer::Failed
    }

    /// What came of a read of the system into a buffer. To read no byte is the end. A read that a
    /// signal broke off, or that would have waited, gave nothing for now.
    pub fn answer(&mut self, read: io::Result<usize>, buf: &[u8]) -> SourceAnswer
        requires goes_on { self.old.ended ≡ false }
        requires within { IfOk read (λ count. count ≤ length buf.now) }
        ensures within { IsWithin (length buf.now) result }
        ensures did { DidRead (untold self.old) (untold self.new) buf.now result }
    {
        match read {
            Ok(0) => self.end(buf),
            Ok(count) => SourceAnswer::Got(count),
            Err(e) => {
                if matches!(e.kind(), ErrorKind::WouldBlock | ErrorKind::Interrupted) {
                    return self.idle(buf);
                }
                if self.first.is_none() {
                    self.first = Some(e);
                }
                self.fail(buf)
            }
        }
    }
}
