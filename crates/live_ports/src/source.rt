//! Where bytes come from.

/// What came of a read.
#[derive(Clone, Copy, Debug, PartialEq, Eq)]
pub enum SourceAnswer {
    /// So many bytes, the next ones.
    Got(usize),
    /// Nothing for now. The count of idle answers was raised.
    Idle,
    /// Nothing is left, and no later read gives anything else.
    End,
    /// The read failed, and the count of faults was raised.
    Failed,
}

/// Gives bytes in order: raw audio, a MIDI device, a list in memory.
pub trait Source: Drop {
    ghost use Rattle.std.specs.Prelude.{◌≤◌, length};
    ghost use Rattle.live_ports.specs.Sources.{SourceSeen, IsWithin, DidRead};

    // What is left, the counts of faults and of idle answers, and whether it has ended.
    ghost seen: { Self → SourceSeen };

    /// Reads the next bytes into a buffer with room for some. It takes no memory of the caller.
    fn read(&mut self, buf: &mut [u8]) -> SourceAnswer
        requires room { 1 ≤ length buf.old }
        ensures within { IsWithin (length buf.old) result }
        ensures did { DidRead (seen self.old) (seen self.new) buf.new result };
}
