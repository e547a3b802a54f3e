//! Where packets come from and go to.

use sl_base::Addr;
use sl_ports::SinkAnswer;

/// The greatest number of bytes of a packet that is received whole.
pub const MAX_DATAGRAM: usize = 8192;

/// What came of a receive.
#[derive(Clone, Copy, Debug, PartialEq, Eq)]
pub enum LinkAnswer {
    /// A packet of so many bytes, and its sender. A longer one is cut.
    Got(usize, Addr),
    /// Nothing for now. The count of idle answers was raised.
    Idle,
    /// No packet is left, and no later receive gives anything else.
    End,
    /// The receive failed, and its count was raised.
    Failed,
}

/// Receives and sends packets: a socket, a list in memory.
pub trait Link: Drop {
    ghost use Rattle.sl_ports.specs.Texts.{is_failed};
    ghost use Rattle.live_ports.specs.Links.{LinkSeen, IsWithin, packet, DidReceive, DidSend};

    // What is left and was sent, the counts of receives and sends that failed and of idle answers,
    // and whether it has ended.
    ghost seen: { Self → LinkSeen };

    /// The next packet, in the first bytes of the buffer. It takes no memory of the caller.
    fn recv(&mut self, buf: &mut [u8; 8192]) -> LinkAnswer
        ensures within { IsWithin result }
        ensures did { DidReceive (seen self.old) (seen self.new) buf.new result };

    /// Sends one packet, whole or not at all. It takes no memory of the caller.
    fn send(&mut self, to: Addr, bytes: &[u8]) -> SinkAnswer
        ensures did { DidSend (packet to bytes.now) (seen self.old) (seen self.new)
            (is_failed result) };
}
