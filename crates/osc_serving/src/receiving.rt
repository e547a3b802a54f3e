//! One receive.

ghost use Rattle.osc_serving.specs.Turns.{DidReceiveOnce};

use live_ports::{Link, LinkAnswer};
use reply_sending::send_pongs;
use senders::OscSender;
use std::alloc::Global;
use std::sync::Wait;

/// What came of a receive.
pub(crate) enum Received {
    /// A packet, which was heard, or nothing for now.
    Once,
    /// The link is at its end.
    AtEnd,
    /// The receive failed.
    Failed,
    /// A packet, and there was no memory to hear it.
    NoMemory,
}

/// Receives once. A packet that comes is heard, and the pings in it are answered.
pub(crate) fn receive<L: Link, R: Wait>(
    alloc: Global,
    wait: &R,
    link: &mut L,
    sender: &mut OscSender,
    buf: &mut [u8; 8192],
) -> Received
    ensures { DidReceiveOnce (L.seen link.old) (L.seen link.new) sender.old sender.new result }
{
    match link.recv(buf) {
        LinkAnswer::Got(count, from) => {
            match sender.packet(alloc, wait, &buf[..count], from) {
                Ok(decisions) => {
                    send_pongs(link, sender, decisions.as_slice());
                    Received::Once
                }
                Err(_) => Received::NoMemory,
            }
        }
        LinkAnswer::Idle => Received::Once,
        LinkAnswer::End => Received::AtEnd,
        LinkAnswer::Failed => Received::Failed,
    }
}
