//! Serving OSC.

ghost use Rattle.std.specs.Prelude.{◌≡◌, true};
ghost use Rattle.osc_serving.specs.Serving.{osc_at, OscDid};
ghost use Rattle.osc_serving.specs.Turns.{DidAll};

use crate::turns::{Turn, link_turn, reply_turn};
use event_rings::Taker;
use live_ports::Link;
use senders::OscSender;
use sl_commands::Reply;
use std::alloc::Global;
use std::sync::Wait;
use std::thread;
use std::time::{Clock, Duration};

/// How long it pauses where only replies are left and there are none, in milliseconds.
const PAUSE: u64 = 1;

/// Why serving OSC ended.
#[derive(Clone, Copy, PartialEq, Eq)]
pub enum OscEnd {
    /// The session is over.
    Over,
    /// A receive failed, and the link's count of receives rose.
    LinkFault,
    /// There was no memory to hear a packet.
    Memory,
    /// This reply has no return address.
    Strange(Reply),
}

/// Serves replies and packets until the link is at its end. Some where serving ends before.
fn serve_link<L: Link, R: Wait>(
    alloc: Global,
    wait: &R,
    link: &mut L,
    sender: &mut OscSender,
    replies: &mut Taker<Reply>,
    over: &mut Taker<u64>,
) -> Option<OscEnd>
    ensures { DidAll (osc_at (L.seen link.old) sender.old replies.old over.old)
        (osc_at (L.seen link.new) sender.new replies.new over.new) result }
{
    let mut buf = [0; 8192];
    'turns: for _ in wait.forever() {
        match link_turn(alloc, wait, link, sender, replies, over, &mut buf) {
            Turn::Goes => {}
            Turn::Waits => return None,
            Turn::Ends(ended) => return Some(ended),
        }
    }
    unreachable!()
}

/// Serves the replies that still come, where the link is at its end.
fn serve_replies<L: Link, R: Wait + Clock>(
    rt: &R,
    link: &mut L,
    sender: &mut OscSender,
    replies: &mut Taker<Reply>,
    over: &mut Taker<u64>,
) -> OscEnd
    requires ended { (L.seen link.old).ended ≡ true }
    ensures { OscDid (osc_at (L.seen link.old) sender.old replies.old over.old)
        (osc_at (L.seen link.new) sender.new replies.new over.new) result }
{
    'turns: for _ in rt.forever() {
        if let Some(ended) = reply_turn(rt, link, sender, replies, over) {
            return ended;
        }
        thread::sleep(rt, Duration::from_millis(PAUSE));
    }
    unreachable!()
}

/// Serves OSC until the session is over, which `over` tells by a number, or a cause of its own ends
/// it. It may wait for the link and for the other ends of the rings. Memory is taken for what comes
/// of each packet.
pub fn serve_osc<L: Link, R: Wait + Clock>(
    alloc: Global,
    rt: &R,
    link: &mut L,
    sender: &mut OscSender,
    replies: &mut Taker<Reply>,
    over: &mut Taker<u64>,
) -> OscEnd
    ensures { OscDid (osc_at (L.seen link.old) sender.old replies.old over.old)
        (osc_at (L.seen link.new) sender.new replies.new over.new) result }
{
    match serve_link(alloc, rt, link, sender, replies, over) {
        Some(ended) => ended,
        None => serve_replies(rt, link, sender, replies, over),
    }
}
