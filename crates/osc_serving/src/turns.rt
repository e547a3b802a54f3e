//! One turn of serving OSC.

ghost use Rattle.std.specs.Prelude.{◌≡◌, true};
ghost use Rattle.osc_serving.specs.Serving.{osc_at};
ghost use Rattle.osc_serving.specs.Turns.{DidAll, DidTurn};

use crate::receiving::{Received, receive};
use crate::replies::send_replies;
use crate::serving::OscEnd;
use event_rings::Taker;
use live_ports::Link;
use senders::OscSender;
use sl_commands::Reply;
use std::alloc::Global;
use std::sync::Wait;

/// What came of a turn.
pub(crate) enum Turn {
    /// Serving goes on.
    Goes,
    /// The link is at its end: only replies are left.
    Waits,
    /// Serving ends.
    Ends(OscEnd),
}

/// Replies, a packet, and the look for the session's end.
pub(crate) fn link_turn<L: Link, R: Wait>(
    alloc: Global,
    wait: &R,
    link: &mut L,
    sender: &mut OscSender,
    replies: &mut Taker<Reply>,
    over: &mut Taker<u64>,
    buf: &mut [u8; 8192],
) -> Turn
    ensures { DidTurn (osc_at (L.seen link.old) sender.old replies.old over.old)
        (osc_at (L.seen link.new) sender.new replies.new over.new) result }
{
    if let Some(reply) = send_replies(wait, link, sender, replies) {
        return Turn::Ends(OscEnd::Strange(reply));
    }
    match receive(alloc, wait, link, sender, buf) {
        Received::Once => {}
        Received::AtEnd => return Turn::Waits,
        Received::Failed => return Turn::Ends(OscEnd::LinkFault),
        Received::NoMemory => return Turn::Ends(OscEnd::Memory),
    }
    if over.take(wait).is_some() {
        return Turn::Ends(OscEnd::Over);
    }
    Turn::Goes
}

/// Replies, and the look for the session's end, where the link is at its end. Some where serving
/// ends.
pub(crate) fn reply_turn<L: Link, R: Wait>(
    wait: &R,
    link: &mut L,
    sender: &mut OscSender,
    replies: &mut Taker<Reply>,
    over: &mut Taker<u64>,
) -> Option<OscEnd>
    requires ended { (L.seen link.old).ended ≡ true }
    ensures { DidAll (osc_at (L.seen link.old) sender.old replies.old over.old)
        (osc_at (L.seen link.new) sender.new replies.new over.new) result }
{
    if let Some(reply) = send_replies(wait, link, sender, replies) {
        return Some(OscEnd::Strange(reply));
    }
    if over.take(wait).is_some() {
        return Some(OscEnd::Over);
    }
    None
}
