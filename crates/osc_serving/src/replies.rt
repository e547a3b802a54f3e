//! The replies that are there.

ghost use Rattle.std.specs.Prelude.{ℕ};
ghost use Rattle.event_rings.specs.Ends.{TakeEnd};
ghost use Rattle.osc_serving.specs.Serving.{osc_at};
ghost use Rattle.osc_serving.specs.Turns.{TookAll};

use event_rings::Taker;
use live_ports::Link;
use reply_sending::send_reply;
use senders::OscSender;
use sl_commands::Reply;
use std::sync::Wait;

/// Takes replies until there are none, and sends each. Some with one that has no return address.
pub(crate) fn send_replies<L: Link, R: Wait>(
    wait: &R,
    link: &mut L,
    sender: &mut OscSender,
    replies: &mut Taker<Reply>,
) -> Option<Reply>
    ensures { (over : TakeEnd ℕ) → TookAll (osc_at (L.seen link.old) sender.old replies.old over)
        (osc_at (L.seen link.new) sender.new replies.new over) result }
{
    'replies: for _ in wait.forever() {
        let Some(reply) = replies.take(wait) else {
            return None;
        };
        if !send_reply(link, sender, reply) {
            return Some(reply);
        }
    }
    unreachable!()
}
