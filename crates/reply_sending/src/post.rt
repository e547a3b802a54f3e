//! One reply, or the answers to pings, sent.

ghost use Rattle.std.specs.Prelude.{◌≡◌, [], ◌∷◌, option_copied};
ghost use Rattle.live_ports.specs.Links.{packet};
ghost use Rattle.reply_sending.specs.Answers.{return_for, pong_packet};
ghost use Rattle.reply_sending.specs.Posting.{Posted, PostedReply, PostedPongs};

use crate::answers::{write_pong, write_reply};
use arrayvec::ArrayVec;
use live_ports::Link;
use osc_paths::ReturnTo;
use osc_reader::MAX_MESSAGE;
use senders::{Accepted, Decision, OscSender};
use sl_base::Addr;
use sl_commands::Reply;
use sl_ports::SinkAnswer;

/// Where the reply to an accepted command goes. None where no command of OSC has its number, or
/// that one has no return address.
pub fn return_for<'a>(accepted: &'a [Accepted], reply: &Reply) -> Option<&'a ReturnTo>
    ensures { option_copied result ≡ return_for accepted.now reply.now }
{
    if reply.sender != 0 {
        return None;
    }
    match accepted.get(reply.seq as usize) {
        Some(accepted) => accepted.answer.as_ref(),
        None => None,
    }
}

/// Sends the bytes of a packet, or counts that they weren't sent.
fn send<L: Link>(link: &mut L, sender: &mut OscSender, to: Addr, bytes: &[u8])
    ensures { Posted (packet to bytes.now) (L.seen link.old) (L.seen link.new) sender.old
        sender.new }
{
    if link.send(to, bytes) == SinkAnswer::Failed {
        sender.note_unsent();
    }
}

/// Sends a reply to its return address, or counts that it wasn't sent. False exactly where it has
/// no such address, and then nothing is done.
pub fn send_reply<L: Link>(link: &mut L, sender: &mut OscSender, reply: Reply) -> bool
    ensures { PostedReply reply (L.seen link.old) (L.seen link.new) sender.old sender.new result }
{
    let mut out = ArrayVec::new();
    let Some(to) = return_for(sender.account().tally.accepted(), &reply) else {
        return false;
    };
    write_reply(&mut out, &to.path, reply);
    let addr = to.addr;
    send(link, sender, addr, out.as_slice());
    true
}

/// Sends the answer to a ping, or counts that it wasn't sent.
fn send_pong<L: Link>(link: &mut L, sender: &mut OscSender, to: &ReturnTo)
    ensures { Posted (pong_packet sender.old.loops to.now) (L.seen link.old) (L.seen link.new)
        sender.old sender.new }
{
    let mut out = ArrayVec::new();
    write_pong(&mut out, &to.path, sender.loops());
    send(link, sender, to.addr, out.as_slice());
}

/// Answers a ping, where the decision is one.
fn answer<L: Link>(link: &mut L, sender: &mut OscSender, decision: &Decision)
    ensures { PostedPongs (decision.now ∷ []) (L.seen link.old) (L.seen link.new) sender.old
        sender.new }
{
    match decision {
        Decision::Ping(to) => send_pong(link, sender, to),
        _ => {}
    }
}

/// Answers the pings among what came of a packet, in order, or counts those that weren't sent.
pub fn send_pongs<L: Link>(link: &mut L, sender: &mut OscSender, decisions: &[Decision])
    ensures { PostedPongs decisions.now (L.seen link.old) (L.seen link.new) sender.old sender.new }
{
    'decisions: for place in 0..decisions.len() {
        answer(link, sender, &decisions[place]);
    }
}
