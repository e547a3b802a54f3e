//! Replies told over a link, once the activity of OSC has returned.

ghost use Rattle.std.specs.Prelude.{◌≡◌};
ghost use Rattle.live_ports.specs.Links.{packet};
ghost use Rattle.reply_sending.specs.Answers.{reply_packet};
ghost use Rattle.live_core.specs.Telling.{PostedTo};

use arrayvec::ArrayVec;
use live_ports::Link;
use osc_paths::ReturnTo;
use reply_sending::{return_for, write_reply};
use senders::Account;
use settling::Teller;
use sl_base::Addr;
use sl_commands::Reply;
use sl_ports::SinkAnswer;

/// A link, and the account by which each reply has its return address. A reply whose send failed is
/// counted there as not sent.
#[derive(Drop)]
pub struct LinkTeller<L: Link> {
    pub link: L,
    pub account: Account,
}

/// Sends a packet, or counts that it wasn't sent.
fn post<L: Link>(link: &mut L, unsent: &mut u64, to: Addr, bytes: &[u8])
    ensures { PostedTo (packet to bytes.now) (L.seen link.old) (L.seen link.new) unsent.old
        unsent.new }
{
    if link.send(to, bytes) == SinkAnswer::Failed {
        *unsent = unsent.saturating_add(1);
    }
}

/// Sends a reply to this address, or counts that it wasn't sent.
fn send_to<L: Link>(link: &mut L, unsent: &mut u64, to: &ReturnTo, reply: Reply)
    ensures { PostedTo (reply_packet reply to.now) (L.seen link.old) (L.seen link.new) unsent.old
        unsent.new }
{
    let mut out = ArrayVec::new();
    write_reply(&mut out, &to.path, reply);
    post(link, unsent, to.addr, out.as_slice());
}

impl<L: Link> Teller for LinkTeller<L> {
    ghost use Rattle.live_core.specs.Telling.{TellsMore};

    ghost tells = { λ a more b. TellsMore more (L.seen a.link) (L.seen b.link)
        a.account b.account };

    #[tactic(auto, using(crate::proofs::TellingLemmas::tells_one, crate::proofs::TellingLemmas::tells_nowhere))]
    fn tell(&mut self, reply: Reply) {
        match return_for(self.account.tally.accepted(), &reply) {
            Some(to) => send_to(&mut self.link, &mut self.account.unsent, to, reply),
            None => {}
        }
    }

    fn telling_composes() {}
}
