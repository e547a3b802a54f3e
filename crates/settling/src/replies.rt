//! Telling replies.

ghost use Rattle.std.specs.Prelude.{List, option_to_list};
ghost use Rattle.sl_commands.specs.declared.Reply.{Reply};
ghost use Rattle.settling.specs.Settled.{IsLeft};

use crate::teller::Teller;
use event_rings::Met;
use sl_commands::Reply;
use std::sync::Wait;

/// Tells a reply, where there is one.
pub(crate) fn tell_some<T: Teller>(teller: &mut T, reply: Option<Reply>)
    ensures { T.tells teller.old (option_to_list reply) teller.new }
{
    T::telling_composes();
    match reply {
        Some(reply) => teller.tell(reply),
        None => {}
    }
}

/// Tells the replies that are left in their ring.
pub(crate) fn settle_replies<T: Teller, W: Wait>(wait: &W, met: &mut Met<Reply>, teller: &mut T)
    ensures left { (rest : List Reply) × IsLeft met.old rest × T.tells teller.old rest teller.new }
{
    T::telling_composes();
    'draining: for _ in wait.forever() {
        let Some(reply) = met.drain(wait) else {
            return;
        };
        teller.tell(reply);
    }
    unreachable!()
}
