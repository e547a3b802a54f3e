//! The ends of the rings once all have come back.

ghost use Rattle.std.specs.Prelude.{◌≡◌};
ghost use Rattle.live_rings.specs.Rings.{SameNames};
ghost use Rattle.live_rings.specs.Meeting.{HaveMet, MetBy};

use crate::rings::{Ring, Rings};
use event_rings::{Met, meet};
use sl_commands::{Block, Command, Item, Reply};
use std::sync::Wait;

/// The five rings of a session, each with its two ends in one.
#[derive(Drop)]
pub struct MetRings {
    pub osc: Met<Command>,
    pub midi: Met<Command>,
    pub saver: Met<u8>,
    pub replies: Met<Reply>,
    pub blocks: Met<Block>,
}

/// Brings the two ends of a ring together.
fn meet_ring<T: Item, W: Wait>(wait: &W, ring: Ring<T>) -> Met<T>
    requires { ring.putter.name ≡ ring.taker.name }
    ensures { MetBy T.may_follow ring.putter ring.taker result }
{
    let Ring { putter, taker } = ring;
    meet(wait, putter, taker)
}

/// Brings the two ends of each of the five rings together.
pub fn meet_rings<W: Wait>(wait: &W, rings: Rings) -> MetRings
    requires { SameNames rings }
    ensures { HaveMet rings result }
{
    let Rings {
        osc,
        midi,
        saver,
        replies,
        blocks,
    } = rings;
    MetRings {
        osc: meet_ring(wait, osc),
        midi: meet_ring(wait, midi),
        saver: meet_ring(wait, saver),
        replies: meet_ring(wait, replies),
        blocks: meet_ring(wait, blocks),
    }
}
