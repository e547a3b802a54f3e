//! The blocks that a turn puts.

ghost use Rattle.std.specs.Prelude.{◌≡◌, ◌≢◌, ◌+◌, length, IfSome, IfNone};
ghost use Rattle.audio_ends.specs.declared.stop.Stop.TheVariants.{Budget};
ghost use Rattle.audio_ends.specs.Ends.{MayTurn};
ghost use Rattle.audio_ends.specs.Turns.{Stays, BlockCause};

use audio_ends::{RingEnds, Stop, Way};
use looper_engine::Engine;

/// The most blocks that are put in a turn.
const MOST_PUT: usize = 64;

/// Puts the next block. None if more may be put.
fn put_one<Y: Way>(way: &Y, engine: &mut Engine, ends: &mut RingEnds) -> Option<Stop>
    requires may { MayTurn engine.old ends.old }
    ensures stays { Stays engine.old engine.new ends.old ends.new }
    ensures journal { engine.new.journal ≡ engine.old.journal }
    ensures more { IfNone result (length ends.new.blocks.sent ≡ length ends.old.blocks.sent + 1) }
    ensures cause { IfSome result (λ s. BlockCause engine.new ends.old ends.new s × (s ≢ Budget)) }
{
    let Some(block) = engine.next_block() else {
        return Some(Stop::Emptied);
    };
    if !ends.put_block(way, block) {
        return Some(Stop::Held);
    }
    engine.block_sent();
    None
}

/// Puts at most 64 blocks.
pub(crate) fn put_blocks<Y: Way>(way: &Y, engine: &mut Engine, ends: &mut RingEnds) -> Stop
    requires may { MayTurn engine.old ends.old }
    ensures stays { Stays engine.old engine.new ends.old ends.new }
    ensures journal { engine.new.journal ≡ engine.old.journal }
    ensures cause { BlockCause engine.new ends.old ends.new result }
{
    for _ in 0..MOST_PUT {
        if let Some(stop) = put_one(way, engine, ends) {
            return stop;
        }
    }
    Stop::Budget
}
