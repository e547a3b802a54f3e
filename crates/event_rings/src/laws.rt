//! What holds of the definitions: each function's clause is a law, and its body is empty.

ghost use Rattle.std.specs.Prelude.{◌<◌, ℕ, List, [], ◌∷◌, ◌++◌, length, IsTrue};
ghost use Rattle.sl_commands.specs.Blocks.{may_all_follow};
ghost use Rattle.event_rings.specs.Rule.{IsRing};

use crate::taker::Taker;
use sl_commands::{Block, Item};

/// A put that is done leaves a ring: what is sent and what is held have the item at their ends.
pub fn a_put_leaves_a_ring<T: Item>()
    ensures { (sent taken held : List T) (capacity limit bound : ℕ) (item : T)
        → IsRing T.may_follow sent taken held capacity limit bound → length held < capacity →
        length sent < limit
        → T.may_follow sent item bound
        → IsRing T.may_follow (sent ++ item ∷ []) taken (held ++ item ∷ []) capacity limit bound }
{}

/// A take leaves a ring, and the item may follow those that were taken.
pub fn a_take_leaves_a_ring<T: Item>()
    ensures ring { (sent taken held : List T) (capacity limit bound : ℕ) (item : T)
        → IsRing T.may_follow sent taken (item ∷ held) capacity limit bound
        → IsRing T.may_follow sent (taken ++ item ∷ []) held capacity limit bound }
    ensures next { (sent taken held : List T) (capacity limit bound : ℕ) (item : T)
        → IsRing T.may_follow sent taken (item ∷ held) capacity limit bound →
        T.may_follow taken item bound }
{}

/// What a taker of blocks has taken is always in the order of blocks.
pub fn blocks_are_taken_in_order(taker: &Taker<Block>)
    ensures { IsTrue (may_all_follow [] taker.now.taken taker.now.bound) }
{
    taker.taken_in_order();
}
