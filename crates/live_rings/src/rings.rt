//! The making of all rings of a session.

ghost use Rattle.std.specs.Prelude.{◌≤◌, IfOk};
ghost use Rattle.sl_base.specs.Limits.{max_quota};
ghost use Rattle.event_rings.specs.Ends.{IsNew, max_capacity, max_limit};
ghost use Rattle.live_rings.specs.Rings.{AreNew, AreNewOvers};

use event_rings::{MAX_LIMIT, Putter, Taker, ring_with};
use sl_base::Memory;
use sl_commands::{Block, Command, Item, Reply};
use std::alloc::Global;
use std::sync::Wait;

/// How many items a ring of commands, outcomes or replies holds.
pub const RING_ITEMS: usize = 256;
/// How many blocks the ring of blocks holds.
pub const RING_BLOCKS: usize = 64;

/// The two ends of a ring.
#[derive(Drop)]
pub struct Ring<T: Item> {
    pub putter: Putter<T>,
    pub taker: Taker<T>,
}

/// The rings between the activity of audio and the others.
#[derive(Drop)]
pub struct Rings {
    pub osc: Ring<Command>,
    pub midi: Ring<Command>,
    pub saver: Ring<u8>,
    pub replies: Ring<Reply>,
    pub blocks: Ring<Block>,
}

/// The rings that tell each of the others that the activity of audio is over.
#[derive(Drop)]
pub struct OverRings {
    pub osc: Ring<u64>,
    pub midi: Ring<u64>,
    pub saver: Ring<u64>,
}

/// A new ring with these numbers.
fn ring_of<T: Item, W: Wait>(
    alloc: Global,
    wait: &W,
    capacity: usize,
    limit: u64,
    bound: u64,
) -> Result<Ring<T>, Memory>
    requires least { 1 ≤ capacity }
    requires most { capacity ≤ max_capacity }
    requires limit { limit ≤ max_limit }
    ensures { IfOk result (λ r. IsNew capacity limit bound r.putter r.taker) }
{
    let (putter, taker) = ring_with(alloc, wait, capacity, limit, bound)?;
    Ok(Ring { putter, taker })
}

/// The five rings of a session in which each of OSC and MIDI has `quota` commands at most, 1048576
/// at most.
pub fn live_rings<W: Wait>(alloc: Global, wait: &W, quota: u32) -> Result<Rings, Memory>
    requires { quota ≤ max_quota }
    ensures { IfOk result (AreNew quota) }
{
    let once = quota as u64;
    let twice = 2 * once;
    Ok(Rings {
        osc: ring_of(alloc, wait, RING_ITEMS, once, 0)?,
        midi: ring_of(alloc, wait, RING_ITEMS, once, 0)?,
        saver: ring_of(alloc, wait, RING_ITEMS, twice, 0)?,
        replies: ring_of(alloc, wait, RING_ITEMS, MAX_LIMIT, 0)?,
        blocks: ring_of(alloc, wait, RING_BLOCKS, MAX_LIMIT, twice)?,
    })
}

/// The three rings that tell that audio is over, each for one number.
pub fn over_rings<W: Wait>(alloc: Global, wait: &W) -> Result<OverRings, Memory>
    ensures { IfOk result AreNewOvers }
{
    Ok(OverRings {
        osc: ring_of(alloc, wait, 1, 1, 0)?,
        midi: ring_of(alloc, wait, 1, 1, 0)?,
        saver: ring_of(alloc, wait, 1, 1, 0)?,
    })
}
