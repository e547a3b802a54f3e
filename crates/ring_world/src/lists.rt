//! The lists of a world.

ghost use Rattle.std.specs.Prelude.{◌≡◌, IfOk};
ghost use Rattle.ring_world.specs.Worlds.{first_lists};

use crate::output::Output;
use crate::remembered::Remembered;
use crate::ring::Ring;
use looper_engine::Engine;
use sl_base::Memory;
use sl_commands::{Block, Command, Reply};
use std::alloc::Global;

/// An engine with its five rings, as lists: commands of senders 0 and 1, outcomes of saves, replies
/// and blocks. A reply that found its ring full is held. Outcomes are remembered until they are
/// put. `full` counts the commands that found their ring full. Output is kept whole.
#[derive(Drop)]
pub struct Lists {
    pub engine: Engine,
    pub osc: Ring<Command>,
    pub midi: Ring<Command>,
    pub saver: Ring<u8>,
    pub replies: Ring<Reply>,
    pub blocks: Ring<Block>,
    pub held: Option<Reply>,
    pub remembered: Remembered,
    pub full: u64,
    pub output: Output,
}

/// The capacity of the rings of commands, outcomes and replies.
const ITEMS: usize = 256;

/// The capacity of the ring of blocks.
const BLOCKS: usize = 64;

impl Lists {
    /// Nothing passed the rings of this engine yet.
    pub fn new(alloc: Global, engine: Engine) -> Result<Lists, Memory>
        ensures { IfOk result (λ lists. lists ≡ first_lists engine) }
    {
        Ok(Lists {
            engine,
            osc: Ring::new(alloc, ITEMS)?,
            midi: Ring::new(alloc, ITEMS)?,
            saver: Ring::new(alloc, ITEMS)?,
            replies: Ring::new(alloc, ITEMS)?,
            blocks: Ring::new(alloc, BLOCKS)?,
            held: None,
            remembered: Remembered::new(alloc),
            full: 0,
            output: Output::new(alloc),
        })
    }
}
