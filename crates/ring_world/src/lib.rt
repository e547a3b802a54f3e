//! The world on one thread: a whole session as a list of steps.
//!
//! - A world is an engine with its five rings, a saver and a keeper in memory. All of it is seen as
//!   lists (`Lists`): of each ring what was taken and what waits, the held reply, the outcomes that
//!   are remembered, the count of commands that found their ring full, and the output.
//! - A step is one put, one take, or some frames. What it leaves and its outcome are one definition
//!   by cases (`did`, in `specs/Stepping`), and `World::step` does exactly that. So every
//!   interleaving of the activities of a session is a list that can be written down.
//! - Every list of steps leaves the world in step (`IsInStep`): output, replies, saves and blocks
//!   are those of the run of the journal, and the journal has the commands that were taken. The
//!   saver has accepted exactly the blocks that were taken, and the outcomes are one for each end.
//! - Where a step wants memory, the lists are as before, and so does every later step.
//! - `steps_of` makes steps from a number, and `drill` gives the numbers behind them.
//!
//! Begin with `specs/Rings` and `specs/Stepping`, then `world`; `laws` has what holds of lists of
//! steps, and runs that are worked out. The rules are "The world on one thread" and "The drill" in
//! docs/rules.md.
#![tactic(auto)]

mod blocks;
mod drilling;
mod generator;
mod laws;
mod lists;
mod output;
mod plays;
mod puts;
mod remembered;
mod ring;
mod step;
mod summary;
mod takes;
mod world;

pub use drilling::{MAX_DRILL_STEPS, drill};
pub use generator::{Steps, steps_of};
pub use laws::{
    a_held_reply_holds_the_engine, a_number_makes_its_steps, a_save_passes_the_rings,
    a_world_begins_in_step, each_step_keeps_a_world_in_step,
    every_list_of_steps_keeps_a_world_in_step,
};
pub use lists::Lists;
pub use ring::Ring;
pub use step::{Outcome, Step};
pub use summary::Summary;
pub use world::World;
