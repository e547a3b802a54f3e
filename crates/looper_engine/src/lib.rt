//! The engine: the plain looper with its journal.
//!
//! - An engine is seen as an engine of the rules: a looper, its journal, the frames done, and the
//!   saves that no release has answered. `take` stamps a command and applies it at once, and
//!   `frames` plays frames. No period and no thread is known here.
//! - Each call keeps the engine in step (`IsInStep`): output, replies and saves so far are those of
//!   the run of its journal over the input so far, whatever is taken and whatever frames come.
//! - A save keeps no list of its own. Its blocks are read from the pinned lists, as they were at
//!   its entry, whatever was played since: `next_block` gives the next one, `block_sent` goes on,
//!   and `due` tells which save waits for its release. Which block comes next is told from the
//!   lengths of the lists alone (`step`), and only the frames of the part that is due are read.
//! - Only `Engine::new` takes memory.
//!
//! Begin with `engine`, then `saving` and `step`; `laws` and `step_laws` have what holds of its
//! calls together. The rules are "The run", "Entries and replies", "Saves" and "Blocks of a save"
//! in docs/rules.md.
#![tactic(auto)]

mod engine;
mod laws;
mod queue;
mod saving;
mod setup;
mod step;
mod step_laws;
mod taking;
#[cfg(test)]
mod tests;

pub use engine::Engine;
pub use laws::{
    an_engine_with_more_loops_sounds_the_same, frames_are_those_of_their_stretches,
    the_blocks_of_a_save_hold_its_lists_at_its_entry,
};
pub use setup::Setup;
pub use step_laws::{a_save_has_as_many_blocks_as_steps, each_step_is_the_block};
pub use whole_looper::BeginFault as EngineFault;
