//! How an engine goes on behind what has passed its rings: definitions and laws, no code.
//!
//! - An engine goes on (`Goes`) by more commands and outcomes, and gives more replies and blocks,
//!   with no frames between. Whatever engine and rings were in step with, they are so with these
//!   behind what had passed. Such steps compose.
//! - An engine stands behind what passed (`Stands`) with no reply held, in step with it. The
//!   outcome of a save is owed (`Owes`) while fewer were taken than saves ended in the blocks.
//!
//! Begin with `specs/Going`; `laws` has what holds. The rules are "The engine between its rings" in
//! docs/rules.md.
#![tactic(auto)]

mod laws;

pub use laws::{
    a_block_goes_on, a_command_goes_on, a_held_reply_joins_the_others,
    an_engine_that_goes_on_stands, an_outcome_goes_on, going_on_composes, nothing_goes_on,
    what_is_owed_is_due,
};
