//! The words of the looper: what is done to a loop, what is set and read, and what a journal, a
//! ring and a text carry.
//!
//! - A verb and a control have one name each, and are found by it. A control that can be set has a
//!   range, which may depend on the number of loops, and a value that it begins with.
//! - A command is allowed for a number of loops where its target, its control, its value and its
//!   names are. An entry is valid where its command is allowed and its sender may send it. Entries
//!   are stamped where frames never fall and each sender's numbers are 0, 1, 2 and so on.
//! - Settings hold one strip per loop and keep each value in its range. A test that fails gives no
//!   settings.
//! - A block of a save says where it stands in the order of blocks. `Item` says of each thing that
//!   a ring carries whether it may follow what was sent.
//! - A fault of a text has a line, counted from 1, and a kind with a number, 1 to 6.
//!
//! Begin with `verb`, `mode` and `control`, then `command`, `entry`, `settings` and `block`; `laws`
//! has what holds of the definitions. The rules are "Verbs and their names", "Controls",
//! "Commands", "Entries", "Settings", "Replies", "Blocks of a save" and "Faults of texts" in
//! docs/rules.md.
#![tactic(auto)]

mod block;
mod command;
mod control;
mod entry;
mod fault;
mod item;
pub mod laws;
mod mode;
mod reply;
mod settings;
#[cfg(test)]
mod tests;
mod verb;

pub use block::{Block, PartFrames};
pub use command::{Command, Target, is_outcome, is_session_name};
pub use control::{Control, Range, control_of, in_range};
pub use entry::{Entries, Entry, MIDI, OSC, SAVER, is_sender};
pub use fault::{ReadText, TextFault, TextKind};
pub use item::Item;
pub use mode::{Face, Held, How, Mode, Started};
pub use reply::{Reply, What};
pub use settings::{Globals, Initial, Settings, StripSettings, Strips, is_cycle_of};
pub use verb::{Verb, verb_of};
