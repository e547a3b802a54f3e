//! The journal file, read and written exactly.
//!
//! - A journal is `looper journal 1`, a line for each entry, and `end`. Its entries are valid for
//!   the number of loops and stamped, none acts behind the last frame of a session, and no sender
//!   has more than may be asked of it.
//! - `read_journal` gives the entries of a journal, or its first fault with its line and kind. It
//!   has no other answer but `Memory`, and takes time in proportion to the bytes.
//! - `journal_text` gives the one spelling of entries.
//! - What was written is read back, and what was read is written as it was.
//!
//! Begin with `reader`, then `entry` and `command`, which read a line; `so_far` has what is kept on
//! the way, `write` the other direction, and `laws` what holds of the definitions.
//! The rules are "Journal", "Texts" and "Numbers in texts" in docs/formats.md, and "Commands" and
//! "Entries" in docs/rules.md.
#![tactic(auto)]

mod command;
mod entry;
mod form;
mod laws;
mod reader;
mod so_far;
#[cfg(test)]
mod tests;
mod write;

pub use laws::{a_journal_has_one_reading, journals_come_back};
pub use reader::read_journal;
pub use write::journal_text;
