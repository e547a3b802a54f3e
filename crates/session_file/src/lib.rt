//! The session file: what a looper and its loops are set to, as text, and the WAV files of the
//! loops' lists.
//!
//! - `read_session` gives the settings that bytes spell, or the first fault of the bytes, with its
//!   line and kind, and nothing else for those bytes. It takes no memory.
//! - `session_text` gives the one spelling of settings. It may want memory, and says so.
//! - What is written is read back as the same settings, and what was read is written as the same
//!   bytes.
//! - An early `end` has no form, a loop's line with another index is out of order, and a line where
//!   `end` is due is one too many. A loop's index is judged behind all other numbers of its line.
//! - `load` reads the text and then each loop's file, which `part_name` names, and tells the first
//!   bad one. It writes nothing. `read_bytes` reads one file, with the same fault.
//!
//! Begin with `session`, then `reading` and `line`; `write` spells, `loading` loads, `laws` has
//! what holds of the definitions.
//! The rules are "Sessions" in docs/formats.md and "Faults of texts" in docs/rules.md.
#![tactic(auto)]

mod laws;
mod line;
mod loading;
mod part;
mod reading;
mod session;
#[cfg(test)]
mod tests;
mod write;

pub use laws::{a_session_has_one_reading, sessions_come_back};
pub use loading::{LoadFault, load, read_bytes};
pub use part::part_name;
pub use session::read_session;
pub use write::session_text;
