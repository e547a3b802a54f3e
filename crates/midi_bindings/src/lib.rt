//! MIDI events bound to commands: the binding file, and what an event gives.
//!
//! - `read_bindings` gives the bindings that bytes spell for a number of loops, or the first fault
//!   of the bytes with its line and kind. It has no other answer but `Memory`.
//! - `bindings_text` gives the one spelling of bindings.
//! - `Bindings::lookup` gives the command of the first line that an event matches, and takes no
//!   memory.
//! - What was written is read back, and what was read is written as it was.
//!
//! Begin with `binding`, then `reader` and `give`, which read; `lookup` answers events, `write`
//! spells, and `laws` has what holds of the definitions.
//! The rules are "Bindings", "Texts" and "Numbers in texts" in docs/formats.md and "Faults of
//! texts" in docs/rules.md.
#![tactic(auto)]

mod binding;
mod bindings;
mod form;
mod give;
mod laws;
mod line;
mod lookup;
mod reader;
#[cfg(test)]
mod tests;
mod word;
mod write;

pub use binding::{BindKind, Binding};
pub use bindings::Bindings;
pub use laws::{bindings_come_back, bindings_have_one_reading, what_is_bound_may_be_played};
pub use reader::read_bindings;
pub use write::bindings_text;
