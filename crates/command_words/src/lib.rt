//! The words of the command line: what they ask for, or that they aren't in the grammar.
//!
//! - `plain_words` gives what `render IN JOURNAL OUT` with its options, `drill NUMBER STEPS` or
//!   `show NAME` asks for, `live_words` what `live` with its options does, and `words_of` what any
//!   words do. Each fills in the defaults.
//! - The fault is `Words` exactly where the words aren't in the grammar.
//! - What is given lies in its ranges, so that no caller tests it again.
//! - Only a path is copied, behind all tests: `Memory` comes only where words ask for a live
//!   session.
//!
//! Begin with `plain` and `live`; `options` and `live_options` read what stands behind the names,
//! and `values` each word. The form is "The words of the command line" in docs/formats.md.
#![tactic(auto)]

mod fault;
mod listen;
mod live;
mod live_options;
mod options;
mod plain;
#[cfg(test)]
mod tests;
mod values;
mod words;

pub use fault::WordsFault;
pub use live::{Live, live_words};
pub use live_ports::Listen;
pub use plain::{Drill, Plain, Render, Show, plain_words};
pub use words::{Words, words_of};
