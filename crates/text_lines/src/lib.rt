//! What all text forms share: lines of words, numbers with one spelling, and the first fault.
//!
//! - A text is a header, lines, and the line `end`. `next_line` takes the first whole line off,
//!   `words_of` gives its words: where two spaces stand together a word is empty.
//! - A number has one spelling of at most 19 digits. `read_numeral` gives a number that isn't below
//!   0, `read_integer` a whole number of 32 bits; `is_numeral` and `is_integer` tell what looks
//!   like one.
//! - `target_of` gives the target that a word spells, `number_of` a number up to a greatest one,
//!   and `behind` the words behind a first one. `press_of` gives the verb that words give to a
//!   loop.
//! - `have_shapes` tells whether words look like those of a form, whatever they name.
//! - A form of text says how a line is spelled, what may follow, where `end` is due and what is
//!   wrong with a line. Where a form is settled, a text has one reading: one list of things, or one
//!   first fault. `read_form` reads a text of any form whose `end` may stand behind each line.
//! - No call takes memory, but for what takes a line.
//!
//! Begin with `line`, then `numeral`, `integer`, `word`, `shape` and `form`; `laws` has what holds
//! of the definitions. The rules are "Texts" and "Numbers in texts" in docs/formats.md and "Faults
//! of texts" in docs/rules.md.
#![tactic(auto)]

mod form;
mod integer;
mod laws;
mod line;
mod numeral;
mod press;
mod shape;
#[cfg(test)]
mod tests;
mod word;

pub use form::{FormLines, Refused, read_form};
pub use integer::{is_integer, read_integer};
pub use laws::{a_line_is_its_words, integers_have_one_spelling, numbers_have_one_spelling};
pub use line::{MOST_WORDS, Words, next_line, words_of};
pub use numeral::{is_numeral, read_numeral};
pub use press::press_of;
pub use shape::{Shape, have_shapes};
pub use word::{behind, number_of, target_of};
