//! The saver: the files of saves, written as their blocks come.
//!
//! - A saver takes the blocks of saves one after another. It holds the latest list, and writes its
//!   file as soon as a block shows that the list is whole: a part of another list, or the end.
//!   Behind the lists of a session comes its text.
//! - The files of a save that is written whole are those of its lists, in their order, and then the
//!   text of a session.
//! - A save that has a write that failed, or wants memory, writes nothing more. It is answered at
//!   its end, as every save is: 0 written, 1 a write failed, 4 out of memory.
//! - At most one list and the bytes of its file are held.
//!
//! Begin with `saver`, then `saving`; `writing` writes one file, `ending` says how a save goes, and
//! `laws` has what holds of the definitions. The rules are "Files of a save" in docs/formats.md and
//! "Blocks of a save" in docs/rules.md.
#![tactic(auto)]

mod ending;
mod laws;
mod saver;
mod saving;
#[cfg(test)]
mod tests;
mod writing;

pub use ending::Ending;
pub use laws::{
    a_saver_is_where_its_blocks_lead, blocks_are_accepted_one_after_another,
    the_blocks_of_a_save_may_come, the_files_of_a_save_are_due_at_its_blocks,
    the_files_of_saves_are_written_save_after_save,
};
pub use saver::{Saved, Saver};
