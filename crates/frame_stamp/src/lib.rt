//! The journal: commands stamped in the order in which they come.
//!
//! - A journal is the list of its entries and a quota, the number of entries that senders 0 and 1
//!   may have. Sender 2 may have twice as many.
//! - `stamp` puts one entry at the end, with the frame given and the sender's next number. What is
//!   in a journal is stamped: frames never fall, and each sender's numbers are 0, 1, 2 and so on.
//! - All room is taken by `with_quota`. No other call takes memory or can fail.
//!
//! Begin with `journal`. The rules are "Entries" in docs/rules.md.
#![tactic(auto)]

mod journal;
#[cfg(test)]
mod tests;

pub use journal::Journal;
