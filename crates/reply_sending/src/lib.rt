//! Answers on their way: replies and answers to pings as messages, sent or counted.
//!
//! - `send_reply` sends a reply to the return address of the accepted command that asked for it,
//!   and answers false exactly where it has none. `send_pongs` answers the pings among what came of
//!   a packet.
//! - A packet whose send failed is counted as not sent, in the sender's account, and nothing else
//!   is.
//! - What is sent by any number of calls is a merge of replies and answers to pings but for those
//!   counted, and the link's count of sends rose by at least as many (`Sending`).
//! - No call takes memory.
//!
//! Begin with `post`; `answers` has the messages, and `laws` what holds of the definitions.
//! The rules are "Serving" in docs/rules.md and "OSC paths" in docs/formats.md.
#![tactic(auto)]

mod answers;
mod laws;
mod post;
#[cfg(test)]
mod tests;

pub use answers::write_reply;
pub use laws::{what_asked_has_an_address, what_is_sent_in_parts_is_sent};
pub use post::{return_for, send_pongs, send_reply};
