//! Senders: what comes from OSC and MIDI is accepted as commands, or refused with a reason.
//!
//! - A sender hears packets or bytes in order, and puts each command that it accepts on its ring.
//! - Its account tells what came of all that it heard: the commands accepted, each with where its
//!   reply goes, the count of each kind of refusal, and the last 32 refusals.
//! - What is accepted is what the ring was sent. A command is refused where a quit was accepted
//!   before it, where the quota is used up, or where the ring is full, in this order.
//! - After `Memory` nothing was put, and the account is as before. A byte of MIDI takes no memory.
//!
//! Begin with `accepted`, `refusal` and `decision`, then `tally` and `account`; `play` accepts one
//! command, `osc` and `midi` are the two senders, and `laws` has what holds of the definitions.
//! The rules are "Senders" in docs/rules.md.
#![tactic(auto)]

mod accepted;
mod account;
mod decision;
mod laws;
mod midi;
mod osc;
mod play;
mod refusal;
mod tally;

pub use accepted::Accepted;
pub use account::Account;
pub use decision::{Decision, Decisions};
pub use laws::{what_is_asked_for_may_be_sent, what_is_heard_in_parts_is_heard};
pub use midi::MidiSender;
pub use osc::OscSender;
pub use refusal::Refusal;
pub use tally::Tally;

#[cfg(test)]
mod tests;
