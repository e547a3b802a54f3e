//! Serving OSC: packets are received and heard, replies and answers to pings are sent.
//!
//! - `serve_osc` takes the replies that are there and sends each to its return address, receives a
//!   packet, has a sender hear it and answers its pings, until the end of the session is told, a
//!   receive fails, there is no memory, or a reply has no return address.
//! - What it did is one relation of what it was given and what it leaves, `OscDid` in
//!   `specs/Serving.antt`: what was received, heard, taken, told and sent, and why it ended.
//! - It receives at least once before it looks for the session's end. Behind the link's end it
//!   receives no more, and goes on with replies.
//! - A receive gives a packet, or has waited, or ends it; where only replies are left it pauses a
//!   millisecond when it finds none.
//!
//! Begin with `serving`; `turns` has one turn, `replies` and `receiving` its parts.
//! The rules are "Serving" in docs/rules.md.
#![tactic(auto)]

mod receiving;
mod replies;
mod serving;
#[cfg(test)]
mod tests;
mod turns;

pub use serving::{OscEnd, serve_osc};
