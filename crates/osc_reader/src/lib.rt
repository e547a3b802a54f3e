//! OSC packets as messages, and messages as bytes.
//!
//! - `read_packet` gives the messages of a packet in order, exactly where the bytes are in the
//!   grammar of packets.
//! - For all other bytes it gives the first fault that is met from left to right, with the offset
//!   of the field that has it.
//! - Any bytes at all may come. Bundles are read at most 8 deep, and nothing else recurses.
//! - `write_message` writes one message with the tags `i` and `s` into a buffer of 1024 bytes, and
//!   takes no memory. What it wrote is read again as it was.
//! - Want of memory is a fault of its own, which says nothing of the packet.
//!
//! Begin with `message` and `fault`, then `packet`; `fields` has the parts of a message, `write`
//! the other direction, and `laws` what holds of the definitions.
//! The rules are "OSC packets" in docs/formats.md.
#![tactic(auto)]

mod fault;
mod fields;
pub mod laws;
mod message;
mod packet;
#[cfg(test)]
mod tests;
mod write;

pub use fault::{PacketFault, PacketKind};
pub use message::{Arg, Args, Message, Messages, Text};
pub use packet::{MAX_DEPTH, MAX_PACKET, read_packet};
pub use write::{MAX_MESSAGE, OutArg, write_message};
