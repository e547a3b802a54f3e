//! What stands outside while the music plays: sources of bytes, and a link for packets.
//!
//! - A source gives its bytes in order, a link its packets. A call gives something, or nothing for
//!   now, or the end, or it fails. What has ended stays ended.
//! - Whatever may fail or give nothing keeps a count of each, which never falls, and which rises in
//!   the calls that answer so.
//! - A packet is sent whole or not at all, and a send changes nothing of what is received.
//! - What is left and was sent is told by those in memory. Nothing is said of it where it isn't
//!   told.
//! - `MemSource` and `MemLink` stand in memory, and fail or give nothing at the calls whose numbers
//!   they are given. `StdSource`, `FileSource` and `UdpLink` are the real ones, which remember the
//!   first error for the program to tell. A read of `FileSource` and a receive of `UdpLink` wait
//!   for a bounded time.
//!
//! Begin with `source` and `link`. The rules are "The outside" in docs/rules.md.
#![tactic(auto)]

mod calls;
mod file_source;
mod link;
mod mem_link;
mod mem_source;
mod reads;
mod source;
mod std_source;
mod udp_link;
mod watch;

pub use file_source::FileSource;
pub use link::{Link, LinkAnswer, MAX_DATAGRAM};
pub use mem_link::{MemLink, StoredPacket};
pub use mem_source::MemSource;
pub use source::{Source, SourceAnswer};
pub use std_source::StdSource;
pub use udp_link::{Listen, UdpLink};

#[cfg(test)]
mod tests;
