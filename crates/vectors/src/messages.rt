//! Messages from outside: OSC packets, MIDI bytes, bindings.

pub mod accounts;
mod asked;
mod bound;
mod midi;
mod packet;
mod written;

use crate::hex::bytes_of;
use crate::messages::asked::{tell_asked, tell_url};
use crate::messages::bound::{tell_bindings, tell_looked};
use crate::messages::midi::{tell_midi, tell_stream};
use crate::messages::packet::tell_packet;
use crate::messages::written::tell_written;
use sl_base::Addr;
use std::alloc::Global;
use std::io::{self, Write};

/// The address of two words.
pub fn addr_of(ip: &str, port: &str) -> Addr {
    Addr {
        ip: ip.parse().unwrap_or(0),
        port: port.parse().unwrap_or(0),
    }
}

/// Tells what the words of a line say.
pub fn tell_message<W: Write>(out: &mut W, alloc: Global, words: &[&str]) -> io::Result<()> {
    match words {
        ["packet", hex] => tell_packet(out, alloc, &bytes_of(alloc, hex)?),
        ["asked", loops, ip, port, hex] => {
            let loops = loops.parse().unwrap_or(0);
            tell_asked(out, alloc, loops, addr_of(ip, port), &bytes_of(alloc, hex)?)
        }
        ["url", ip, port, hex] => tell_url(out, addr_of(ip, port), &bytes_of(alloc, hex)?),
        ["write", hex, args @ ..] => tell_written(out, alloc, &bytes_of(alloc, hex)?, args),
        ["midi", hex] => tell_midi(out, &bytes_of(alloc, hex)?),
        ["stream", hex] => tell_stream(out, &bytes_of(alloc, hex)?),
        ["bindings", loops, hex] => {
            let loops = loops.parse().unwrap_or(0);
            tell_bindings(out, alloc, loops, &bytes_of(alloc, hex)?)
        }
        ["looked", loops, text, hex] => {
            let loops = loops.parse().unwrap_or(0);
            tell_looked(
                out,
                alloc,
                loops,
                &bytes_of(alloc, text)?,
                &bytes_of(alloc, hex)?,
            )
        }
        _ => writeln!(out, "no such line"),
    }
}
