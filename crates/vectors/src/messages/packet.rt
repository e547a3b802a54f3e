//! OSC packets.

use crate::hex::tell_bytes;
use osc_reader::{Arg, Message, PacketFault, read_packet};
use std::alloc::Global;
use std::io::{self, Write};

fn tell_arg<W: Write>(out: &mut W, arg: &Arg) -> io::Result<()> {
    match arg {
        Arg::Int(number) => write!(out, ":i{number}"),
        Arg::Text(text) => {
            write!(out, ":s")?;
            tell_bytes(out, text.as_bytes())
        }
        Arg::Foreign => write!(out, ":x"),
    }
}

fn tell_message<W: Write>(out: &mut W, message: &Message) -> io::Result<()> {
    write!(out, " ")?;
    tell_bytes(out, message.address.as_bytes())?;
    for arg in message.args.as_slice() {
        tell_arg(out, arg)?;
    }
    Ok(())
}

/// Tells the fault of a packet as its number and its place.
pub fn tell_fault<W: Write>(out: &mut W, fault: PacketFault) -> io::Result<()> {
    let kind = fault.kind.number();
    let at = fault.at;
    writeln!(out, "fault {kind} {at}")
}

/// Tells the messages of a packet, or its first fault.
pub fn tell_packet<W: Write>(out: &mut W, alloc: Global, bytes: &[u8]) -> io::Result<()> {
    match read_packet(alloc, bytes) {
        Ok(messages) => {
            write!(out, "messages")?;
            for message in messages.as_slice() {
                tell_message(out, message)?;
            }
            writeln!(out, "")
        }
        Err(fault) => tell_fault(out, fault),
    }
}
