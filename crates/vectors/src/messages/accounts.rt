//! What senders decide of what comes, and the accounts that they keep of it.

ghost use Rattle.std.specs.Prelude.{◌≤◌};

use crate::hex::bytes_of;
use crate::messages::addr_of;
use crate::messages::asked::{tell_command, tell_return};
use event_rings::{Taker, ring_with};
use midi_bindings::{Bindings, read_bindings};
use osc_reader::PacketFault;
use senders::{Account, Decision, MidiSender, OscSender, Tally};
use sl_base::Addr;
use sl_commands::Command;
use std::alloc::Global;
use std::io::{self, Write};
use std::sync::Wait;

// No ring is asked to hold more commands than this, and no sender to accept more.
const MOST: u32 = 1048576;

/// The number, or the nearest from 1 to this one.
fn between(number: u32, most: u32) -> u32
    requires { 1 ≤ most }
    ensures least { 1 ≤ result }
    ensures most { result ≤ most }
{
    if number == 0 {
        1
    } else if number <= most {
        number
    } else {
        most
    }
}

fn number_of(word: &str) -> u32 {
    word.parse().unwrap_or(0)
}

fn tell_fault<W: Write>(out: &mut W, fault: PacketFault) -> io::Result<()> {
    let (kind, at) = (fault.kind.number(), fault.at);
    write!(out, " Packet:{kind}:{at}")
}

fn tell_decision<W: Write>(out: &mut W, decision: &Decision) -> io::Result<()> {
    match decision {
        Decision::Accepted(number) => write!(out, " Accepted:{number}"),
        Decision::Ping(to) => {
            write!(out, " Ping")?;
            tell_return(out, to)
        }
        Decision::RingFull => write!(out, " RingFull"),
        Decision::SessionFull => write!(out, " SessionFull"),
        Decision::Ended => write!(out, " Ended"),
        Decision::Packet(fault) => tell_fault(out, *fault),
        Decision::Path(fault) => {
            let number = fault.number();
            write!(out, " Path:{number}")
        }
    }
}

fn tell_counts<W: Write>(out: &mut W, tally: &Tally) -> io::Result<()> {
    let (full, used_up) = (tally.ring_full(), tally.session_full());
    let (ended, packets) = (tally.ended(), tally.packet_faults());
    write!(out, "; counts {full} {used_up} {ended} {packets}")?;
    for count in tally.path_faults() {
        write!(out, " {count}")?;
    }
    Ok(())
}

fn tell_account<W: Write>(out: &mut W, account: &Account) -> io::Result<()> {
    let tally = &account.tally;
    for accepted in tally.accepted() {
        write!(out, "; accepted ")?;
        tell_command(out, &accepted.command)?;
        if let Some(to) = &accepted.answer {
            write!(out, " to")?;
            tell_return(out, to)?;
        }
    }
    tell_counts(out, tally)?;
    let unsent = account.unsent;
    write!(out, " {unsent}; last")?;
    for refusal in tally.last().iter() {
        let (group, code) = (refusal.group, refusal.code);
        write!(out, " {group}:{code}")?;
    }
    writeln!(out, "")
}

/// Takes so many commands off a ring, or as many as there are.
fn take<R: Wait>(wait: &R, taker: &mut Taker<Command>, count: &str) {
    for _ in 0..count.parse().unwrap_or(0u32) {
        let _ = taker.take(wait);
    }
}

fn no_memory() -> io::Error {
    io::Error::from(io::ErrorKind::OutOfMemory)
}

fn osc_step<R: Wait, W: Write>(
    out: &mut W,
    alloc: Global,
    wait: &R,
    sender: &mut OscSender,
    from: Addr,
    step: &str,
) -> io::Result<()> {
    write!(out, ";")?;
    if step == "unsent" {
        sender.note_unsent();
        return Ok(());
    }
    let bytes = bytes_of(alloc, step)?;
    match sender.packet(alloc, wait, &bytes, from) {
        Ok(decisions) => {
            for decision in decisions.as_slice() {
                tell_decision(out, decision)?;
            }
            Ok(())
        }
        Err(_) => Err(no_memory()),
    }
}

/// Tells what a sender of OSC decides at each step, and its account. A step is the digits of a
/// packet, `take:` and a number of commands taken off the ring, or `unsent`.
fn tell_osc<R: Wait, W: Write>(
    out: &mut W,
    alloc: Global,
    wait: &R,
    ends: (OscSender, Taker<Command>),
    from: Addr,
    steps: &[&str],
) -> io::Result<()> {
    let (mut sender, mut taker) = ends;
    write!(out, "account")?;
    for step in steps {
        match step.split_once(':') {
            Some((_, count)) => take(wait, &mut taker, count),
            None => osc_step(out, alloc, wait, &mut sender, from, step)?,
        }
    }
    tell_account(out, sender.account())
}

fn midi_step<R: Wait, W: Write>(
    out: &mut W,
    alloc: Global,
    wait: &R,
    sender: &mut MidiSender,
    step: &str,
) -> io::Result<()> {
    for byte in &bytes_of(alloc, step)? {
        write!(out, ";")?;
        if let Some(decision) = sender.byte(wait, *byte) {
            tell_decision(out, &decision)?;
        }
    }
    Ok(())
}

/// The same of a sender of MIDI, whose steps are the digits of bytes and `take:`.
fn tell_midi<R: Wait, W: Write>(
    out: &mut W,
    alloc: Global,
    wait: &R,
    ends: (MidiSender, Taker<Command>),
    steps: &[&str],
) -> io::Result<()> {
    let (mut sender, mut taker) = ends;
    write!(out, "account")?;
    for step in steps {
        match step.split_once(':') {
            Some((_, count)) => take(wait, &mut taker, count),
            None => midi_step(out, alloc, wait, &mut sender, step)?,
        }
    }
    tell_account(out, sender.account())
}

fn osc_ends<R: Wait>(
    alloc: Global,
    wait: &R,
    quota: u32,
    capacity: u32,
    loops: u8,
) -> io::Result<(OscSender, Taker<Command>)> {
    let capacity = between(capacity, 65536) as usize;
    let Ok((putter, taker)) = ring_with::<Command, R>(alloc, wait, capacity, 1048576, 0) else {
        return Err(no_memory());
    };
    match OscSender::new(alloc, between(quota, MOST), loops, putter) {
        Ok(sender) => Ok((sender, taker)),
        Err(_) => Err(no_memory()),
    }
}

fn midi_ends<R: Wait>(
    alloc: Global,
    wait: &R,
    quota: u32,
    capacity: u32,
    bindings: Bindings,
) -> io::Result<(MidiSender, Taker<Command>)> {
    let capacity = between(capacity, 65536) as usize;
    let Ok((putter, taker)) = ring_with::<Command, R>(alloc, wait, capacity, 1048576, 0) else {
        return Err(no_memory());
    };
    match MidiSender::new(alloc, between(quota, MOST), bindings, putter) {
        Ok(sender) => Ok((sender, taker)),
        Err(_) => Err(no_memory()),
    }
}

/// Tells what a sender of OSC or MIDI decides, and its account.
pub fn tell_accounts<R: Wait, W: Write>(
    out: &mut W,
    alloc: Global,
    wait: &R,
    words: &[&str],
) -> io::Result<()> {
    match words {
        ["osc", quota, capacity, loops, ip, port, steps @ ..] => {
            let loops = loops.parse().unwrap_or(0);
            let (quota, capacity) = (number_of(quota), number_of(capacity));
            let ends = osc_ends(alloc, wait, quota, capacity, loops)?;
            tell_osc(out, alloc, wait, ends, addr_of(ip, port), steps)
        }
        ["midi", quota, capacity, loops, text, steps @ ..] => {
            let loops = between(number_of(loops), 16) as u8;
            match read_bindings(alloc, &bytes_of(alloc, text)?, loops) {
                Ok(bindings) => {
                    let (quota, capacity) = (number_of(quota), number_of(capacity));
                    let ends = midi_ends(alloc, wait, quota, capacity, bindings)?;
                    tell_midi(out, alloc, wait, ends, steps)
                }
                Err(_) => writeln!(out, "no bindings"),
            }
        }
        _ => writeln!(out, "no such line"),
    }
}
