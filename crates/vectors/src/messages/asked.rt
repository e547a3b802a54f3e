//! What messages ask for.

use crate::hex::tell_bytes;
use crate::messages::packet::tell_fault;
use osc_paths::{Request, ReturnTo, command_of, url_of};
use osc_reader::{Message, read_packet};
use sl_base::Addr;
use sl_commands::{Command, Control, Target, Verb};
use std::alloc::Global;
use std::io::{self, Write};

fn tell_press<W: Write>(out: &mut W, press: &str, target: Target, verb: Verb) -> io::Result<()> {
    let number = target.number();
    let name = verb.name();
    write!(out, "{press} {number} {name}")
}

fn tell_get<W: Write>(out: &mut W, target: Target, control: Control) -> io::Result<()> {
    let number = target.number();
    let name = control.name();
    write!(out, "get {number} {name}")
}

fn tell_set<W: Write>(out: &mut W, target: Target, control: Control, value: i32) -> io::Result<()> {
    let number = target.number();
    let name = control.name();
    write!(out, "set {number} {name} {value}")
}

fn tell_save<W: Write>(out: &mut W, target: Target, name: &str) -> io::Result<()> {
    let number = target.number();
    write!(out, "save {number} {name}")
}

/// Tells a command in the words of a journal.
pub fn tell_command<W: Write>(out: &mut W, command: &Command) -> io::Result<()> {
    match command {
        Command::Down(target, verb) => tell_press(out, "down", *target, *verb),
        Command::Up(target, verb) => tell_press(out, "up", *target, *verb),
        Command::Hit(target, verb) => tell_press(out, "hit", *target, *verb),
        Command::Set(target, control, value) => tell_set(out, *target, *control, *value),
        Command::SetGlobal(control, value) => {
            let name = control.name();
            write!(out, "gset {name} {value}")
        }
        Command::Get(target, control) => tell_get(out, *target, *control),
        Command::GetGlobal(control) => {
            let name = control.name();
            write!(out, "gget {name}")
        }
        Command::SaveLoop(target, name) => tell_save(out, *target, name.as_str()),
        Command::SaveSession(name) => {
            let name = name.as_str();
            write!(out, "session {name}")
        }
        Command::Release(_, _) => write!(out, "release"),
        Command::Quit => write!(out, "quit"),
    }
}

/// Tells where a reply goes.
pub fn tell_return<W: Write>(out: &mut W, to: &ReturnTo) -> io::Result<()> {
    let ip = to.addr.ip;
    let port = to.addr.port;
    write!(out, " {ip} {port} ")?;
    tell_bytes(out, to.path.as_bytes())
}

fn tell_request<W: Write>(out: &mut W, request: &Request) -> io::Result<()> {
    match request {
        Request::Play(command, to) => {
            write!(out, "play ")?;
            tell_command(out, command)?;
            if let Some(to) = to {
                write!(out, " to")?;
                tell_return(out, to)?;
            }
            Ok(())
        }
        Request::Ping(to) => {
            write!(out, "ping")?;
            tell_return(out, to)
        }
    }
}

fn tell_answer<W: Write>(out: &mut W, message: &Message, loops: u8, from: Addr) -> io::Result<()> {
    match command_of(message, loops, from) {
        Ok(request) => tell_request(out, &request),
        Err(fault) => {
            let number = fault.number();
            write!(out, "fault {number}")
        }
    }
}

/// Tells what each message of a packet asks for, or the number of its fault; or the fault of the
/// packet.
pub fn tell_asked<W: Write>(
    out: &mut W,
    alloc: Global,
    loops: u8,
    from: Addr,
    bytes: &[u8],
) -> io::Result<()> {
    match read_packet(alloc, bytes) {
        Ok(messages) => {
            write!(out, "asked")?;
            for message in messages.as_slice() {
                write!(out, "; ")?;
                tell_answer(out, message, loops, from)?;
            }
            writeln!(out, "")
        }
        Err(fault) => tell_fault(out, fault),
    }
}

/// Tells the address that a url gives.
pub fn tell_url<W: Write>(out: &mut W, from: Addr, bytes: &[u8]) -> io::Result<()> {
    match url_of(bytes, from) {
        Some(addr) => {
            let ip = addr.ip;
            let port = addr.port;
            writeln!(out, "{ip} {port}")
        }
        None => writeln!(out, "none"),
    }
}
