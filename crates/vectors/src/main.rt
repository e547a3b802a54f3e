//! Reads what comes from outside and tells what it says, or its first fault: one line of output for
//! each line of input.
//!
//! ```text
//! journal LOOPS HEX           the number of entries of a journal, which is written again
//!                             and compared
//! session - HEX               whether a text is one of a session, which is written again
//!                             and compared
//! wav - HEX                   the form and the frames of a WAV file
//! packet HEX                  the messages of an OSC packet
//! asked LOOPS IP PORT HEX     what each message of a packet from there asks for
//! url IP PORT HEX             the return address that a url gives to a packet from there
//! write HEX ARG ..            the bytes of a message with this address; an ARG is i and a number,
//!                             or s and HEX
//! midi HEX                    the events of MIDI bytes, each with the place of its last byte
//! stream HEX                  the same without the places
//! bindings LOOPS HEX          the bindings of a text, as they are written, or its first fault
//! looked LOOPS HEX HEX        the commands that MIDI bytes give by the bindings of a text
//! account osc QUOTA CAPACITY LOOPS IP PORT STEP ..
//!                             what a sender of OSC decides of packets, HEX each, and its account
//! account midi QUOTA CAPACITY LOOPS HEX STEP ..
//!                             the same of MIDI bytes, by the bindings of a text
//! ```
//!
//! HEX are bytes in hexadecimal digits, IP is an address as one number. With the words `journal
//! LOOPS FILE`, `session - FILE` or `wav - FILE` the program reads that file in place of standard
//! input, and tells how many entries or frames it has.
#![tactic(auto)]

mod hex;
mod messages;
mod texts;

use crate::messages::accounts::tell_accounts;
use crate::messages::tell_message;
use crate::texts::{tell_file, tell_text};
use std::alloc::Global;
use std::env;
use std::io::{self, BufRead, BufReader, BufWriter, Write};
use std::sync::Wait;

/// Whether a line of this word is one of a text.
fn is_text(form: &str) -> bool {
    form == "journal" || form == "session" || form == "wav"
}

/// Tells what the words of a line say.
fn tell_words<R: Wait, W: Write>(
    out: &mut W,
    alloc: Global,
    wait: &R,
    words: &[&str],
) -> io::Result<()> {
    match words {
        [form, loops, digits] if is_text(form) => tell_text(out, alloc, form, loops, digits),
        ["account", words @ ..] => tell_accounts(out, alloc, wait, words),
        _ => tell_message(out, alloc, words),
    }
}

/// Tells what each line of standard input says.
fn tell_input<R: Wait>(rt: &HostRuntime, wait: &R) -> io::Result<()> {
    let mut out = BufWriter::new(rt.alloc(), io::writer(rt))?;
    for line in BufReader::new(rt.alloc(), rt.reader())?.lines(rt.alloc()) {
        let line = line?;
        let words: Vec<&str> = line.as_str().split(' ').collect(rt.alloc())?;
        tell_words(&mut out, rt.alloc(), wait, &words)?;
    }
    out.flush()
}

fn main(rt: HostRuntime) -> io::Result<()> {
    let words: Vec<String> = env::args(&rt)?.skip(1).collect(rt.alloc())?;
    match words.as_slice() {
        [form, loops, file] => tell_file(&rt, form.as_str(), loops.as_str(), file.as_str()),
        _ => tell_input(&rt, &rt),
    }
}
