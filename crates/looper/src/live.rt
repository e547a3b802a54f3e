//! `live` over the real ends: standard input and output, a UDP socket, a MIDI device, the working
//! directory and standard error.

use crate::account::say_accounts;
use crate::say::{say, say_fault, say_unkept};
use command_words::{Listen, Live};
use live_ports::{FileSource, StdSource, UdpLink};
use live_run::{End, Outside};
use looper_cli::run;
use sl_ports::{DirKeeper, StdSink};
use std::alloc::Global;
use std::fs::File;
use std::net::Net;
use std::rt::Files;
use std::sync::Wait;
use std::thread::Threads;
use std::time::{Clock, Duration};

/// How long a receive waits for the next packet, in milliseconds. A reply leaves behind it at the
/// latest.
const LINK_WAIT: u64 = 2;

/// How long a read waits for the next MIDI byte, in milliseconds.
const MIDI_WAIT: u64 = 20;

/// The link of OSC.
fn link_of<R: Net>(rt: &R, asked: &Live) -> UdpLink {
    let wait = Duration::from_millis(LINK_WAIT);
    UdpLink::bind(rt, asked.listen, asked.port, wait)
}

/// The source of MIDI.
fn midi_of<R: Files<File = File> + Net + Alloc<A = Global>>(
    rt: &R,
    asked: &Live,
) -> FileSource<File> {
    match &asked.midi {
        Some(path) => {
            let wait = Duration::from_millis(MIDI_WAIT);
            FileSource::open(rt.alloc(), rt, path.as_str(), wait)
        }
        None => FileSource::none(),
    }
}

/// The channels, in words.
fn channels_of(asked: &Live) -> &'static str {
    if asked.channels == 1 {
        "1 channel"
    } else {
        "2 channels"
    }
}

/// Says where packets are heard, and what is played.
fn say_where<R: Alloc<A = Global> + Eprint>(rt: &R, asked: &Live, link: &UdpLink) {
    let (channels, period) = (channels_of(asked), asked.period);
    let Some(port) = link.port() else {
        return;
    };
    let at = match asked.listen {
        Listen::Local => "127.0.0.1",
        Listen::All => "all addresses,",
    };
    let text = if asked.session.is_some() {
        format!(in rt.alloc();
            "OSC at {at} port {port}, {channels} at the session's rate, periods of {period}"
        )
    } else {
        let rate = asked.rate;
        format!(in rt.alloc(); "OSC at {at} port {port}, {channels} at {rate}, periods of {period}")
    };
    if let Ok(text) = text {
        say(rt, &text);
    }
}

/// Says at once what couldn't be opened.
fn say_unopened<R: Alloc<A = Global> + Eprint>(
    rt: &R,
    asked: &Live,
    link: &UdpLink,
    midi: &FileSource<File>,
) {
    let port = asked.port;
    if let Ok(text) = format!(in rt.alloc(); "hear OSC at port {port}") {
        say_fault(rt, text.as_str(), link.first_fault());
    }
    if let Some(path) = &asked.midi {
        if let Ok(text) = format!(in rt.alloc(); "read MIDI from {path}") {
            say_fault(rt, text.as_str(), midi.first_fault());
        }
    }
}

/// Plays a session over the real ends, and says what comes beyond its closing lines.
pub fn play<R: Wait + Clock + Threads + Sync>(
    host: &HostRuntime,
    rt: &R,
    words: &[String],
    asked: &Live,
) -> u8 {
    let link = link_of(host, asked);
    let midi = midi_of(host, asked);
    say_where(host, asked, &link);
    say_unopened(host, asked, &link, &midi);
    let outside = Outside {
        keeper: DirKeeper::new(host),
        audio: StdSource::new(host.reader()),
        out: StdSink::new(host),
        link,
        midi,
        console: StdSink::new(host.stderr()),
    };
    let End {
        status,
        outside,
        session,
    } = run(host.alloc(), rt, words, outside);
    say_unkept(host, &outside.keeper);
    say_fault(host, "read standard input", outside.audio.first_fault());
    say_fault(host, "write standard output", outside.out.first_fault());
    if let Some(session) = &session {
        say_accounts(host, session);
    }
    status
}
