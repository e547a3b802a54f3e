//! Puts the real ends to use, for checks/ends.py. Without words it is silent, and so with others
//! than these.
//!
//! ```text
//! ends link local     sends each packet that comes to 127.0.0.1 back, until one says `end`;
//!                     the port is told first
//! ends link all       the same at all addresses
//! ends link none      the same of the link to nowhere, which has no port
//! ends file PATH      writes the bytes of a device, a FIFO or a file to standard output
//! ends input          the same of standard input
//! ends keep NAME TIMES  writes the file NAME of the working directory so often, and reads it
//!                     again each time
//! ```
//!
//! Each ends by itself: the link after 1000 turns, of which one waits for 20 ms at most, a file
//! after 50 reads that gave nothing. The status is 0 at the end, 1 where nothing more came, 4 where
//! a call failed, 5 where what came can't be written, 6 where a file isn't what was written.
#![tactic(auto)]

use live_ports::{
    FileSource, Link, LinkAnswer, Listen, MAX_DATAGRAM, Source, SourceAnswer, StdSource, UdpLink,
};
use sl_base::Name;
use sl_ports::{DirKeeper, FileAnswer, KeepAnswer, Keeper, Sink, SinkAnswer, StdSink};
use std::fs::File;
use std::process::ExitCode;
use std::time::Duration;
use std::{env, io};

const END: u8 = 0;

const NO_MORE: u8 = 1;

const FAILED: u8 = 4;

const UNWRITTEN: u8 = 5;

const OTHER: u8 = 6;

fn wait() -> Duration {
    Duration::from_millis(20)
}

/// Sends each packet back, until one says that this is the end.
fn send_back(link: &mut UdpLink) -> u8 {
    let mut buf = [0; MAX_DATAGRAM];
    for _ in 0..1000 {
        match link.recv(&mut buf) {
            LinkAnswer::Got(count, from) => {
                let bytes = &buf[..count];
                if bytes == b"end".as_slice() {
                    return END;
                }
                let _ = link.send(from, bytes);
            }
            LinkAnswer::Idle => {}
            LinkAnswer::End => return END,
            LinkAnswer::Failed => return FAILED,
        }
    }
    NO_MORE
}

fn link(rt: &HostRuntime, kind: &str) -> io::Result<u8> {
    let mut link = match kind {
        "local" => UdpLink::bind(rt, Listen::Local, 0, wait()),
        "all" => UdpLink::bind(rt, Listen::All, 0, wait()),
        _ => UdpLink::none(),
    };
    if let Some(port) = link.port() {
        println!(rt; "port {port}")?;
    }
    Ok(send_back(&mut link))
}

/// Writes what a source gives to standard output.
fn copy<S: Source>(rt: &HostRuntime, source: &mut S) -> u8 {
    let mut sink = StdSink::new(rt);
    let mut buf = [0; 1024];
    let mut idles = 0u32;
    for _ in 0..100000 {
        match source.read(&mut buf) {
            SourceAnswer::Got(count) => {
                if sink.write_all(&buf[..count]) == SinkAnswer::Failed {
                    return UNWRITTEN;
                }
            }
            SourceAnswer::Idle => {
                idles = idles.saturating_add(1);
                if idles >= 50 {
                    return NO_MORE;
                }
            }
            SourceAnswer::End => return END,
            SourceAnswer::Failed => return FAILED,
        }
    }
    NO_MORE
}

/// Writes a file that has its name in it, and reads it again.
fn kept(rt: &HostRuntime, keeper: &mut DirKeeper<&HostRuntime>, name: &Name) -> io::Result<u8> {
    let mut bytes: Vec<u8> = Vec::new(rt.alloc());
    for _ in 0..5000u32 {
        bytes.extend_from_slice(name.as_bytes())?;
    }
    if keeper.write_file(rt.alloc(), name, bytes.as_slice()) != KeepAnswer::Done {
        return Ok(FAILED);
    }
    match keeper.read_file(rt.alloc(), name) {
        FileAnswer::Bytes(read) if read.as_slice() == bytes.as_slice() => Ok(END),
        FileAnswer::Bytes(_) => Ok(OTHER),
        FileAnswer::Missing | FileAnswer::Failed | FileAnswer::Memory => Ok(FAILED),
    }
}

fn keep(rt: &HostRuntime, name: &str, times: u32) -> io::Result<u8> {
    let Some(name) = Name::read(name.as_bytes()) else {
        return Ok(FAILED);
    };
    let mut keeper = DirKeeper::new(rt);
    for _ in 0..times {
        let status = kept(rt, &mut keeper, &name)?;
        if status != END {
            return Ok(status);
        }
    }
    Ok(END)
}

fn status(rt: &HostRuntime, words: &[String]) -> io::Result<u8> {
    match words {
        [end, kind] if end.as_str() == "link" => link(rt, kind.as_str()),
        [end, path] if end.as_str() == "file" => {
            let mut file: FileSource<File> = FileSource::open(
                rt.alloc(),
                rt,
                path.as_str(),
                wait(),
            );
            Ok(copy(rt, &mut file))
        }
        [end, name, times] if end.as_str() == "keep" => {
            keep(rt, name.as_str(), times.parse().unwrap_or(0))
        }
        [end] if end.as_str() == "input" => Ok(copy(rt, &mut StdSource::new(rt.stdin()))),
        _ => Ok(END),
    }
}

fn main(rt: HostRuntime) -> io::Result<ExitCode> {
    let words: Vec<String> = env::args(&rt)?.skip(1).collect(rt.alloc())?;
    Ok(ExitCode::from(status(&rt, &words)?))
}
