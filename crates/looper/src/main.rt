//! `looper`: the program. It hands its words to `looper_cli` over the working directory and
//! standard output, and for a live session over the real devices (`live`).
#![tactic(auto)]

mod account;
mod live;
mod say;

use command_words::{Words, WordsFault, words_of};
use console_lines::Status;
use live_ports::{FileSource, StdSource, UdpLink};
use live_run::Outside;
use looper_cli::{asks_for_live, run};
use say::{say_other_words, say_unkept, say_unwritten};
use sl_ports::{DirKeeper, Sink, SinkAnswer, StdSink};
use std::alloc::Global;
use std::env::FillError;
use std::fs::File;
use std::process::ExitCode;
use std::rt::Env;
use std::sync::Wait;
use std::thread::Threads;
use std::time::Clock;
use std::{env, io};

const USAGE: &str = "looper: records phrases into loops and lets them repeat

usage: looper live [--port N] [--listen local|all] [--midi PATH] [--bind NAME]
                   [--period N] [--channels N] [--chunks N] [--quota N]
                   [--journal NAME] [--rate N] [--loops N | --session NAME]
       looper render IN JOURNAL OUT [--period N] [--chunks N]
                     [--loops N | --session NAME]
       looper drill NUMBER STEPS
       looper show NAME
       looper --help
       looper --version

live plays standard input into the loops and writes what is heard to standard
output, both raw: signed 16-bit little-endian, --channels 1 or 2 (else 2) side
by side, at --rate (else 48000). It takes commands as OSC messages on the UDP
port --port (1 to 65535, else 9951), from this machine alone or, with --listen
all, from everywhere; and as MIDI bytes from the device --midi, by the
bindings --bind. It ends at the input's end or at /quit, and then writes the
commands that it took to --journal, from which render makes the same sound.
Each sender may have --quota commands accepted (1 to 1048576, else 262144).
render plays the WAV file IN into the loops by the commands of JOURNAL, writes
the files that the commands save, and then what is heard to the WAV file OUT.
The loops are --loops empty ones (1 to 16, else 1), or those of the session
NAME. They share --chunks times 4096 frames (1 to 32768, else 4096). At most
--period frames are processed at once (1 to 8192, else 1024), which changes
nothing of what is written. drill makes STEPS steps (1 to 1000000) from NUMBER
(0 to 4294967295), runs them on one thread as a live session, and tells their
numbers. show tells the loops of a session: of the text NAME and the WAV files
NAME-0.wav, NAME-1.wav and so on. Files stand in the working directory.

status: 0 done, 2 other words, 3 a bad file, 4 a reading failed,
        5 a write failed, 6 the input ended within a frame,
        7 a receive failed, 8 out of memory, 9 a limit is exceeded,
        10 the longest session was played
";

/// The arguments behind the program's path. The path isn't read: it is no word, and may be any
/// bytes.
#[derive(Drop)]
struct BehindPath<'a> {
    rt: &'a HostRuntime,
}

impl Env for BehindPath<'_> {
    fn arg(&self, i: usize, buf: &mut [u8]) -> Result<usize, FillError> {
        match i.checked_add(1) {
            Some(next) => self.rt.arg(next, buf),
            None => Err(FillError::NotPresent),
        }
    }

    fn var(&self, name: &str, buf: &mut [u8]) -> Result<usize, FillError> {
        self.rt.var(name, buf)
    }

    fn var_at(&self, i: usize, buf: &mut [u8]) -> Result<usize, FillError> {
        self.rt.var_at(i, buf)
    }
}

impl Alloc for BehindPath<'_> {
    type A = std::alloc::Global;

    fn alloc(&self) -> std::alloc::Global {
        self.rt.alloc()
    }
}

/// The words. One that isn't UTF-8 is no word of the grammar, so there are none then.
fn words(rt: &HostRuntime) -> io::Result<Vec<String>> {
    match env::args(&BehindPath { rt }) {
        Ok(args) => Ok(args.collect(rt.alloc())?),
        Err(e) if e.kind() == io::ErrorKind::InvalidData => Ok(Vec::new(rt.alloc())),
        Err(e) => Err(e),
    }
}

/// Prints a text that no run is needed for.
fn print<R: Print + Eprint + Alloc<A = Global>>(rt: &R, text: &str) -> u8 {
    let mut console = StdSink::new(rt);
    let status = match console.write_all(text.as_bytes()) {
        SinkAnswer::Done => Status::Done,
        SinkAnswer::Failed => Status::WriteFault,
    };
    say_unwritten(rt, &console);
    status.number()
}

/// Runs the words over files and a console, and says what failed. The devices of a session are
/// none.
fn plain<C: Print + Drop + Send, R: Wait + Clock + Threads + Sync>(
    host: &HostRuntime,
    rt: &R,
    words: &[String],
    console: StdSink<C>,
) -> u8 {
    let outside = Outside {
        keeper: DirKeeper::new(host),
        audio: StdSource::new(host.reader()),
        out: StdSink::new(host),
        link: UdpLink::none(),
        midi: FileSource::<File>::none(),
        console,
    };
    let end = run(host.alloc(), rt, words, outside);
    if end.status == Status::Words.number() {
        say_other_words(host);
    }
    say_unkept(host, &end.outside.keeper);
    say_unwritten(host, &end.outside.console);
    end.status
}

/// Runs the words over the ends that they want.
fn command<R: Wait + Clock + Threads + Sync>(host: &HostRuntime, rt: &R, words: &[String]) -> u8 {
    match words {
        [word] if word.as_str() == "--help" => return print(host, USAGE),
        [word] if word.as_str() == "--version" => return print(host, "looper 0.1.0\n"),
        _ => {}
    }
    match words_of(host.alloc(), words) {
        Ok(Words::Live(asked)) => live::play(host, rt, words, &asked),
        Err(WordsFault::Memory) => Status::Memory.number(),
        _ if asks_for_live(words) => plain(host, rt, words, StdSink::new(host.stderr())),
        _ => plain(host, rt, words, StdSink::new(host)),
    }
}

fn main(rt: HostRuntime) -> ExitCode {
    match words(&rt) {
        Ok(words) => ExitCode::from(command(&rt, &rt, &words)),
        Err(_) => ExitCode::from(Status::Memory.number()),
    }
}
