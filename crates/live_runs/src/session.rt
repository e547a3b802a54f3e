//! The form of a live session: what it is given, and how it has to end.

use crate::devices::{ScriptedKeeper, ScriptedLink, ScriptedSource};
use crate::flags::Flags;
use crate::scripts::{Script, Step};
use live_ports::{Link, LinkAnswer, MemLink, MemSource, Source, SourceAnswer};
use live_run::{End, Outside, Session, live_run};
use sl_base::{Addr, Name};
use sl_commands::Entry;
use sl_ports::{MemKeeper, MemSink};
use std::alloc::Global;
use std::process::Abort;
use std::sync::Wait;
use std::test::Fail;
use std::thread::Threads;
use std::time::Clock;

/// Where packets come from.
const FROM: Addr = Addr {
    ip: 2130706433,
    port: 9951,
};

/// The kinds of calls, each counted from 1.
#[derive(Clone, Copy, PartialEq, Eq)]
pub enum Call {
    AudioRead,
    AudioWrite,
    Receive,
    Send,
    MidiRead,
    FileRead,
    FileWrite,
    Tell,
}

/// The first call of each device fails, which is the test's own where the session used none.
pub const UNUSED: &[(Call, u64)] = &[
    (Call::AudioRead, 1),
    (Call::MidiRead, 1),
    (Call::Receive, 1),
];

/// The steps of the devices.
#[derive(Clone, Copy)]
pub struct Steps {
    pub audio: &'static [Step],
    pub link: &'static [Step],
    pub midi: &'static [Step],
    pub keeper: &'static [Step],
}

/// A session: its words, the files that stand before it, what its devices give, each packet so many
/// times, and the calls that fail. Then how it has to end.
#[derive(Clone, Copy)]
pub struct Case {
    pub title: &'static str,
    pub words: &'static [&'static str],
    /// Words behind these.
    pub more: &'static [&'static str],
    pub given: &'static [(&'static str, &'static [u8])],
    pub audio: &'static [u8],
    pub packets: &'static [(&'static [u8], u32)],
    pub midi: &'static [u8],
    pub failing: &'static [(Call, u64)],
    pub steps: Steps,
    pub status: u8,
    /// How many frames were played, or None where no device was used.
    pub frames: Option<u64>,
    pub out: &'static [u8],
    /// The senders of the entries of the journal in order, each with how many in a row it has.
    pub entries: &'static [(u8, u32)],
    /// The packets that were sent in order, each with the port of 127.0.0.1 that it went to, and
    /// how often in a row.
    pub sent: &'static [(u16, &'static [u8], u32)],
    /// How many commands of OSC found their ring full.
    pub full: u64,
    pub console: &'static [u8],
    /// Files at the end, beside those that stood before it, and names that have none.
    pub files: &'static [(&'static str, &'static [u8])],
    pub missing: &'static [&'static str],
}

/// A session of one empty loop over one channel, with periods of four frames. Nothing comes.
pub fn empty() -> Case {
    Case {
        title: "nothing comes",
        words: &[
            "live",
            "--channels",
            "1",
            "--period",
            "4",
            "--chunks",
            "64",
            "--quota",
            "512",
        ],
        more: &[],
        given: &[],
        audio: b"",
        packets: &[],
        midi: b"",
        failing: &[],
        steps: Steps {
            audio: &[],
            link: &[],
            midi: &[],
            keeper: &[],
        },
        status: 0,
        frames: Some(0),
        out: b"",
        entries: &[],
        sent: &[],
        full: 0,
        console: b"frames 0 entries 0 osc 0 midi 0 unsent 0 saves 0 refused 0\nstatus 0\n",
        files: &[],
        missing: &["j", "a.wav"],
    }
}

/// What stands outside of a session, and what it leaves.
type Scripted<'a> = Outside<
    ScriptedKeeper<'a>,
    ScriptedSource<'a>,
    MemSink,
    ScriptedLink<'a>,
    ScriptedSource<'a>,
    MemSink,
>;

type Ended<'a> = End<
    ScriptedKeeper<'a>,
    ScriptedSource<'a>,
    MemSink,
    ScriptedLink<'a>,
    ScriptedSource<'a>,
    MemSink,
>;

/// The numbers of the calls of this kind that fail.
fn failing(alloc: Global, case: &Case, call: Call) -> Result<Vec<u64>, Fail> {
    let mut numbers = Vec::new(alloc);
    for (kind, number) in case.failing {
        if *kind == call {
            numbers.push(*number)?;
        }
    }
    Ok(numbers)
}

fn words(alloc: Global, case: &Case) -> Result<Vec<String>, Fail> {
    let mut words = Vec::new(alloc);
    for word in case.words {
        words.push(String::from_str(alloc, word)?)?;
    }
    for word in case.more {
        words.push(String::from_str(alloc, word)?)?;
    }
    Ok(words)
}

fn name(text: &str) -> Result<Name, Fail> {
    Ok(Name::read(text.as_bytes()).ok_or("not a name")?)
}

fn keeper(alloc: Global, case: &Case) -> Result<MemKeeper, Fail> {
    let reads = failing(alloc, case, Call::FileRead)?;
    let writes = failing(alloc, case, Call::FileWrite)?;
    let mut keeper = MemKeeper::new(alloc, reads, writes);
    for (file, bytes) in case.given {
        keeper.put(alloc, &name(file)?, bytes).ok().ok_or("memory")?;
    }
    Ok(keeper)
}

fn source(alloc: Global, bytes: &[u8], case: &Case, call: Call) -> Result<MemSource, Fail> {
    let bytes = Vec::from_slice(alloc, bytes)?;
    let failing = failing(alloc, case, call)?;
    Ok(MemSource::new(bytes, failing, Vec::new(alloc)))
}

fn link(alloc: Global, case: &Case) -> Result<MemLink, Fail> {
    let receives = failing(alloc, case, Call::Receive)?;
    let sends = failing(alloc, case, Call::Send)?;
    let mut link = MemLink::new(alloc, receives, Vec::new(alloc), sends);
    for (bytes, times) in case.packets {
        for _ in 0..*times {
            link.give(FROM, bytes).ok().ok_or("memory")?;
        }
    }
    Ok(link)
}

fn outside<'a>(alloc: Global, flags: &'a Flags, case: &Case) -> Result<Scripted<'a>, Fail> {
    let steps = case.steps;
    let audio = source(alloc, case.audio, case, Call::AudioRead)?;
    let midi = source(alloc, case.midi, case, Call::MidiRead)?;
    Ok(Outside {
        keeper: ScriptedKeeper::new(keeper(alloc, case)?, Script::new(flags, steps.keeper)),
        audio: ScriptedSource::new(audio, Script::new(flags, steps.audio)),
        out: MemSink::new(alloc, failing(alloc, case, Call::AudioWrite)?),
        link: ScriptedLink::new(link(alloc, case)?, Script::new(flags, steps.link)),
        midi: ScriptedSource::new(midi, Script::new(flags, steps.midi)),
        console: MemSink::new(alloc, failing(alloc, case, Call::Tell)?),
    })
}

/// Plays a session.
fn played<'a, R: Wait + Clock + Threads + Sync>(
    rt: &R,
    alloc: Global,
    flags: &'a Flags,
    case: &Case,
) -> Result<Ended<'a>, Fail> {
    let words = words(alloc, case)?;
    let outside = outside(alloc, flags, case)?;
    Ok(live_run(alloc, rt, &words, outside))
}

/// The senders of the entries are these.
fn are_entries(entries: &[Entry], wanted: &[(u8, u32)]) -> bool {
    let mut left = entries.iter();
    for (sender, times) in wanted {
        for _ in 0..*times {
            match left.next() {
                Some(entry) if entry.sender == *sender => {}
                _ => return false,
            }
        }
    }
    left.next().is_none()
}

/// The packets that were sent are these.
fn are_sent(link: &MemLink, wanted: &[(u16, &[u8], u32)]) -> bool {
    let mut left = link.out().iter();
    for (port, bytes, times) in wanted {
        for _ in 0..*times {
            match left.next() {
                Some(packet) if packet.addr().ip == FROM.ip => {
                    if packet.addr().port != *port || packet.bytes() != *bytes {
                        return false;
                    }
                }
                _ => return false,
            }
        }
    }
    left.next().is_none()
}

/// Each of these files has its bytes.
fn have(keeper: &MemKeeper, files: &[(&str, &[u8])]) -> Result<bool, Fail> {
    for (file, wanted) in files {
        match keeper.file(&name(file)?) {
            Some(bytes) if bytes == *wanted => {}
            _ => return Ok(false),
        }
    }
    Ok(true)
}

/// The files at the end are those of the case.
fn are_left(keeper: &MemKeeper, case: &Case) -> Result<bool, Fail> {
    for file in case.missing {
        if keeper.file(&name(file)?).is_some() {
            return Ok(false);
        }
    }
    Ok(have(keeper, case.given)? && have(keeper, case.files)?)
}

/// No device was used: the call that is to fail, which is the first, is made here.
fn are_unused(outside: &mut Scripted) -> bool {
    let mut buf = [0; 8192];
    outside.audio.read(&mut buf) == SourceAnswer::Failed
        && outside.midi.read(&mut buf) == SourceAnswer::Failed
        && outside.link.recv(&mut buf) == LinkAnswer::Failed
}

/// What a session leaves beside its devices is what the case says.
fn leaves(rt: &impl Abort, case: &Case, session: &Session) {
    let title = case.title;
    let full = session.osc.tally.ring_full();
    assert_eq!(rt;
        (Some(session.frames), full),
        (case.frames, case.full),
        "{title}"
    );
    assert!(rt;
        are_entries(session.journal.entries(), case.entries),
        "the journal where {title}"
    );
}

/// Plays a session, and sees that it ends as it has to.
fn ends<R: Wait + Clock + Threads + Sync + Abort>(
    rt: &R,
    alloc: Global,
    case: &Case,
) -> Result<(), Fail> {
    let flags = Flags::new();
    let mut end = played(rt, alloc, &flags, case)?;
    let title = case.title;
    assert_eq!(rt;
        (end.status, end.outside.console.bytes()),
        (case.status, case.console),
        "{title}"
    );
    assert_eq!(rt; end.outside.out.bytes(), case.out, "{title}");
    assert!(rt;
        are_sent(&end.outside.link.link, case.sent),
        "the packets where {title}"
    );
    assert!(rt;
        are_left(&end.outside.keeper.keeper, case)?,
        "the files where {title}"
    );
    match &end.session {
        Some(session) => leaves(rt, case, session),
        None => assert!(rt;
            case.frames.is_none() && are_unused(&mut end.outside),
            "the devices where {title}"
        ),
    }
    Ok(())
}

/// Plays each of the sessions, and sees that it ends as it has to.
pub fn end<R: Wait + Clock + Threads + Sync + Abort>(
    rt: &R,
    alloc: Global,
    cases: &[Case],
) -> Result<(), Fail> {
    for case in cases {
        ends(rt, alloc, case)?;
    }
    Ok(())
}
