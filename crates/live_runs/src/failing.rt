//! Sessions in which one call fails, or two do, as docs/hostile.md lists them.

use crate::session::{Call, Case, empty, end};
use crate::sessions::{asked, loaded, refused};
use crate::texts::{NOT_SAVED, ONE, SAVE};
use std::test::Fail;

/// Four frames of silence.
const FOUR: &[u8] = b"\0\0\0\0\0\0\0\0";

fn of_audio() -> [Case; 5] {
    [
        Case {
            title: "the first read of audio fails",
            failing: &[(Call::AudioRead, 1)],
            status: 4,
            frames: Some(0),
            out: b"",
            console: b"frames 0 entries 1 osc 1 midi 0 unsent 0 saves 0 refused 0\nstatus 4\n",
            ..asked()
        },
        Case {
            title: "the second read of audio fails",
            failing: &[(Call::AudioRead, 2)],
            status: 4,
            frames: Some(4),
            out: FOUR,
            console: b"frames 4 entries 1 osc 1 midi 0 unsent 0 saves 0 refused 0\nstatus 4\n",
            ..asked()
        },
        Case {
            title: "the first write of audio fails",
            failing: &[(Call::AudioWrite, 1)],
            status: 5,
            frames: Some(4),
            out: b"",
            console: b"frames 4 entries 1 osc 1 midi 0 unsent 0 saves 0 refused 0\nstatus 5\n",
            ..asked()
        },
        Case {
            title: "the second write of audio and the first receive fail",
            failing: &[(Call::AudioWrite, 2), (Call::Receive, 1)],
            status: 5,
            out: FOUR,
            entries: &[],
            sent: &[],
            console: b"frames 8 entries 0 osc 0 midi 0 unsent 0 saves 0 refused 0\nstatus 5\n",
            ..asked()
        },
        Case {
            title: "the second read and the first write of audio fail",
            failing: &[(Call::AudioRead, 2), (Call::AudioWrite, 1)],
            status: 5,
            frames: Some(4),
            out: b"",
            console: b"frames 4 entries 1 osc 1 midi 0 unsent 0 saves 0 refused 0\nstatus 5\n",
            ..asked()
        },
    ]
}

fn of_messages() -> [Case; 3] {
    [
        Case {
            title: "the first receive fails",
            failing: &[(Call::Receive, 1)],
            status: 7,
            entries: &[],
            sent: &[],
            console: b"frames 8 entries 0 osc 0 midi 0 unsent 0 saves 0 refused 0\nstatus 7\n",
            ..asked()
        },
        Case {
            title: "the first send fails",
            failing: &[(Call::Send, 1)],
            sent: &[],
            console: b"frames 8 entries 1 osc 1 midi 0 unsent 1 saves 0 refused 0\nstatus 0\n",
            ..asked()
        },
        Case {
            title: "the first read of MIDI fails",
            failing: &[(Call::MidiRead, 1)],
            status: 4,
            console: b"frames 8 entries 1 osc 1 midi 0 unsent 0 saves 0 refused 0\nstatus 4\n",
            ..asked()
        },
    ]
}

fn of_files() -> [Case; 4] {
    [
        Case {
            title: "the session's file can't be read",
            words: empty().words,
            more: &["--session", "s"],
            given: ONE,
            failing: &[
                (Call::FileRead, 1),
                (Call::AudioRead, 1),
                (Call::MidiRead, 1),
                (Call::Receive, 1),
            ],
            status: 4,
            console: b"status 4\n",
            ..refused()
        },
        Case {
            title: "the journal can't be written",
            more: &["--journal", "j"],
            failing: &[(Call::FileWrite, 1)],
            status: 5,
            console: b"frames 8 entries 1 osc 1 midi 0 unsent 0 saves 0 refused 0\nstatus 5\n",
            ..asked()
        },
        Case {
            title: "the console can't be written",
            failing: &[(Call::Tell, 1)],
            status: 5,
            console: b"",
            ..asked()
        },
        Case {
            title: "a saved loop can't be written",
            more: &[],
            packets: &[(SAVE, 1)],
            failing: &[(Call::FileWrite, 1)],
            entries: &[(0, 1), (2, 1)],
            sent: &[(9951, NOT_SAVED, 1)],
            console: b"frames 0 entries 2 osc 1 midi 0 unsent 0 saves 1 refused 0\nstatus 0\n",
            files: &[],
            missing: &["a.wav", "j"],
            ..loaded()
        },
    ]
}

#[test]
fn a_call_that_fails_ends_what_it_has_to(rt: HostRuntime) -> Result<(), Fail> {
    end(&rt, rt.alloc(), &of_audio())?;
    end(&rt, rt.alloc(), &of_messages())?;
    end(&rt, rt.alloc(), &of_files())
}
