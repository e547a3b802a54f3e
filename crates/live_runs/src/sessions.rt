//! Sessions that end by themselves, with each end worked out by hand from the rules.

use crate::session::{Case, UNUSED, empty, end};
use crate::texts::{EIGHT, GET, LIST, ONE, SAVE, SAVED, SET, SILENCE, TOLD_FOUR, TOLD_NONE, TWO};
use std::test::Fail;

/// Has the session saved under the name set1, and the answer 0.
const SAVE_ALL: &[u8] = b"/save_session\0\0\0,sss\0\0\0\0set1\0\0\0\0\0\0\0\0/r\0\0";

const SAVED_ALL: &[u8] = b"/r\0\0,isi\0\0\0\0\xff\xff\xff\xfesave_session\0\0\0\0\0\0\0\0";

/// A note on of the channel 1 hits `record`.
const BINDINGS: &[u8] = b"looper bindings 1\non 1 60 hit 0 record\nend\n";

/// A question while eight frames are played.
pub fn asked() -> Case {
    Case {
        title: "one question is asked while eight frames are played",
        audio: EIGHT,
        packets: &[(GET, 1)],
        frames: Some(8),
        out: SILENCE,
        entries: &[(0, 1)],
        sent: &[(9000, TOLD_NONE, 1)],
        console: b"frames 8 entries 1 osc 1 midi 0 unsent 0 saves 0 refused 0\nstatus 0\n",
        ..empty()
    }
}

/// A session that is loaded, without audio.
pub fn loaded() -> Case {
    Case {
        title: "a session is loaded",
        words: &["live", "--session", "s", "--chunks", "64", "--quota", "512"],
        more: &["--journal", "j"],
        given: ONE,
        console: b"frames 0 entries 0 osc 0 midi 0 unsent 0 saves 0 refused 0\nstatus 0\n",
        files: &[("j", b"looper journal 1\nend\n")],
        missing: &["a.wav"],
        ..empty()
    }
}

/// A session that is loaded, and whose loop is saved.
pub fn saved() -> Case {
    Case {
        title: "a loaded loop is saved",
        packets: &[(SAVE, 1)],
        entries: &[(0, 1), (2, 1)],
        sent: &[(9951, SAVED, 1)],
        console: b"frames 0 entries 2 osc 1 midi 0 unsent 0 saves 1 refused 0\nstatus 0\n",
        files: &[
            (
                "j",
                b"looper journal 1\n0 0 0 save 0 a.wav\n0 2 0 release 0 0\nend\n",
            ),
            ("a.wav", LIST),
        ],
        missing: &[],
        ..loaded()
    }
}

/// A session that doesn't begin.
pub fn refused() -> Case {
    Case {
        title: "a period has no frames",
        words: &["live", "--period", "0"],
        failing: UNUSED,
        status: 2,
        frames: None,
        console: b"status 2\n",
        ..empty()
    }
}

fn played() -> [Case; 6] {
    [
        empty(),
        asked(),
        Case {
            title: "a question is left at the end",
            more: &["--journal", "j"],
            packets: &[(GET, 1)],
            entries: &[(0, 1)],
            sent: &[(9000, TOLD_NONE, 1)],
            console: b"frames 0 entries 1 osc 1 midi 0 unsent 0 saves 0 refused 0\nstatus 0\n",
            files: &[("j", b"looper journal 1\n0 0 0 get 0 loop_len\nend\n")],
            missing: &["a.wav"],
            ..empty()
        },
        Case {
            title: "the audio ends within a frame",
            audio: b"\x01\0\x02",
            status: 6,
            frames: Some(1),
            out: b"\0\0",
            console: b"frames 1 entries 0 osc 0 midi 0 unsent 0 saves 0 refused 0\nstatus 6\n",
            ..empty()
        },
        Case {
            title: "a note hits what it is bound to",
            more: &["--journal", "j", "--bind", "b"],
            given: &[("b", BINDINGS)],
            midi: b"\x90\x3c\x40",
            entries: &[(1, 1)],
            console: b"frames 0 entries 1 osc 0 midi 1 unsent 0 saves 0 refused 0\nstatus 0\n",
            files: &[("j", b"looper journal 1\n0 1 0 hit 0 record\nend\n")],
            missing: &["a.wav"],
            ..empty()
        },
        refused(),
    ]
}

fn of_files() -> [Case; 6] {
    [
        loaded(),
        Case {
            title: "a loaded loop is asked for its length",
            packets: &[(GET, 1)],
            entries: &[(0, 1)],
            sent: &[(9000, TOLD_FOUR, 1)],
            console: b"frames 0 entries 1 osc 1 midi 0 unsent 0 saves 0 refused 0\nstatus 0\n",
            files: &[("j", b"looper journal 1\n0 0 0 get 0 loop_len\nend\n")],
            ..loaded()
        },
        saved(),
        Case {
            title: "a session is saved as it was loaded",
            packets: &[(SAVE_ALL, 1)],
            entries: &[(0, 1), (2, 1)],
            sent: &[(9951, SAVED_ALL, 1)],
            console: b"frames 0 entries 2 osc 1 midi 0 unsent 0 saves 1 refused 0\nstatus 0\n",
            files: &[
                (
                    "j",
                    b"looper journal 1\n0 0 0 session set1\n0 2 0 release -1 0\nend\n",
                ),
                ("set1", SET),
                ("set1-0.wav", LIST),
            ],
            ..loaded()
        },
        Case {
            title: "the session's file is missing",
            words: &["live", "--session", "none"],
            status: 3,
            console: b"file none fault 0 line 0\nstatus 3\n",
            ..refused()
        },
        Case {
            title: "two loops need more chunks than there are",
            words: &["live", "--session", "s", "--chunks", "1"],
            given: TWO,
            status: 9,
            console: b"status 9\n",
            ..refused()
        },
    ]
}

#[test]
fn sessions_end_as_the_rules_say(rt: HostRuntime) -> Result<(), Fail> {
    end(&rt, rt.alloc(), &played())?;
    end(&rt, rt.alloc(), &of_files())
}
