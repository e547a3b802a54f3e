//! Looks at a session: status and console. No file is changed.

use crate::saves::TAKE;
use crate::tables::{Run, end, render};
use std::test::Fail;

/// A session of two loops, of four frames and of none.
const SESSION: &[u8] = b"looper session 1
rate 48000
loops 2
dry 0
sync_source 0
selected_loop_num 0
fade_step 20
long_press 24000
pulse 24000
loop 0 4 2 1000 1000 0 0 0
loop 1 0 0 1000 1000 0 0 0
end
";

/// A look at the session as it stands.
fn look() -> Run {
    Run {
        title: "a session of two loops",
        words: &["show", "set1"],
        set: Some(SESSION),
        list: Some(TAKE),
        console: b"session loops 2 frames 4\nloop 0 4 2\nloop 1 0 0\nstatus 0\n",
        out: None,
        list_left: Some(TAKE),
        set_left: Some(SESSION),
        ..render()
    }
}

/// A look at a session whose WAV file isn't RIFF.
fn at_bad_list() -> Run {
    Run {
        title: "a list that isn't RIFF",
        list: Some(b"RIFX"),
        status: 3,
        console: b"file set1-0.wav fault 1 line 0\nstatus 3\n",
        list_left: Some(b"RIFX"),
        ..look()
    }
}

#[test]
fn a_session_is_told_loop_by_loop(rt: HostRuntime) -> Result<(), Fail> {
    end(&rt, rt.alloc(), &[look()])
}

#[test]
fn the_first_bad_file_of_a_session_is_told(rt: HostRuntime) -> Result<(), Fail> {
    let runs = [
        at_bad_list(),
        Run {
            title: "no such session",
            words: &["show", "set2"],
            console: b"file set2 fault 0 line 0\nstatus 3\n",
            ..at_bad_list()
        },
        Run {
            title: "another header",
            set: Some(b"looper session 2\n"),
            console: b"file set1 fault 1 line 1\nstatus 3\n",
            set_left: Some(b"looper session 2\n"),
            ..at_bad_list()
        },
        Run {
            title: "the second reading fails",
            failing_reads: &[2],
            status: 4,
            console: b"status 4\n",
            ..look()
        },
        Run {
            title: "the console fails",
            failing_texts: &[1],
            status: 5,
            console: b"",
            ..look()
        },
    ];
    end(&rt, rt.alloc(), &runs)
}
