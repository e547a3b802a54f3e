//! What is saved: lists and sessions as they were at their entries.

use crate::tables::{Run, ends_over, given, render};
use std::test::Fail;

/// The list 1 2 3 4 as the file of a save: 2 channels of 24 bits.
pub const TAKE: &[u8] =
    b"RIFF\x3c\0\0\0WAVEfmt \x10\0\0\0\x01\0\x02\0\x80\xbb\0\0\0\x65\x04\0\x06\0\x18\0data\
      \x18\0\0\0\0\x01\0\0\x01\0\0\x02\0\0\x02\0\0\x03\0\0\x03\0\0\x04\0\0\x04\0";

/// The text of a session of one loop of four frames.
pub const SET: &[u8] = b"looper session 1
rate 48000
loops 1
dry 0
sync_source 0
selected_loop_num 0
fade_step 20
long_press 24000
pulse 24000
loop 0 4 4 1000 1000 0 0 0
end
";

/// A loop is saved while it plays. Before the save is answered it is undone, and another recorded.
pub fn saved() -> Run {
    Run {
        title: "a save of a loop",
        input: &[1, 2, 3, 4, 0, 0, 0, 0, 0, 0, 0, 0, 0, 0],
        journal: b"looper journal 1
0 0 0 hit 0 record
4 0 1 hit 0 record
8 0 2 save 0 take.wav
9 0 3 hit 0 undo
9 0 4 hit 0 record
10 0 5 save 0 other.wav
12 2 0 release 0 0
12 0 6 get 0 loop_len
end
",
        console: b"reply 0 5 0 save_loop 2
reply 0 2 0 save_loop 0
reply 0 6 0 loop_len 3
frames 14 entries 8 replies 3 saves 1 refused 0
status 0
",
        out: Some(&[0, 0, 0, 0, 1, 2, 3, 4, 1, 0, 0, 0, 0, 0]),
        take: Some(TAKE),
        ..render()
    }
}

/// A session is saved at the frame at which its loop has its four frames.
pub fn set_saved() -> Run {
    Run {
        title: "a save of a session",
        input: &[1, 2, 3, 4, 5, 6, 7, 8],
        journal: b"looper journal 1
0 0 0 hit 0 record
4 0 1 hit 0 record
4 0 2 session set1
4 2 0 release -1 0
end
",
        console: b"reply 0 2 -2 save_session 0
frames 8 entries 4 replies 1 saves 1 refused 0
status 0
",
        out: Some(&[0, 0, 0, 0, 1, 2, 3, 4]),
        list_left: Some(TAKE),
        set_left: Some(SET),
        ..render()
    }
}

/// The session is loaded and started: its loop is heard from its start.
pub fn set_loaded() -> Run {
    Run {
        title: "a run that begins with a session",
        words: &[
            "render",
            "in.wav",
            "journal.txt",
            "out.wav",
            "--session",
            "set1",
        ],
        input: &[0, 0, 0, 0, 0, 0, 0, 0],
        journal: b"looper journal 1
0 0 0 get 0 state
2 0 1 hit 0 trigger
end
",
        set: Some(SET),
        list: Some(TAKE),
        console: b"reply 0 0 0 state 14
frames 8 entries 2 replies 1 saves 0 refused 0
status 0
",
        out: Some(&[0, 0, 1, 2, 3, 4, 1, 2]),
        list_left: Some(TAKE),
        set_left: Some(SET),
        ..render()
    }
}

#[test]
fn a_loop_is_saved_as_it_was_at_its_entry(rt: HostRuntime) -> Result<(), Fail> {
    let mut keeper = given(rt.alloc(), &saved())?;
    ends_over(&rt, rt.alloc(), &saved(), &[], &mut keeper)
}

#[test]
fn a_session_is_saved_then_shown_and_loaded(rt: HostRuntime) -> Result<(), Fail> {
    let mut keeper = given(rt.alloc(), &set_saved())?;
    ends_over(&rt, rt.alloc(), &set_saved(), &[], &mut keeper)?;
    let shown = Run {
        title: "a look at the session",
        words: &["show", "set1"],
        console: b"session loops 1 frames 4\nloop 0 4 4\nstatus 0\n",
        ..set_saved()
    };
    ends_over(&rt, rt.alloc(), &shown, &[], &mut keeper)?;
    let mut keeper = given(rt.alloc(), &set_loaded())?;
    ends_over(&rt, rt.alloc(), &set_loaded(), &[], &mut keeper)
}
