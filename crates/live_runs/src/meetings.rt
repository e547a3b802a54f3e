//! Sessions whose devices wait for one another. What they come to is the same whatever the
//! schedule, and only activities on threads of their own come to it.

use crate::flags::Flag;
use crate::scripts::Step;
use crate::session::{Case, Steps, empty, end};
use crate::sessions::{asked, saved};
use crate::texts::{
    GET, LIST, ONE, SAVE, SAVE_SECOND, SAVED, SAVED_SECOND, SILENCE, TOLD_FOUR, TOLD_NONE, TWO,
};
use std::test::Fail;

/// Starts the loop.
const TRIGGER: &[u8] = b"/sl/0/hit\0\0\0,s\0\0trigger\0";

/// Eight frames of a loop of 1 2 3 4.
const HEARD: &[u8] = b"\x01\0\x02\0\x03\0\x04\0\x01\0\x02\0\x03\0\x04\0";

fn met() -> [Case; 4] {
    [
        Case {
            title: "a question comes while the second period is read",
            more: &["--journal", "j"],
            steps: Steps {
                audio: &[
                    Step::Pass(1),
                    Step::Raise(Flag::Audio),
                    Step::Wait(Flag::Link),
                ],
                link: &[Step::Until(Flag::Audio), Step::Raise(Flag::Link)],
                ..empty().steps
            },
            files: &[("j", b"looper journal 1\n8 0 0 get 0 loop_len\nend\n")],
            missing: &["a.wav"],
            ..asked()
        },
        Case {
            title: "300 questions come, each behind the answer to the one before",
            packets: &[(GET, 300)],
            steps: Steps {
                audio: &[Step::Until(Flag::AllCame)],
                link: &[Step::Answered(300), Step::Raise(Flag::AllCame)],
                ..empty().steps
            },
            entries: &[(0, 300)],
            sent: &[(9000, TOLD_NONE, 300)],
            console: b"frames 0 entries 300 osc 300 midi 0 unsent 0 saves 0 refused 0\nstatus 0\n",
            ..empty()
        },
        Case {
            title: "all four activities meet while a loop is saved",
            steps: Steps {
                audio: &[Step::Until(Flag::Keeper), Step::Meet(Flag::Audio)],
                link: &[
                    Step::Pass(1),
                    Step::Until(Flag::Keeper),
                    Step::Meet(Flag::Link),
                ],
                midi: &[Step::Meet(Flag::Midi)],
                keeper: &[Step::Meet(Flag::Keeper)],
            },
            ..saved()
        },
        Case {
            title: "a loaded loop is started before the first period",
            words: empty().words,
            more: &["--session", "s", "--journal", "j"],
            given: ONE,
            audio: SILENCE,
            packets: &[(TRIGGER, 1)],
            steps: Steps {
                audio: &[Step::Until(Flag::Heard), Step::Idle],
                link: &[Step::Pass(1), Step::Raise(Flag::Heard)],
                ..empty().steps
            },
            frames: Some(8),
            out: HEARD,
            entries: &[(0, 1)],
            console: b"frames 8 entries 1 osc 1 midi 0 unsent 0 saves 0 refused 0\nstatus 0\n",
            files: &[("j", b"looper journal 1\n0 0 0 hit 0 trigger\nend\n")],
            missing: &["a.wav"],
            ..empty()
        },
    ]
}

/// Sessions at whose end a ring is full.
fn full() -> [Case; 2] {
    [
        Case {
            title: "300 questions come while the audio is read",
            packets: &[(GET, 300)],
            steps: Steps {
                audio: &[
                    Step::Raise(Flag::MayCome),
                    Step::Wait(Flag::AllCame),
                    Step::Raise(Flag::Ended),
                ],
                link: &[
                    Step::Until(Flag::MayCome),
                    Step::Pass(300),
                    Step::Raise(Flag::AllCame),
                    Step::Wait(Flag::Ended),
                ],
                ..empty().steps
            },
            entries: &[(0, 256)],
            sent: &[(9000, TOLD_NONE, 256)],
            full: 44,
            console: b"frames 0 entries 256 osc 256 midi 0 unsent 0 saves 0 refused 0\nstatus 0\n",
            ..empty()
        },
        Case {
            title: "the answer to a save finds the ring of replies full",
            words: empty().words,
            more: &["--session", "s"],
            given: TWO,
            packets: &[(SAVE, 1), (SAVE_SECOND, 1), (GET, 256)],
            steps: Steps {
                audio: &[
                    Step::Until(Flag::Heard),
                    Step::Idle,
                    Step::Until(Flag::Keeper),
                    Step::Raise(Flag::MayWrite),
                    Step::Wait(Flag::Written),
                    Step::Raise(Flag::MayCome),
                    Step::Wait(Flag::AllCame),
                    Step::Idle,
                    Step::Raise(Flag::Ended),
                ],
                link: &[
                    Step::Pass(2),
                    Step::Raise(Flag::Heard),
                    Step::Until(Flag::MayCome),
                    Step::Pass(256),
                    Step::Raise(Flag::AllCame),
                    Step::Wait(Flag::Ended),
                ],
                keeper: &[
                    Step::Raise(Flag::Keeper),
                    Step::Wait(Flag::MayWrite),
                    Step::Pass(1),
                    Step::Raise(Flag::Written),
                ],
                ..empty().steps
            },
            entries: &[(0, 258), (2, 2)],
            sent: &[
                (9000, TOLD_FOUR, 256),
                (9951, SAVED, 1),
                (9951, SAVED_SECOND, 1),
            ],
            console: b"frames 0 entries 260 osc 258 midi 0 unsent 0 saves 2 refused 0\nstatus 0\n",
            files: &[("a.wav", LIST), ("b.wav", LIST)],
            missing: &["j"],
            ..empty()
        },
    ]
}

#[test]
fn activities_meet_on_threads_of_their_own(rt: HostRuntime) -> Result<(), Fail> {
    end(&rt, rt.alloc(), &met())
}

#[test]
fn what_full_rings_hold_is_settled(rt: HostRuntime) -> Result<(), Fail> {
    end(&rt, rt.alloc(), &full())
}
