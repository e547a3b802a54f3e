//! What is heard: runs of `render`, sample by sample.

use crate::saves::saved;
use crate::tables::{Run, end, ends_over, given, render};
use std::test::Fail;

/// An overdub of four frames over a loop of four, taken back and restored.
fn layers() -> Run {
    Run {
        title: "undo and redo",
        input: &[
            1, 2, 3, 4, 0, 0, 0, 0, 10, 10, 10, 10, 0, 0, 0, 0, 0, 0, 0, 0, 0, 0, 0, 0,
        ],
        journal: b"looper journal 1
0 0 0 hit 0 record
4 0 1 hit 0 record
8 0 2 hit 0 overdub
12 0 3 hit 0 overdub
16 0 4 hit 0 undo
20 0 5 hit 0 redo
end
",
        console: b"frames 24 entries 6 replies 0 saves 0 refused 0
status 0
",
        out: Some(&[
            0, 0, 0, 0, 1, 2, 3, 4, 1, 2, 3, 4, 11, 12, 13, 14, 1, 2, 3, 4, 11, 12, 13, 14,
        ]),
        ..render()
    }
}

/// A loop of three frames is multiplied from frame 3 to frame 10: its list is cut to seven frames.
fn multiplied() -> Run {
    Run {
        title: "multiply without round",
        input: &[1, 2, 3, 0, 0, 0, 0, 0, 0, 0, 0, 0, 0, 0, 0, 0, 0],
        journal: b"looper journal 1
0 0 0 hit 0 record
3 0 1 hit 0 record
3 0 2 hit 0 multiply
10 0 3 hit 0 multiply
10 0 4 get 0 loop_len
10 0 5 get 0 cycle_len
end
",
        console: b"reply 0 4 0 loop_len 7
reply 0 5 0 cycle_len 3
frames 17 entries 6 replies 2 saves 0 refused 0
status 0
",
        out: Some(&[0, 0, 0, 1, 2, 3, 1, 2, 3, 1, 1, 2, 3, 1, 2, 3, 1]),
        ..render()
    }
}

/// The same with round: it goes on to three whole turns. Then the last turn is overdubbed.
fn rounded() -> Run {
    Run {
        title: "multiply with round",
        input: &[
            1, 2, 3, 0, 0, 0, 0, 0, 0, 0, 0, 0, 0, 0, 0, 0, 0, 0, 10, 10, 10, 0, 0, 0, 0, 0, 0, 0,
            0, 0,
        ],
        journal: b"looper journal 1
0 0 0 set 0 round 1
0 0 1 hit 0 record
3 0 2 hit 0 record
3 0 3 hit 0 multiply
10 0 4 hit 0 multiply
11 0 5 get 0 state
12 0 6 get 0 loop_len
18 0 7 hit 0 overdub
21 0 8 hit 0 overdub
end
",
        console: b"reply 0 5 0 state 3
reply 0 6 0 loop_len 9
frames 30 entries 9 replies 2 saves 0 refused 0
status 0
",
        out: Some(&[
            0, 0, 0, 1, 2, 3, 1, 2, 3, 1, 2, 3, 1, 2, 3, 1, 2, 3, 1, 2, 3, 1, 2, 3, 1, 2, 3, 11,
            12, 13,
        ]),
        ..render()
    }
}

/// What is heard of the samples 1 to 8 where a loop of four frames waits for another of four.
fn quantised() -> Run {
    Run {
        title: "verbs that wait for the first loop's cycle",
        words: &["render", "in.wav", "journal.txt", "out.wav", "--loops", "2"],
        input: &[1, 2, 3, 4, 5, 6, 7, 8, 0, 0, 0, 0, 0, 0, 0, 0],
        journal: b"looper journal 1
0 0 0 hit 0 record
4 0 1 hit 0 record
4 0 2 hit 1 record
8 0 3 hit 1 record
8 0 4 set 0 quantize 1
8 0 5 set 1 quantize 1
8 0 6 gset sync_source 1
9 0 7 hit 0 mute
9 0 8 hit 1 overdub
10 0 9 get 1 waiting
12 0 10 get 1 state
13 0 11 get 1 state
13 0 12 get 0 state
end
",
        console: b"reply 0 9 1 waiting 1
reply 0 10 1 state 4
reply 0 11 1 state 5
reply 0 12 0 state 10
frames 16 entries 13 replies 4 saves 0 refused 0
status 0
",
        out: Some(&[0, 0, 0, 0, 1, 2, 3, 4, 6, 8, 10, 12, 5, 6, 7, 8]),
        ..render()
    }
}

/// A phrase of four frames and its repetition.
fn repeated() -> Run {
    Run {
        title: "a phrase and its repetition",
        input: &[1, 2, 3, 4, 5, 6, 7, 8],
        journal: b"looper journal 1
0 0 0 hit 0 record
4 0 1 hit 0 record
end
",
        console: b"frames 8 entries 2 replies 0 saves 0 refused 0
status 0
",
        out: Some(&[0, 0, 0, 0, 1, 2, 3, 4]),
        ..render()
    }
}

/// A recording that ends at the frame at which it begins.
fn empty() -> Run {
    Run {
        title: "a recording of no frames",
        input: &[1, 2, 3, 4, 5, 6, 7, 8],
        journal: b"looper journal 1
0 0 0 hit 0 record
0 0 1 hit 0 record
0 0 2 get 0 loop_len
0 0 3 get 0 state
0 0 4 get 0 layers
end
",
        console: b"reply 0 2 0 loop_len 0
reply 0 3 0 state 0
reply 0 4 0 layers 0
frames 8 entries 5 replies 3 saves 0 refused 0
status 0
",
        out: Some(&[0, 0, 0, 0, 0, 0, 0, 0]),
        ..render()
    }
}

/// A recording that begins with the first frame of a level of 512.
fn awaited() -> Run {
    Run {
        title: "a recording that waits for a threshold",
        input: &[1, 1, 2, 3, 0, 0, 0, 0],
        journal: b"looper journal 1
0 0 0 set 0 rec_thresh 512
0 0 1 hit 0 record
1 0 2 get 0 state
4 0 3 hit 0 record
end
",
        console: b"reply 0 2 0 state 1
frames 8 entries 4 replies 1 saves 0 refused 0
status 0
",
        out: Some(&[0, 0, 0, 0, 2, 3, 2, 3]),
        ..render()
    }
}

#[test]
fn a_phrase_is_recorded_and_repeated(rt: HostRuntime) -> Result<(), Fail> {
    end(&rt, rt.alloc(), &[repeated(), render(), empty(), awaited()])
}

#[test]
fn an_overdub_is_laid_on_top_taken_back_and_restored(rt: HostRuntime) -> Result<(), Fail> {
    let runs = [
        layers(),
        Run {
            title: "undo in the middle of an overdub",
            input: &[1, 2, 3, 4, 0, 0, 0, 0, 10, 10, 0, 0, 0, 0, 0, 0],
            journal: b"looper journal 1
0 0 0 hit 0 record
4 0 1 hit 0 record
8 0 2 hit 0 overdub
10 0 3 hit 0 undo
12 0 4 hit 0 redo
end
",
            console: b"frames 16 entries 5 replies 0 saves 0 refused 0
status 0
",
            out: Some(&[0, 0, 0, 0, 1, 2, 3, 4, 1, 2, 3, 4, 11, 12, 3, 4]),
            ..render()
        },
        Run {
            title: "an overdub backward",
            input: &[1, 2, 3, 4, 0, 0, 0, 0, 10, 20, 30, 40, 0, 0, 0, 0],
            journal: b"looper journal 1
0 0 0 hit 0 record
4 0 1 hit 0 record
4 0 2 hit 0 reverse
8 0 3 hit 0 overdub
12 0 4 hit 0 overdub
12 0 5 hit 0 reverse
end
",
            console: b"frames 16 entries 6 replies 0 saves 0 refused 0
status 0
",
            out: Some(&[0, 0, 0, 0, 1, 4, 3, 2, 1, 4, 3, 2, 11, 42, 33, 24]),
            ..render()
        },
    ];
    end(&rt, rt.alloc(), &runs)
}

#[test]
fn multiply_and_insert_make_a_loop_longer(rt: HostRuntime) -> Result<(), Fail> {
    let runs = [
        multiplied(),
        rounded(),
        Run {
            title: "insert at the loop's start",
            input: &[1, 2, 3, 4, 8, 9, 0, 0, 0, 0, 0, 0],
            journal: b"looper journal 1
0 0 0 hit 0 record
4 0 1 hit 0 record
4 0 2 hit 0 insert
6 0 3 hit 0 insert
end
",
            console: b"frames 12 entries 4 replies 0 saves 0 refused 0
status 0
",
            out: Some(&[0, 0, 0, 0, 0, 0, 1, 2, 3, 4, 8, 9]),
            ..render()
        },
        Run {
            title: "insert before the loop's last frame",
            input: &[1, 2, 3, 4, 0, 0, 0, 8, 9, 0, 0, 0, 0, 0, 0, 0],
            journal: b"looper journal 1
0 0 0 hit 0 record
4 0 1 hit 0 record
7 0 2 hit 0 insert
9 0 3 hit 0 insert
end
",
            console: b"frames 16 entries 4 replies 0 saves 0 refused 0
status 0
",
            out: Some(&[0, 0, 0, 0, 1, 2, 3, 0, 0, 4, 1, 2, 3, 8, 9, 4]),
            ..render()
        },
    ];
    end(&rt, rt.alloc(), &runs)
}

/// A loop of one frame is overdubbed with the greatest sample of 24 bits, which it has.
fn loudest() -> Run {
    Run {
        title: "the greatest sample twice",
        size: 3,
        input: &[8388607, 8388607, 0],
        journal: b"looper journal 1
0 0 0 hit 0 record
1 0 1 hit 0 record
1 0 2 hit 0 overdub
2 0 3 hit 0 overdub
end
",
        console: b"frames 3 entries 4 replies 0 saves 0 refused 0\nstatus 0\n",
        out: Some(&[0, 8388607, 8388607]),
        ..render()
    }
}

#[test]
fn sums_are_clamped_and_gains_move_by_steps(rt: HostRuntime) -> Result<(), Fail> {
    let runs = [
        loudest(),
        Run {
            title: "the least sample twice",
            input: &[-8388608, -8388608, 0],
            out: Some(&[0, -8388608, -8388608]),
            ..loudest()
        },
        Run {
            title: "dry rises by half in a frame",
            size: 3,
            input: &[1000, 1000, 1000],
            journal: b"looper journal 1
0 0 0 gset fade_step 500
0 0 1 gset dry 1000
end
",
            console: b"frames 3 entries 2 replies 0 saves 0 refused 0\nstatus 0\n",
            out: Some(&[500, 1000, 1000]),
            ..render()
        },
    ];
    end(&rt, rt.alloc(), &runs)
}

/// A loop of four frames is overdubbed for as long as a press that is long enough to end it.
fn held() -> Run {
    Run {
        title: "overdub held for long_press frames",
        input: &[1, 2, 3, 4, 0, 0, 0, 0],
        journal: b"looper journal 1
0 0 0 gset long_press 2
0 0 1 hit 0 record
4 0 2 hit 0 record
4 0 3 down 0 overdub
6 0 4 up 0 overdub
7 0 5 get 0 state
end
",
        console: b"reply 0 5 0 state 4
frames 8 entries 6 replies 1 saves 0 refused 0
status 0
",
        out: Some(&[0, 0, 0, 0, 1, 2, 3, 4]),
        ..render()
    }
}

#[test]
fn a_verb_waits_for_a_boundary_and_a_long_press_ends_it(rt: HostRuntime) -> Result<(), Fail> {
    let runs = [
        quantised(),
        held(),
        Run {
            title: "overdub held for one frame less",
            journal: b"looper journal 1
0 0 0 gset long_press 3
0 0 1 hit 0 record
4 0 2 hit 0 record
4 0 3 down 0 overdub
6 0 4 up 0 overdub
7 0 5 get 0 state
end
",
            console: b"reply 0 5 0 state 5
frames 8 entries 6 replies 1 saves 0 refused 0
status 0
",
            ..held()
        },
    ];
    end(&rt, rt.alloc(), &runs)
}

#[test]
fn the_same_is_heard_told_and_saved_whatever_the_period(rt: HostRuntime) -> Result<(), Fail> {
    for run in &[layers(), multiplied(), rounded(), saved()] {
        for period in ["1", "3", "64", "8192"] {
            let mut keeper = given(rt.alloc(), run)?;
            ends_over(&rt, rt.alloc(), run, &["--period", period], &mut keeper)?;
        }
    }
    Ok(())
}
