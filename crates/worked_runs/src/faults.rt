//! Wrong words, bad files and limits, and runs in which one call fails.

use crate::saves::{SET, TAKE, saved, set_loaded, set_saved};
use crate::tables::{Run, end, ends_over, given, put, render, wav};
use std::test::Fail;

/// The samples 1 to 8 without their last byte.
const CUT: &[u8] =
    b"RIFF\x34\0\0\0WAVEfmt \x10\0\0\0\x01\0\x01\0\x80\xbb\0\0\0\x77\x01\0\x02\0\x10\0data\
      \x10\0\0\0\x01\0\x02\0\x03\0\x04\0\x05\0\x06\0\x07\0\x08";

/// The samples 1 to 8, with another first byte.
const OTHER: &[u8] =
    b"xIFF\x34\0\0\0WAVEfmt \x10\0\0\0\x01\0\x01\0\x80\xbb\0\0\0\x77\x01\0\x02\0\x10\0data\
      \x10\0\0\0\x01\0\x02\0\x03\0\x04\0\x05\0\x06\0\x07\0\x08\0";

/// A phrase of four frames and its repetition.
fn phrase() -> Run {
    Run {
        title: "a phrase and its repetition",
        input: &[1, 2, 3, 4, 5, 6, 7, 8],
        journal: b"looper journal 1\n0 0 0 hit 0 record\n4 0 1 hit 0 record\nend\n",
        console: b"frames 8 entries 2 replies 0 saves 0 refused 0\nstatus 0\n",
        out: Some(&[0, 0, 0, 0, 1, 2, 3, 4]),
        ..render()
    }
}

/// A phrase of which nothing is written, since a file is bad.
fn refused() -> Run {
    Run {
        title: "no such journal",
        words: &["render", "in.wav", "none.txt", "out.wav"],
        status: 3,
        console: b"file none.txt fault 0 line 0\nstatus 3\n",
        out: None,
        ..phrase()
    }
}

#[test]
fn the_first_bad_file_is_told(rt: HostRuntime) -> Result<(), Fail> {
    let runs = [
        refused(),
        Run {
            title: "a journal without its last line",
            words: phrase().words,
            journal: b"looper journal 1\n0 0 0 hit 0 record\n4 0 1 hit 0 record\n",
            console: b"file journal.txt fault 6 line 4\nstatus 3\n",
            ..refused()
        },
        Run {
            title: "IN is cut off, and there is no journal",
            bad_input: Some(CUT),
            console: b"file in.wav fault 5 line 0\nstatus 3\n",
            ..refused()
        },
        Run {
            title: "IN isn't RIFF",
            bad_input: Some(OTHER),
            console: b"file in.wav fault 1 line 0\nstatus 3\n",
            ..refused()
        },
        Run {
            title: "too few words",
            words: &["render", "in.wav"],
            status: 2,
            console: b"status 2\n",
            ..refused()
        },
    ];
    end(&rt, rt.alloc(), &runs)
}

/// A session of one loop of 8192 frames, which is two chunks.
const LONG_SET: &[u8] = b"looper session 1
rate 48000
loops 1
dry 0
sync_source 0
selected_loop_num 0
fade_step 20
long_press 24000
pulse 24000
loop 0 8192 8192 1000 1000 0 0 0
end
";

/// A run over that session with one chunk.
fn limited() -> Run {
    Run {
        title: "a session of two chunks where there is one",
        words: &[
            "render",
            "in.wav",
            "journal.txt",
            "out.wav",
            "--chunks",
            "1",
            "--session",
            "long",
        ],
        status: 9,
        console: b"status 9\n",
        out: None,
        ..phrase()
    }
}

/// The same with two chunks. The loop has them both, so both hits of `record` are refused.
fn filled() -> Run {
    Run {
        title: "the same session where there are two chunks",
        words: &[
            "render",
            "in.wav",
            "journal.txt",
            "out.wav",
            "--session",
            "long",
            "--chunks",
            "2",
        ],
        console: b"frames 8 entries 2 replies 0 saves 0 refused 2\nstatus 0\n",
        out: Some(&[0, 0, 0, 0, 0, 0, 0, 0]),
        ..phrase()
    }
}

#[test]
fn a_limit_is_told_once_all_files_were_read(rt: HostRuntime) -> Result<(), Fail> {
    let runs = [
        limited(),
        filled(),
        Run {
            title: "a bad journal comes before the limit",
            journal: b"looper journal 1\n0 0 0 hit 1 record\nend\n",
            status: 3,
            console: b"file journal.txt fault 3 line 2\nstatus 3\n",
            ..limited()
        },
        Run {
            title: "a session that is shown isn't limited",
            words: &["show", "long"],
            status: 0,
            console: b"session loops 1 frames 8192\nloop 0 8192 8192\nstatus 0\n",
            ..limited()
        },
    ];
    let list = wav(rt.alloc(), 2, 3, &[], 16384)?;
    for run in &runs {
        let mut keeper = given(rt.alloc(), run)?;
        put(rt.alloc(), &mut keeper, "long", LONG_SET)?;
        put(rt.alloc(), &mut keeper, "long-0.wav", &list)?;
        ends_over(&rt, rt.alloc(), run, &[], &mut keeper)?;
    }
    Ok(())
}

/// What a failing reading makes of a run that saves a loop.
fn unread() -> Run {
    Run {
        title: "reading IN fails",
        failing_reads: &[1],
        status: 4,
        console: b"status 4\n",
        out: None,
        take: None,
        ..saved()
    }
}

/// What a failing reading makes of a run that begins with a session.
fn unread_set() -> Run {
    Run {
        title: "reading IN before a session fails",
        failing_reads: &[1],
        status: 4,
        console: b"status 4\n",
        out: None,
        ..set_loaded()
    }
}

#[test]
fn a_failing_reading_leaves_all_files(rt: HostRuntime) -> Result<(), Fail> {
    let runs = [
        unread(),
        Run {
            title: "reading JOURNAL fails",
            failing_reads: &[2],
            ..unread()
        },
        Run {
            title: "IN is bad, and reading JOURNAL would fail",
            bad_input: Some(CUT),
            failing_reads: &[2],
            status: 3,
            console: b"file in.wav fault 5 line 0\nstatus 3\n",
            ..unread()
        },
        unread_set(),
        Run {
            title: "reading a session's text fails",
            failing_reads: &[2],
            ..unread_set()
        },
        Run {
            title: "reading a session's WAV file fails",
            failing_reads: &[3],
            ..unread_set()
        },
        Run {
            title: "reading JOURNAL behind a session fails",
            failing_reads: &[4],
            ..unread_set()
        },
        Run {
            title: "a fifth reading would fail",
            failing_reads: &[5],
            ..set_loaded()
        },
    ];
    end(&rt, rt.alloc(), &runs)
}

/// What a failing write makes of a run that saves a session.
fn unwritten() -> Run {
    Run {
        title: "writing a session's WAV file fails",
        failing_writes: &[1],
        status: 5,
        console: b"status 5\n",
        out: None,
        list_left: None,
        set_left: None,
        ..set_saved()
    }
}

/// What a failing write of OUT makes of a run that saves a loop.
fn unwritten_out() -> Run {
    Run {
        title: "writing OUT behind the saved loop fails",
        failing_writes: &[2],
        status: 5,
        console: b"status 5\n",
        out: None,
        ..saved()
    }
}

#[test]
fn a_failing_write_ends_all_writing(rt: HostRuntime) -> Result<(), Fail> {
    let runs = [
        unwritten_out(),
        Run {
            title: "writing the saved loop fails",
            failing_writes: &[1],
            take: None,
            ..unwritten_out()
        },
        unwritten(),
        Run {
            title: "writing a session's text fails",
            failing_writes: &[2],
            list_left: Some(TAKE),
            ..unwritten()
        },
        Run {
            title: "writing OUT behind a session fails",
            failing_writes: &[3],
            list_left: Some(TAKE),
            set_left: Some(SET),
            ..unwritten()
        },
        Run {
            title: "telling the console fails",
            failing_texts: &[1],
            status: 5,
            console: b"",
            ..set_saved()
        },
    ];
    end(&rt, rt.alloc(), &runs)
}

/// What a failing call makes of the phrase.
fn failing() -> Run {
    Run {
        title: "reading the phrase's IN fails",
        failing_reads: &[1],
        status: 4,
        console: b"status 4\n",
        out: None,
        ..phrase()
    }
}

/// What a failing write of OUT makes of the phrase.
fn failing_write() -> Run {
    Run {
        title: "writing the phrase's OUT fails",
        failing_writes: &[1],
        status: 5,
        console: b"status 5\n",
        out: None,
        ..phrase()
    }
}

#[test]
fn each_call_of_a_recorded_phrase_fails(rt: HostRuntime) -> Result<(), Fail> {
    let runs = [
        failing(),
        Run {
            title: "reading the phrase's JOURNAL fails",
            failing_reads: &[2],
            ..failing()
        },
        failing_write(),
        Run {
            title: "reading the phrase's IN fails, and telling it fails too",
            failing_texts: &[1],
            console: b"",
            ..failing()
        },
        Run {
            title: "telling of the phrase fails",
            failing_texts: &[1],
            status: 5,
            console: b"",
            ..phrase()
        },
        Run {
            title: "a third reading and a second write would fail",
            failing_reads: &[3],
            failing_writes: &[2],
            ..phrase()
        },
    ];
    end(&rt, rt.alloc(), &runs)
}
