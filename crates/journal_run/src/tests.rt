//! A saved phrase and its release, whatever the period, and what a failing write leaves.

ghost use Rattle.std.specs.Prelude.{◌≤◌};
ghost use Rattle.sl_base.specs.Limits.{max_period};

use super::*;
use journal_text::read_journal;
use save_feeding::Stopped;
use sl_base::{MAX_FILE_FRAMES, Name};
use sl_commands::{Initial, Settings};
use sl_ports::MemKeeper;
use std::alloc::Global;
use std::test::Fail;
use wav_pcm::Input;

/// The samples 1 2 3 4 and ten zeros, in one channel of 16 bits at 48000 frames a second.
const PHRASE: &[u8] =
    b"RIFF\x40\0\0\0WAVEfmt \x10\0\0\0\x01\0\x01\0\x80\xbb\0\0\0\x77\x01\0\x02\0\x10\0data\x1c\0\0\0\x01\0\x02\0\x03\0\x04\0\0\0\0\0\0\0\0\0\0\0\0\0\0\0\0\0\0\0\0\0";

/// What is heard of it: four zeros, 1 2 3 4 1, and five zeros.
const HEARD: &[u8] =
    b"RIFF\x40\0\0\0WAVEfmt \x10\0\0\0\x01\0\x01\0\x80\xbb\0\0\0\x77\x01\0\x02\0\x10\0data\x1c\0\0\0\0\0\0\0\0\0\0\0\x01\0\x02\0\x03\0\x04\0\x01\0\0\0\0\0\0\0\0\0\0\0";

/// The phrase is saved while it plays, undone, and another is recorded; a second save waits for the
/// first one's release.
const JOURNAL: &[u8] =
    b"looper journal 1\n0 0 0 hit 0 record\n4 0 1 hit 0 record\n8 0 2 save 0 take.wav\n9 0 3 hit 0 undo\n9 0 4 hit 0 record\n10 0 5 save 0 other.wav\n12 2 0 release 0 0\n12 0 6 get 0 loop_len\nend\n";

/// The saved list: 1 2 3 4 on both sides, in 24 bits.
const TAKE: &[u8] =
    b"RIFF\x3c\0\0\0WAVEfmt \x10\0\0\0\x01\0\x02\0\x80\xbb\0\0\0\x65\x04\0\x06\0\x18\0data\x18\0\0\0\0\x01\0\0\x01\0\0\x02\0\0\x02\0\0\x03\0\0\x03\0\0\x04\0\0\x04\0";

const TOLD: &str =
    "reply 0 5 0 save_loop 2\nreply 0 2 0 save_loop 0\nreply 0 6 0 loop_len 3\nframes 14 entries 8 replies 3 saves 1 refused 0\n";

fn name(text: &str) -> Result<Name, Fail> {
    Ok(Name::read(text.as_bytes()).ok_or("not a name")?)
}

fn keeper(alloc: Global, failing: &[u64]) -> Result<MemKeeper, Fail> {
    Ok(MemKeeper::new(alloc, Vec::new(alloc), Vec::from_slice(alloc, failing)?))
}

/// Plays the journal over the phrase into one new loop.
fn played(
    alloc: Global,
    keeper: &mut MemKeeper,
    period: u32,
) -> Result<Result<Performed, Stopped>, Fail>
    requires some { 1 ≤ period }
    requires within { period ≤ max_period }
{
    let Ok(input) = Input::of(Vec::from_slice(alloc, PHRASE)?) else {
        return Err(Fail::from("not a WAV file"));
    };
    let Ok(entries) = read_journal(alloc, JOURNAL, 1) else {
        return Err(Fail::from("not a journal"));
    };
    if input.len() > MAX_FILE_FRAMES {
        return Err(Fail::from("too long"));
    }
    Ok(play(
        alloc,
        keeper,
        Settings::with_defaults(48000, 1),
        Initial::new(alloc),
        64,
        &input,
        entries.as_slice(),
        period,
    ))
}

#[test]
fn a_phrase_is_saved_while_it_plays_whatever_the_period(rt: HostRuntime) -> Result<(), Fail> {
    for period in 1..16 {
        let mut keeper = keeper(rt.alloc(), &[])?;
        let Ok(made) = played(rt.alloc(), &mut keeper, period)? else {
            return Err(Fail::from("not played"));
        };
        assert!(rt; made.out.as_slice() == HEARD, "OUT in periods of {period}");
        assert!(rt;
            made.text.as_str() == TOLD,
            "the text in periods of {period}"
        );
        assert!(rt;
            keeper.file(&name("take.wav")?) == Some(TAKE),
            "the saved list"
        );
        assert!(rt;
            keeper.file(&name("other.wav")?).is_none(),
            "the refused save"
        );
    }
    Ok(())
}

#[test]
fn a_failing_write_of_a_save_ends_the_run(rt: HostRuntime) -> Result<(), Fail> {
    let mut keeper = keeper(rt.alloc(), &[1])?;
    let ended = played(rt.alloc(), &mut keeper, 64)?;
    assert!(rt; matches!(ended, Err(Stopped::Writing)));
    assert!(rt; keeper.file(&name("take.wav")?).is_none());
    Ok(())
}
