//! Saves, block by block, into a keeper in memory.

ghost use Rattle.std.specs.Prelude.{◌≡◌, true, length};
ghost use Rattle.sl_commands.specs.Blocks.{fits_target, has_list};

use super::*;
use sl_base::{Frame, MAX_SESSION_NAME, Name};
use sl_commands::{Block, Globals, PartFrames, Settings, StripSettings, Strips, Target};
use sl_ports::MemKeeper;
use std::alloc::Global;
use std::test::Fail;

fn name(text: &str) -> Result<Name, Fail> {
    Ok(Name::read(text.as_bytes()).ok_or("not a name")?)
}

/// The settings of two loops, of no frame and of two.
fn settings() -> Result<Settings, Fail> {
    let mut strips = Strips::new();
    strips.push(StripSettings::default());
    strips.push(StripSettings {
        length: 2,
        cycle: 2,
        ..StripSettings::default()
    });
    Ok(Settings::of(48000, Globals::default(), strips).ok_or("not in range")?)
}

/// The WAV file of the two frames of the second loop.
const LIST: &[u8] =
    b"RIFF\x30\0\0\0WAVEfmt \x10\0\0\0\x01\0\x02\0\x80\xbb\0\0\0\x65\x04\0\x06\0\x18\0data\x0c\0\0\0\x01\0\0\xff\xff\xff\x02\0\0\0\x01\0";

/// Gives a saver the head of a save, a part of two frames of the second loop and the end. What came
/// of the end.
fn saved(
    alloc: Global,
    keeper: &mut MemKeeper,
    name: Name,
    target: Target,
    settings: Settings,
) -> Saved
    requires list { has_list target (length settings.strips) 1 ≡ true }
    requires named { fits_target target name ≡ true }
{
    let mut saver = Saver::new(48000);
    let head = Block::Head {
        save: 0,
        name,
        target,
        settings,
    };
    saver.accept(alloc, keeper, &head);
    let mut frames = PartFrames::new();
    frames.push(Frame { left: 1, right: -1 });
    frames.push(Frame {
        left: 2,
        right: 256,
    });
    let part = Block::Part {
        save: 0,
        index: 1,
        frames,
    };
    saver.accept(alloc, keeper, &part);
    saver.accept(alloc, keeper, &Block::End { save: 0 })
}

/// Saves a session of this name, and what came of its end.
fn saved_session(alloc: Global, keeper: &mut MemKeeper, text: &str) -> Result<Saved, Fail> {
    let name = name(text)?;
    let settings = settings()?;
    if name.as_bytes().len() > MAX_SESSION_NAME || settings.loop_count() < 2 {
        return Ok(Saved::Continue);
    }
    Ok(saved(alloc, keeper, name, Target::All, settings))
}

fn keeper(alloc: Global, failing: &[u64]) -> Result<MemKeeper, Fail> {
    Ok(MemKeeper::new(alloc, Vec::new(alloc), Vec::from_slice(alloc, failing)?))
}

#[test]
fn a_loop_is_saved_under_its_name(rt: HostRuntime) -> Result<(), Fail> {
    let mut keeper = keeper(rt.alloc(), &[])?;
    let end = saved(
        rt.alloc(),
        &mut keeper,
        name("take.wav")?,
        Target::One(1),
        settings()?,
    );
    assert!(rt; end == Saved::Finished(Target::One(1), 0));
    assert!(rt; keeper.file(&name("take.wav")?) == Some(LIST));
    Ok(())
}

#[test]
fn a_session_is_saved_list_by_list_and_then_its_text(rt: HostRuntime) -> Result<(), Fail> {
    let mut keeper = keeper(rt.alloc(), &[])?;
    let end = saved_session(rt.alloc(), &mut keeper, "set")?;
    assert!(rt; end == Saved::Finished(Target::All, 0));
    assert!(rt; keeper.file(&name("set-0.wav")?).is_none(), "an empty loop");
    assert!(rt; keeper.file(&name("set-1.wav")?) == Some(LIST));
    assert!(rt; keeper.file(&name("set")?).is_some());
    Ok(())
}

#[test]
fn behind_a_failed_write_nothing_is_written(rt: HostRuntime) -> Result<(), Fail> {
    let mut keeper = keeper(rt.alloc(), &[1])?;
    let end = saved_session(rt.alloc(), &mut keeper, "set")?;
    assert!(rt; end == Saved::Finished(Target::All, 1));
    assert!(rt; keeper.file(&name("set-1.wav")?).is_none());
    assert!(rt; keeper.file(&name("set")?).is_none());
    Ok(())
}
