//! What no clause says: that blocks become files and outcomes with ample memory, and that the call
//! ends where audio is over.

ghost use Rattle.std.specs.Prelude.{◌≡◌, ◌≤◌, ◌<◌, [], ◌∷◌, ◌++◌, length, OnOk, IsTrue};
ghost use Rattle.sl_commands.specs.Blocks.{may_follow};

use crate::serve_saver;
use event_rings::{Putter, Taker, ring, ring_with};
use loop_saver::Saver;
use sl_base::{MAX_SESSION_NAME, Memory, Name};
use sl_commands::{Block, Globals, Settings, StripSettings, Strips, Target};
use sl_ports::MemKeeper;
use std::alloc::Global;
use std::sync::Wait;
use std::test::Fail;
use std::time::Clock;

/// The settings of one empty loop.
fn settings() -> Result<Settings, Fail> {
    let mut strips = Strips::new();
    strips.push(StripSettings::default());
    Ok(Settings::of(48000, Globals::default(), strips).ok_or("not in range")?)
}

fn name() -> Result<Name, Fail> {
    Ok(Name::read(b"set").ok_or("not a name")?)
}

/// Puts a block on a ring that has room for it.
fn put(rt: &impl Wait, putter: &mut Putter<Block>, block: Block) -> Result<(), Fail>
    requires room { length putter.old.sent < putter.old.limit }
    requires may { IsTrue (may_follow putter.old.sent block putter.old.bound) }
    ensures sent { OnOk result (putter.new.sent ≡ putter.old.sent ++ block ∷ []) }
    ensures bound { putter.new.bound ≡ putter.old.bound }
    ensures limit { putter.new.limit ≡ putter.old.limit }
{
    match putter.put(rt, block) {
        Ok(()) => Ok(()),
        Err(_) => Err(Fail::new("the ring is full")),
    }
}

/// Puts the blocks of two saves of a session with an empty loop.
fn put_saves(rt: &impl Wait, putter: &mut Putter<Block>) -> Result<(), Fail>
    requires sent { putter.old.sent ≡ [] }
    requires bound { putter.old.bound ≡ 2 }
    requires limit { 4 ≤ putter.old.limit }
{
    let (first, second) = (name()?, name()?);
    if first.as_bytes().len() > MAX_SESSION_NAME || second.as_bytes().len() > MAX_SESSION_NAME {
        return Err(Fail::new("not a session's name"));
    }
    let head = Block::Head {
        save: 0,
        name: first,
        target: Target::All,
        settings: settings()?,
    };
    put(rt, putter, head)?;
    put(rt, putter, Block::End { save: 0 })?;
    let head = Block::Head {
        save: 1,
        name: second,
        target: Target::All,
        settings: settings()?,
    };
    put(rt, putter, head)?;
    put(rt, putter, Block::End { save: 1 })?;
    Ok(())
}

/// Serves a saver that has taken nothing yet, for audio that is over.
fn served<R: Wait + Clock>(
    rt: &R,
    alloc: Global,
    keeper: &mut MemKeeper,
    blocks: &mut Taker<Block>,
    releases: &mut Putter<u8>,
) -> Result<Option<u8>, Memory>
    requires taken { blocks.old.taken ≡ [] }
    requires sent { releases.old.sent ≡ [] }
    requires limit { blocks.old.bound ≤ releases.old.limit }
{
    let (mut frames, mut over): (Putter<u64>, Taker<u64>) = ring(alloc, rt, 1)?;
    let _ = frames.put(rt, 3);
    let mut saver = Saver::new(48000);
    Ok(serve_saver(rt, alloc, keeper, &mut saver, blocks, releases, &mut over))
}

fn keeper(alloc: Global, failing: &[u64]) -> Result<MemKeeper, Fail> {
    Ok(MemKeeper::new(alloc, Vec::new(alloc), Vec::from_slice(alloc, failing)?))
}

#[test]
fn saves_are_written_and_answered_in_order(rt: HostRuntime) -> Result<(), Fail> {
    let mut keeper = keeper(rt.alloc(), &[1])?;
    let (mut putter, mut blocks): (Putter<Block>, Taker<Block>) = ring_with(
        rt.alloc(),
        &rt,
        64,
        64,
        2,
    )?;
    let (mut releases, mut outcomes): (Putter<u8>, Taker<u8>) = ring_with(
        rt.alloc(),
        &rt,
        2,
        2,
        0,
    )?;
    put_saves(&rt, &mut putter)?;
    let held = served(&rt, rt.alloc(), &mut keeper, &mut blocks, &mut releases)?;
    assert!(rt; held.is_none());
    assert!(rt; blocks.nones() == 1);
    let (first, second) = (outcomes.take(&rt), outcomes.take(&rt));
    assert!(rt; first == Some(1), "the first write fails");
    assert!(rt; second == Some(0));
    assert!(rt; keeper.file(&name()?).is_some());
    Ok(())
}

#[test]
fn an_outcome_that_finds_its_ring_full_is_given_back(rt: HostRuntime) -> Result<(), Fail> {
    let mut keeper = keeper(rt.alloc(), &[2])?;
    let (mut putter, mut blocks): (Putter<Block>, Taker<Block>) = ring_with(
        rt.alloc(),
        &rt,
        64,
        64,
        2,
    )?;
    let (mut releases, mut outcomes): (Putter<u8>, Taker<u8>) = ring_with(
        rt.alloc(),
        &rt,
        1,
        2,
        0,
    )?;
    put_saves(&rt, &mut putter)?;
    let held = served(&rt, rt.alloc(), &mut keeper, &mut blocks, &mut releases)?;
    assert!(rt; held == Some(1), "the second write fails");
    assert!(rt; releases.fulls() == 1);
    let first = outcomes.take(&rt);
    assert!(rt; first == Some(0));
    Ok(())
}
