//! What no clause says: worked runs as calls, with ample memory.

ghost use Rattle.std.specs.Prelude.{IsTrue, ◌≤◌};
ghost use Rattle.sl_base.specs.Limits.{max_chunks};
ghost use Rattle.sl_commands.specs.Settings.{is_loop_count};

use super::*;
use engine_steps::an_engine_may_take_commands_and_what_is_due;
use sl_base::{Frame, Frames, MAX_SESSION_FRAMES, Name, clamp24};
use sl_commands::{
    Block, Command, Control, Globals, Initial, OSC, Reply, SAVER, Settings, StripSettings, Strips,
    Target, Verb,
};
use std::alloc::Global;
use std::test::Fail;

/// Both sides at a sample of 24 bits.
fn mono(sample: i64) -> Frame {
    Frame {
        left: clamp24(sample),
        right: clamp24(sample),
    }
}

/// An engine with so many empty loops.
fn begun(alloc: Global, loops: u8, chunks: u32) -> Result<Engine, EngineFault>
    requires loops { IsTrue (is_loop_count loops) }
    requires chunks { chunks ≤ max_chunks }
{
    let setup = Setup {
        settings: Settings::with_defaults(48000, loops),
        chunks,
        quota: 64,
    };
    Engine::new(alloc, &setup, &Initial::new(alloc))
}

/// The reply to this command of OSC, where one comes.
fn told(engine: &mut Engine, command: Command) -> Option<Reply> {
    an_engine_may_take_commands_and_what_is_due();
    if !engine.journal().has_room(OSC) {
        return None;
    }
    engine.take(OSC, command)
}

/// A verb is hit.
fn hit(engine: &mut Engine, index: u8, verb: Verb) {
    told(engine, Command::Hit(Target::One(index), verb));
}

/// The value of a loop's control, or -1 where no reply comes.
fn value(engine: &mut Engine, index: u8, control: Control) -> i32 {
    match told(engine, Command::Get(Target::One(index), control)) {
        Some(reply) => reply.value,
        None => -1,
    }
}

/// One frame; what is heard on the left.
fn heard(engine: &mut Engine, sample: i64) -> i32 {
    let input = [mono(sample)];
    let mut output = [Frame::silence()];
    if engine.frames_done() >= MAX_SESSION_FRAMES {
        return -1;
    }
    engine.frames(&input[..], &mut output[..]);
    let first = output[0];
    first.left
}

/// So many frames of silence, at most a period.
fn quiet_period(
    engine: &mut Engine,
    input: &[Frame],
    output: &mut [Frame],
    frames: usize,
) -> usize {
    let count = frames.min(input.len()).min(output.len());
    if count as u64 <= MAX_SESSION_FRAMES - engine.frames_done() {
        engine.frames(&input[..count], &mut output[..count]);
    }
    count
}

/// So many frames of silence, in periods.
fn silence(engine: &mut Engine, alloc: Global, frames: usize, period: usize) -> Option<()> {
    let input = vec![in alloc; Frame::silence(); period].ok()?;
    let mut output = vec![in alloc; Frame::silence(); period].ok()?;
    let mut left = frames;
    for _ in 0..frames {
        let done = quiet_period(engine, &input, &mut output, left);
        left = left.saturating_sub(done);
    }
    Some(())
}

/// The block that comes next, which is sent.
fn sent(engine: &mut Engine) -> Option<Block> {
    let block = engine.next_block()?;
    engine.block_sent();
    Some(block)
}

/// The number of the save and what it is: 1 a head, 2 a part, 3 an end.
fn kind_of(block: &Block) -> (u32, u8) {
    match block {
        Block::Head { save, .. } => (*save, 1),
        Block::Part { save, .. } => (*save, 2),
        Block::End { save } => (*save, 3),
    }
}

/// The save that is due ends well.
fn release(engine: &mut Engine) -> Option<Reply> {
    an_engine_may_take_commands_and_what_is_due();
    let target = engine.due()?;
    if engine.next_block().is_some() || !engine.journal().has_room(SAVER) {
        return None;
    }
    engine.take(SAVER, Command::Release(target, 0))
}

/// A part has the frames 1 2 3 4.
fn is_first_take(block: &Block) -> bool {
    match block {
        Block::Part { index, frames, .. } => *index == 0
            && frames.as_slice() == [mono(1), mono(2), mono(3), mono(4)].as_slice(),
        _ => false,
    }
}

#[test]
fn a_save_has_the_list_at_its_entry(rt: HostRuntime) -> Result<(), Fail> {
    let mut engine = begun(rt.alloc(), 1, 16).ok().ok_or("no engine")?;
    let mut output = [0; 14];
    for frame in 0..14 {
        match frame {
            0 | 4 => hit(&mut engine, 0, Verb::Rec),
            8 => {
                let name = Name::read(b"take.wav").ok_or("a name")?;
                assert!(rt; told(&mut engine, Command::SaveLoop(Target::One(0), name)).is_none());
            }
            9 => {
                hit(&mut engine, 0, Verb::Undo);
                hit(&mut engine, 0, Verb::Rec);
            }
            10 => {
                let name = Name::read(b"other.wav").ok_or("a name")?;
                let busy = told(&mut engine, Command::SaveLoop(Target::One(0), name)).ok_or(
                    "busy",
                )?;
                assert!(rt; busy.seq == 5 && busy.value == 2, "pinned");
            }
            12 => {
                let head = sent(&mut engine).ok_or("a head")?;
                assert!(rt;
                    kind_of(&head) == (0, 1) && engine.due().is_none(),
                    "the head"
                );
                let part = sent(&mut engine).ok_or("a part")?;
                assert!(rt; is_first_take(&part), "what was recorded first");
                let end = sent(&mut engine).ok_or("an end")?;
                assert!(rt;
                    kind_of(&end) == (0, 3) && engine.next_block().is_none(),
                    "the end"
                );
                let reply = release(&mut engine).ok_or("due")?;
                assert!(rt; reply.seq == 2 && reply.value == 0, "released");
                assert_eq!(rt; value(&mut engine, 0, Control::LoopLen), 3);
            }
            _ => {}
        }
        output[frame] = heard(&mut engine, if frame < 4 { frame as i64 + 1 } else { 0 });
    }
    assert!(rt; output == [0, 0, 0, 0, 1, 2, 3, 4, 1, 0, 0, 0, 0, 0]);
    assert!(rt; engine.saves() == 1 && engine.refused() == 0 && engine.loops() == 1);
    let journal = engine.into_journal();
    assert_eq!(rt; journal.entries().len(), 8);
    Ok(())
}

#[test]
fn verbs_wait_for_the_boundaries_of_another_loop(rt: HostRuntime) -> Result<(), Fail> {
    let mut engine = begun(rt.alloc(), 2, 16).ok().ok_or("no engine")?;
    let mut output = [0; 16];
    for frame in 0..16 {
        match frame {
            0 => hit(&mut engine, 0, Verb::Rec),
            4 => {
                hit(&mut engine, 0, Verb::Rec);
                hit(&mut engine, 1, Verb::Rec);
            }
            8 => {
                hit(&mut engine, 1, Verb::Rec);
                told(&mut engine, Command::Set(Target::All, Control::Quantize, 1));
                told(&mut engine, Command::SetGlobal(Control::SyncSource, 1));
            }
            9 => {
                hit(&mut engine, 0, Verb::Mute);
                hit(&mut engine, 1, Verb::Overdub);
            }
            10 => assert_eq!(rt; value(&mut engine, 1, Control::Waiting), 1),
            12 => assert_eq!(rt; value(&mut engine, 1, Control::State), 4),
            13 => {
                assert_eq!(rt; value(&mut engine, 1, Control::State), 5);
                assert_eq!(rt; value(&mut engine, 0, Control::State), 10);
            }
            _ => {}
        }
        output[frame] = heard(&mut engine, if frame < 8 { frame as i64 + 1 } else { 0 });
    }
    assert!(rt; output == [0, 0, 0, 0, 1, 2, 3, 4, 6, 8, 10, 12, 5, 6, 7, 8]);
    Ok(())
}

/// Lengths, states, refusals and free time where two loops want the last of three chunks.
fn last_chunk(alloc: Global, period: usize) -> Option<[i32; 7]> {
    let mut engine = begun(alloc, 2, 3).ok()?;
    hit(&mut engine, 1, Verb::Rec);
    heard(&mut engine, 0);
    hit(&mut engine, 0, Verb::Rec);
    silence(&mut engine, alloc, 8191, period)?;
    let mut values = [0; 7];
    for index in 0..2 {
        values[index] = value(&mut engine, index as u8, Control::LoopLen);
        values[index + 2] = value(&mut engine, index as u8, Control::State);
        values[index + 4] = value(&mut engine, index as u8, Control::Refused);
    }
    values[6] = value(&mut engine, 0, Control::FreeTime);
    Some(values)
}

#[test]
fn the_last_chunk_falls_to_the_loop_of_the_rules_at_any_period(
    rt: HostRuntime,
) -> Result<(), Fail> {
    for period in [1, 64, 8192] {
        let values = last_chunk(rt.alloc(), period).ok_or("no run")?;
        assert!(rt;
            values == [4096, 8192, 4, 2, 1, 0, 0],
            "in periods of {period}"
        );
    }
    Ok(())
}

#[test]
fn the_dry_gain_steps_before_its_first_frame(rt: HostRuntime) -> Result<(), Fail> {
    let mut engine = begun(rt.alloc(), 1, 1).ok().ok_or("no engine")?;
    told(&mut engine, Command::SetGlobal(Control::FadeStep, 500));
    told(&mut engine, Command::SetGlobal(Control::Dry, 1000));
    for sample in [500, 1000, 1000] {
        assert_eq!(rt; heard(&mut engine, 1000), sample);
    }
    Ok(())
}

#[test]
fn two_seconds_take_twenty_four_chunks(rt: HostRuntime) -> Result<(), Fail> {
    let mut engine = begun(rt.alloc(), 1, 4096).ok().ok_or("no engine")?;
    hit(&mut engine, 0, Verb::Rec);
    silence(&mut engine, rt.alloc(), 96000, 64).ok_or("no run")?;
    hit(&mut engine, 0, Verb::Rec);
    assert_eq!(rt; value(&mut engine, 0, Control::FreeTime), 16678912);
    Ok(())
}
