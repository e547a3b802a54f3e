//! What a turn of audio takes for a frame beside the engine alone, and the longest of many turns.
//!
//! ```text
//! benches turns beside LOOPS PERIOD TIMES
//! benches turns longest LOOPS PERIOD TURNS
//! ```
//!
//! Each loop has 480,000 frames, which are 10 seconds at 48,000 a second, and they are played in
//! periods of PERIOD frames, in stereo of 16 bits. `beside` tells the least of TIMES of the engine
//! alone and of turns, in thousandths of a nanosecond for a frame. `longest` tells the mean and the
//! longest of so many turns, in nanoseconds, and apart from these the longest in which a layer was
//! opened over a list of many seams.

mod ends;
mod stage;

ghost use Rattle.std.specs.Prelude.{◌≤◌};

use crate::clock::tell;
use crate::engine::session::{FRAMES, Session};
use crate::turns::stage::Stage;
use crate::words::number;
use sl_commands::{Target, Verb};
use std::sync::Wait;

/// Times what the words say, or nothing where they are others.
pub fn timed<W: Wait>(rt: &HostRuntime, wait: &W, words: &[String]) -> Option<bool> {
    let [kind, loops, period, times] = words else {
        return None;
    };
    let loops = number(loops.as_str(), 1, 16)? as u8;
    let period = number(period.as_str(), 1, 8192)? as usize;
    let times = number(times.as_str(), 1, 1000000)?;
    match kind.as_str() {
        "beside" => beside(rt, wait, loops, period, times),
        "longest" => longest(rt, wait, loops, period, times),
        _ => None,
    }
}

/// The engine alone and turns, by turns.
fn beside<W: Wait>(rt: &HostRuntime, wait: &W, loops: u8, period: usize, times: u32) -> Option<bool>
    requires some { 1 ≤ loops }
    requires few { loops ≤ 16 }
    requires least { 1 ≤ period }
    requires most { period ≤ 8192 }
{
    let mut session = Session::new(rt.alloc(), loops, period as u32)?;
    let mut stage = Stage::recorded(rt.alloc(), wait, loops, period)?;
    let mut alone = u64::MAX;
    let mut turns = u64::MAX;
    for _ in 0..times {
        alone = session.timed(rt, alone, FRAMES, 1);
        turns = stage.timed(rt, wait, turns);
    }
    tell(rt, "alone", alone);
    tell(rt, "turns", turns);
    tell(rt, "sum", stage.sum());
    Some(session.refused() == 0 && stage.refused() == 0)
}

/// So many layers are laid over the lists that are cut, each in five stretches to and fro.
const CUTS: u32 = 48;

/// Each loop gets a list of many seams.
fn cut<W: Wait>(stage: &mut Stage, wait: &W) {
    for _ in 0..CUTS {
        stage.hit(wait, Target::All, Verb::Overdub);
        for stretch in 1..6u32 {
            stage.play(wait, 2 * stretch);
            stage.hit(wait, Target::All, Verb::Reverse);
        }
        stage.hit(wait, Target::All, Verb::Reverse);
        stage.hit(wait, Target::All, Verb::Overdub);
        stage.play(wait, 100);
    }
}

/// So many turns, one by one. In three of each hundred a layer of all loops is opened, closed and
/// taken back.
fn longest<W: Wait>(
    rt: &HostRuntime,
    wait: &W,
    loops: u8,
    period: usize,
    turns: u32,
) -> Option<bool>
    requires some { 1 ≤ loops }
    requires few { loops ≤ 16 }
    requires least { 1 ≤ period }
    requires most { period ≤ 8192 }
{
    let mut stage = Stage::recorded(rt.alloc(), wait, loops, period)?;
    cut(&mut stage, wait);
    let mut sum = 0u64;
    let mut most = 0u64;
    let mut opening = 0u64;
    for n in 0..turns {
        match n % 100 {
            0 | 1 => stage.hit(wait, Target::All, Verb::Overdub),
            2 => stage.hit(wait, Target::All, Verb::Undo),
            _ => {}
        }
        let time = stage.timed_turn(rt, wait);
        sum = sum.saturating_add(time);
        if n % 100 == 0 {
            opening = opening.max(time);
        } else {
            most = most.max(time);
        }
    }
    tell(rt, "mean", sum / (turns as u64).max(1));
    tell(rt, "longest", most);
    tell(rt, "opening", opening);
    Some(stage.refused() == 0)
}
