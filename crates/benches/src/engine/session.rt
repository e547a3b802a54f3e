//! An engine whose loops have a list, and the frames that it plays.

ghost use Rattle.std.specs.Prelude.{◌≡◌, ◌≤◌, IfSome};
ghost use Rattle.looper_rules.specs.Reached.{IsBeginning};
ghost use Rattle.engine_steps.specs.Engines.{Beginning, first_engine};

use crate::clock::{least, now, since};
use engine_steps::an_engine_may_take_commands_and_what_is_due;
use looper_engine::{Engine, Setup};
use sl_base::{Frame, MAX_SESSION_FRAMES, clamp24};
use sl_commands::{Command, Initial, OSC, Settings, Target, Verb};
use std::alloc::Global;

/// The frames of each loop.
pub const FRAMES: u32 = 480000;

/// The frames between two looks at the clock: short, so that some of them pass undisturbed.
pub const STRETCH: u32 = 24576;

/// Chunks for 16 loops, for what is written over all of them, and some more.
const CHUNKS: u32 = 4096;

/// An engine, with one period of what it hears and puts out.
#[derive(Drop)]
pub struct Session {
    engine: Engine,
    input: Vec<Frame>,
    output: Vec<Frame>,
}

/// The frame of this number of what is recorded.
pub fn sound(number: u32) -> Frame {
    let left = number.wrapping_mul(7919) % 4000000;
    let right = number.wrapping_mul(104729) % 4000000;
    Frame {
        left: clamp24(left as i64 - 2000000),
        right: clamp24(right as i64 - 2000000),
    }
}

/// An engine with so many empty loops.
pub fn begun(alloc: Global, loops: u8) -> Option<Engine>
    requires some { 1 ≤ loops }
    requires few { loops ≤ 16 }
    ensures begins { IfSome result (λ e. (b : Beginning)
        × IsBeginning b.settings b.chunks b.initial × (b.quota ≡ 65536) × (e ≡ first_engine b)) }
{
    let setup = Setup {
        settings: Settings::with_defaults(48000, loops),
        chunks: CHUNKS,
        quota: 65536,
    };
    match Engine::new(alloc, &setup, &Initial::new(alloc)) {
        Ok(engine) => Some(engine),
        Err(_) => None,
    }
}

/// So many frames that are recorded.
pub fn sounds(alloc: Global, count: u32) -> Option<Vec<Frame>> {
    let mut frames = Vec::with_capacity(alloc, count as usize).ok()?;
    for number in 0..count {
        frames.push(sound(number)).ok()?;
    }
    Some(frames)
}

impl Session {
    /// A session whose loops all play a list of `FRAMES` frames, or none where there is no memory.
    pub fn new(alloc: Global, loops: u8, period: u32) -> Option<Session>
        requires some { 1 ≤ loops }
        requires few { loops ≤ 16 }
    {
        let mut session = Session {
            engine: begun(alloc, loops)?,
            input: sounds(alloc, period)?,
            output: sounds(alloc, period)?,
        };
        session.hit(Target::All, Verb::Rec);
        session.play(FRAMES);
        session.hit(Target::All, Verb::Rec);
        Some(session)
    }

    /// A command, where its sender has room.
    pub fn take(&mut self, command: Command) {
        an_engine_may_take_commands_and_what_is_due();
        if self.engine.journal().has_room(OSC) {
            self.engine.take(OSC, command);
        }
    }

    /// A verb is hit.
    pub fn hit(&mut self, target: Target, verb: Verb) {
        self.take(Command::Hit(target, verb));
    }

    /// So many frames, at most a period.
    fn part(&mut self, frames: usize) -> usize {
        let count = frames.min(self.input.len()).min(self.output.len());
        if count as u64 <= MAX_SESSION_FRAMES - self.engine.frames_done() {
            self.engine
                .frames(&self.input[..count], &mut self.output[..count]);
        }
        count
    }

    /// So many frames, period by period.
    pub fn play(&mut self, frames: u32) {
        let mut left = frames as usize;
        for _ in 0..frames {
            if left == 0 {
                return;
            }
            let done = self.part(left);
            left = left.saturating_sub(done);
        }
    }

    /// The least of a time so far and of each stretch of so many frames, in thousandths of a
    /// nanosecond for a frame of a loop.
    pub fn timed(&mut self, rt: &HostRuntime, best: u64, frames: u32, loops: u8) -> u64 {
        let mut least_time = best;
        for _ in 0..frames / STRETCH {
            let start = now(rt);
            self.play(STRETCH);
            least_time = least(least_time, since(rt, start), STRETCH as u64 * loops as u64);
        }
        least_time
    }

    /// How often a loop was refused room or layers; the figures say something only where it is 0.
    pub fn refused(&self) -> u64 {
        self.engine.refused()
    }
}
