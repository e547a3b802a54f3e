//! The same work by hand: flat lists, period by period, each loop over its frames, in the same
//! arithmetic.

ghost use Rattle.std.specs.Prelude.{◌≤◌};

use crate::clock::{least, now, since, tell, told};
use crate::engine::session::{FRAMES, STRETCH, sounds};
use sl_base::{Frame, clamp24};
use std::alloc::Global;

/// A list, where it is played, and its gain.
#[derive(Drop)]
struct Flat {
    list: Vec<Frame>,
    pos: usize,
    gain: u16,
}

/// What is added up, side by side.
#[derive(Clone, Copy)]
struct Sides {
    left: i64,
    right: i64,
}

/// Loops, with the sums and the frames of a period.
#[derive(Drop)]
struct Session {
    flats: Vec<Flat>,
    input: Vec<Frame>,
    sums: Vec<Sides>,
    output: Vec<Frame>,
}

fn scaled(sample: i32, level: u16) -> i64 {
    (sample as i64).wrapping_mul(level as i64) / 1000
}

/// One step of a gain toward 1000, by 20.
fn stepped(gain: u16) -> u16
    ensures { result ≤ 1000 }
{
    gain.min(980) + 20
}

impl Flat {
    /// Its frames of a period are added to the sums.
    fn play(&mut self, sums: &mut [Sides]) {
        for f in 0..sums.len() {
            if self.pos >= self.list.len() {
                self.pos = 0;
            }
            if self.pos < self.list.len() {
                let frame = self.list[self.pos];
                self.gain = stepped(self.gain);
                add(&mut sums[f], frame, self.gain);
                self.pos += 1;
            }
        }
    }

    /// The same, and the input is written on top of what was heard.
    fn overdub(&mut self, input: &[Frame], sums: &mut [Sides]) {
        for f in 0..sums.len().min(input.len()) {
            if self.pos >= self.list.len() {
                self.pos = 0;
            }
            if self.pos < self.list.len() {
                let frame = self.list[self.pos];
                self.gain = stepped(self.gain);
                add(&mut sums[f], frame, self.gain);
                self.list[self.pos] = on_top(frame, input[f]);
                self.pos += 1;
            }
        }
    }
}

/// Adds a frame at a gain.
fn add(sum: &mut Sides, frame: Frame, gain: u16) {
    sum.left = sum.left.wrapping_add(scaled(frame.left, gain));
    sum.right = sum.right.wrapping_add(scaled(frame.right, gain));
}

/// A frame with another on top, at full feedback.
fn on_top(frame: Frame, input: Frame) -> Frame {
    Frame {
        left: clamp24(scaled(frame.left, 1000).wrapping_add(input.left as i64)),
        right: clamp24(scaled(frame.right, 1000).wrapping_add(input.right as i64)),
    }
}

/// So many loops of `FRAMES` frames.
fn made(alloc: Global, loops: u8, period: u32) -> Option<Session> {
    let mut flats = Vec::with_capacity(alloc, loops as usize).ok()?;
    for _ in 0..loops {
        let list = sounds(alloc, FRAMES)?;
        flats
            .push(Flat {
                list,
                pos: 0,
                gain: 1000,
            })
            .ok()?;
    }
    let mut sums = Vec::with_capacity(alloc, period as usize).ok()?;
    for _ in 0..period {
        sums.push(Sides { left: 0, right: 0 }).ok()?;
    }
    Some(Session {
        flats,
        input: sounds(alloc, period)?,
        sums,
        output: sounds(alloc, period)?,
    })
}

/// The frames of a period of all loops are added, of which the first ones overdub.
fn play_all(flats: &mut [Flat], input: &[Frame], sums: &mut [Sides], writing: usize) {
    for k in 0..flats.len() {
        if k < writing {
            flats[k].overdub(input, sums);
        } else {
            flats[k].play(sums);
        }
    }
}

/// Each sum as the nearest frame.
fn close(sums: &[Sides], output: &mut [Frame]) {
    for f in 0..output.len().min(sums.len()) {
        let sum = sums[f];
        output[f] = Frame {
            left: clamp24(sum.left),
            right: clamp24(sum.right),
        };
    }
}

impl Session {
    /// One period, of which so many loops overdub.
    fn period(&mut self, writing: usize) {
        self.sums.fill(Sides { left: 0, right: 0 });
        play_all(&mut self.flats, &self.input, &mut self.sums, writing);
        close(&self.sums, &mut self.output);
    }

    /// What was put out, as a number, so that no work is in vain.
    fn sum(&self) -> i64 {
        let mut sum: i64 = 0;
        for f in 0..self.output.len() {
            let frame = self.output[f];
            sum = sum.wrapping_add(frame.left as i64);
        }
        sum
    }

    /// The least of a time so far and of each stretch of frames, in thousandths of a nanosecond for
    /// a frame of a loop.
    fn timed(&mut self, rt: &HostRuntime, best: u64, writing: usize) -> u64 {
        let period = self.output.len().max(1);
        let periods = STRETCH as usize / period;
        let mut least_time = best;
        for _ in 0..FRAMES / STRETCH {
            let start = now(rt);
            for _ in 0..periods {
                self.period(writing);
            }
            let frames = periods.wrapping_mul(period) as u64;
            least_time = least(
                least_time,
                since(rt, start),
                frames.wrapping_mul(self.flats.len() as u64),
            );
        }
        least_time
    }
}

/// All loops by hand: playing, with one of them overdubbing, with all of them.
pub fn all(rt: &HostRuntime, loops: u8, period: u32, times: u32) -> Option<()> {
    let mut session = made(rt.alloc(), loops, period)?;
    for (name, writing) in [("playing", 0), ("one", 1), ("all", loops as usize)] {
        let mut best = u64::MAX;
        for _ in 0..times {
            best = session.timed(rt, best, writing);
        }
        tell(rt, name, best);
    }
    tell(rt, "sum", told(session.sum()));
    Some(())
}
