//! The same by hand over one flat list.

ghost use Rattle.std.specs.Prelude.{◌≡◌, ◌<◌, ◌≤◌, length};
ghost use Rattle.sl_base.specs.Arithmetic.{IsSample};

use crate::clock::{least, now, since, tell};
use crate::strip::FRAMES;
use crate::strip::steps::spans;
use sl_base::{Frame, clamp24, scale};

/// The next place of the list.
fn next(place: usize, length: usize) -> usize
    requires { place < length }
    ensures { result < length }
{
    if place + 1 == length { 0 } else { place + 1 }
}

/// Plays a span from a place on; the place behind it.
fn play(list: &[Frame], from: usize, heard: &mut [Frame]) -> usize
    requires { from < length list.now }
    ensures { result < length list.now }
{
    let mut place = from;
    for i in 0..heard.len() {
        heard[i] = list[place];
        place = next(place, list.len());
    }
    place
}

/// An old side at this feedback, with another on top.
fn mix(old: i32, feedback: u16, side: i32) -> i32
    requires old { IsSample old }
    requires side { IsSample side }
    requires level { feedback ≤ 1000 }
    ensures { IsSample result }
{
    clamp24(scale(old, feedback) + side as i64)
}

/// Overdubs a span from a place on; the place behind it.
fn overdub(
    list: &mut [Frame],
    from: usize,
    feedback: u16,
    input: &[Frame],
    heard: &mut [Frame],
) -> usize
    requires from { from < length list.old }
    requires same_length { length input.now ≡ length heard.old }
    requires level { feedback ≤ 1000 }
    ensures within { result < length list.new }
    ensures length { length list.new ≡ length list.old }
{
    let mut place = from;
    for i in 0..input.len() {
        let old = list[place];
        let new = input[i];
        heard[i] = old;
        list[place] = Frame {
            left: mix(old.left, feedback, new.left),
            right: mix(old.right, feedback, new.right),
        };
        place = next(place, list.len());
    }
    place
}

/// Times playing and overdubbing. `input` is one span, and so is `heard`.
pub fn all(rt: &HostRuntime, list: &mut [Frame], times: u32, input: &[Frame], heard: &mut [Frame])
    requires some { 0 < length list.old }
    requires same_length { length input.now ≡ length heard.old }
{
    let mut played = u64::MAX;
    let mut written = u64::MAX;
    for _ in 0..times {
        let start = now(rt);
        play_turn(list, spans(input), heard);
        played = least(played, since(rt, start), FRAMES as u64);
        let start = now(rt);
        overdub_turn(list, spans(input), input, heard);
        written = least(written, since(rt, start), FRAMES as u64);
    }
    tell(rt, "play", played);
    tell(rt, "overdub", written);
}

fn play_turn(list: &[Frame], spans: u32, heard: &mut [Frame])
    requires { 0 < length list.now }
{
    let mut place = 0;
    for _ in 0..spans {
        place = play(list, place, heard);
    }
}

fn overdub_turn(list: &mut [Frame], spans: u32, input: &[Frame], heard: &mut [Frame])
    requires some { 0 < length list.old }
    requires same_length { length input.now ≡ length heard.old }
    ensures { length list.new ≡ length list.old }
{
    let mut place = 0;
    for _ in 0..spans {
        place = overdub(list, place, 1000, input, heard);
    }
}
