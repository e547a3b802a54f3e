//! The least time of a frame in each manner, in thousandths of a nanosecond.

ghost use Rattle.std.specs.Prelude.{◌≡◌, ◌≤◌, length};
ghost use Rattle.loop_strip.specs.Strips.{Owns};

use crate::clock::{least, now, since, tell};
use crate::strip::FRAMES;
use crate::strip::steps::{hit, play, record, scatter, spans};
use loop_strip::{Pool, Strip};
use sl_base::Frame;
use sl_commands::Verb;

/// The frames of one span of a streak over the list, where streaks are written.
const STREAK: usize = 96;

/// Times a loop of so many streaks over its list. `input` is one span, and so is `heard`.
pub fn all(
    rt: &HostRuntime,
    strip: &mut Strip,
    pool: &mut Pool,
    streaks: u32,
    times: u32,
    input: &[Frame],
    heard: &mut [Frame],
)
    requires owns { Owns strip.old pool.old }
    requires same_length { length input.now ≡ length heard.old }
{
    record(strip, pool, input, heard);
    cut_up(strip, pool, streaks);
    tell(rt, "play", played(rt, strip, pool, times, input, heard));
    hit(strip, pool, Verb::Reverse);
    tell(
        rt,
        "play_backward",
        played(rt, strip, pool, times, input, heard),
    );
    hit(strip, pool, Verb::Reverse);
    overdubs(rt, strip, pool, times, input, heard);
}

/// Writes the streaks over the list, each of a few spans of its own.
fn cut_up(strip: &mut Strip, pool: &mut Pool, streaks: u32)
    requires owns { Owns strip.old pool.old }
    ensures { Owns strip.new pool.new }
{
    if streaks == 0 {
        return;
    }
    let input = [Frame::silence(); STREAK];
    let mut heard = [Frame::silence(); STREAK];
    scatter(
        strip,
        pool,
        streaks,
        FRAMES / STREAK as u32 / streaks,
        &input[..],
        &mut heard[..],
    );
}

/// One turn.
fn played(
    rt: &HostRuntime,
    strip: &mut Strip,
    pool: &mut Pool,
    times: u32,
    input: &[Frame],
    heard: &mut [Frame],
) -> u64
    requires owns { Owns strip.old pool.old }
    requires same_length { length input.now ≡ length heard.old }
    ensures { Owns strip.new pool.new }
{
    let mut best = u64::MAX;
    for _ in 0..times {
        best = best.min(turn(rt, strip, pool, input, heard));
    }
    best
}

/// One turn, timed.
fn turn(
    rt: &HostRuntime,
    strip: &mut Strip,
    pool: &mut Pool,
    input: &[Frame],
    heard: &mut [Frame],
) -> u64
    requires owns { Owns strip.old pool.old }
    requires same_length { length input.now ≡ length heard.old }
    ensures { Owns strip.new pool.new }
{
    let start = now(rt);
    play(strip, pool, spans(input), input, heard);
    least(u64::MAX, since(rt, start), FRAMES as u64)
}

/// A turn of overdub, a second one over its fresh cells, and an undo.
fn overdubs(
    rt: &HostRuntime,
    strip: &mut Strip,
    pool: &mut Pool,
    times: u32,
    input: &[Frame],
    heard: &mut [Frame],
)
    requires owns { Owns strip.old pool.old }
    requires same_length { length input.now ≡ length heard.old }
    ensures { Owns strip.new pool.new }
{
    let mut first = u64::MAX;
    let mut again = u64::MAX;
    for _ in 0..times {
        hit(strip, pool, Verb::Overdub);
        first = first.min(turn(rt, strip, pool, input, heard));
        again = again.min(turn(rt, strip, pool, input, heard));
        hit(strip, pool, Verb::Undo);
    }
    tell(rt, "overdub", first);
    tell(rt, "overdub_again", again);
}
