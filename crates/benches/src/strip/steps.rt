//! Frames and verbs of one loop.

ghost use Rattle.std.specs.Prelude.{◌≡◌, length};
ghost use Rattle.loop_strip.specs.Strips.{Owns};

use crate::strip::FRAMES;
use loop_strip::{Given, Pool, Strip};
use sl_base::Frame;
use sl_commands::Verb;

/// A verb is hit.
pub fn hit(strip: &mut Strip, pool: &mut Pool, verb: Verb)
    requires { Owns strip.old pool.old }
    ensures { Owns strip.new pool.new }
{
    strip.give(pool, Given::hit(verb));
}

/// So many spans.
pub fn play(strip: &mut Strip, pool: &mut Pool, spans: u32, input: &[Frame], heard: &mut [Frame])
    requires owns { Owns strip.old pool.old }
    requires same_length { length input.now ≡ length heard.old }
    ensures { Owns strip.new pool.new }
{
    for _ in 0..spans {
        strip.play(pool, input, heard);
    }
}

/// The first list: as many whole spans as it has room for.
pub fn record(strip: &mut Strip, pool: &mut Pool, input: &[Frame], heard: &mut [Frame])
    requires owns { Owns strip.old pool.old }
    requires same_length { length input.now ≡ length heard.old }
    ensures { Owns strip.new pool.new }
{
    hit(strip, pool, Verb::Rec);
    play(strip, pool, spans(input), input, heard);
    hit(strip, pool, Verb::Rec);
}

/// How many spans the list has.
pub fn spans(input: &[Frame]) -> u32 {
    if input.is_empty() || input.len() > 65536 {
        return 0;
    }
    FRAMES / input.len() as u32
}

/// An overdub of streaks one behind the other: turning round twice ends a streak.
pub fn scatter(
    strip: &mut Strip,
    pool: &mut Pool,
    streaks: u32,
    spans: u32,
    input: &[Frame],
    heard: &mut [Frame],
)
    requires owns { Owns strip.old pool.old }
    requires same_length { length input.now ≡ length heard.old }
    ensures { Owns strip.new pool.new }
{
    hit(strip, pool, Verb::Overdub);
    for _ in 0..streaks {
        play(strip, pool, spans, input, heard);
        hit(strip, pool, Verb::Reverse);
        hit(strip, pool, Verb::Reverse);
    }
    hit(strip, pool, Verb::Overdub);
}
