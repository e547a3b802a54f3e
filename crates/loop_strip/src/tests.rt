//! What no clause says: worked runs of one loop as calls, with ample memory.

ghost use Rattle.std.specs.Prelude.{◌≡◌, length};
ghost use Rattle.loop_strip.specs.Strips.{Owns};

use crate::{Given, Pool, Press, Strip};
use sl_base::{Frame, Memory, widen};
use sl_commands::{Control, StripSettings, Verb};
use std::alloc::Global;

/// Both sides at a 16-bit sample.
fn mono(sample: i16) -> Frame {
    Frame {
        left: widen(sample),
        right: widen(sample),
    }
}

/// Gives the hits of this frame. A long press has two frames.
fn give(strip: &mut Strip, pool: &mut Pool, hits: &[(u64, Press, Verb)], frame: u64)
    requires owns { Owns strip.old pool.old }
    ensures owns { Owns strip.new pool.new }
{
    for i in 0..hits.len() {
        let (at, press, verb) = hits[i];
        if at == frame {
            strip.give(
                pool,
                Given {
                    press,
                    verb,
                    frame,
                    long_press: 2,
                },
            );
        }
    }
}

/// One frame; whether what is heard is this one.
fn hears_frame(strip: &mut Strip, pool: &mut Pool, input: Frame, sound: Frame) -> bool
    requires owns { Owns strip.old pool.old }
    ensures owns { Owns strip.new pool.new }
{
    let frames = [input];
    let mut heard = [Frame::silence()];
    strip.play(pool, &frames[..], &mut heard[..]);
    let sounds = &heard[..];
    sounds[0] == sound
}

/// One frame; whether what is heard is this 16-bit sample.
fn hears(strip: &mut Strip, pool: &mut Pool, input: i16, sample: i16) -> bool
    requires owns { Owns strip.old pool.old }
    ensures owns { Owns strip.new pool.new }
{
    hears_frame(strip, pool, mono(input), mono(sample))
}

/// Sets the threshold, where it is one.
fn set_threshold(strip: &mut Strip, pool: &Pool, threshold: i32)
    requires owns { Owns strip.old pool.now }
    ensures owns { Owns strip.new pool.now }
{
    if threshold > 0 && threshold < 8388608 {
        strip.set(Control::RecThresh, threshold);
    }
}

/// Plays a new loop; whether what is heard over this input is this.
fn plays(
    strip: &mut Strip,
    pool: &mut Pool,
    hits: &[(u64, Press, Verb)],
    input: &[i16],
    output: &[i16],
) -> bool
    requires owns { Owns strip.old pool.old }
    requires same_length { length input.now ≡ length output.now }
{
    for i in 0..input.len() {
        give(strip, pool, hits, i as u64);
        if !hears(strip, pool, input[i], output[i]) {
            return false;
        }
    }
    true
}

/// A new loop that waits for this threshold hears these samples over this input.
fn is_heard(
    alloc: Global,
    threshold: i32,
    hits: &[(u64, Press, Verb)],
    input: &[i16],
    output: &[i16],
) -> Result<bool, Memory>
    requires { length input.now ≡ length output.now }
{
    let mut pool = Pool::new(alloc, 16)?;
    let mut strip = Strip::new(alloc, StripSettings::default(), 16)?;
    set_threshold(&mut strip, &pool, threshold);
    Ok(plays(&mut strip, &mut pool, hits, input, output))
}

/// The same for a loop that rounds.
fn is_heard_rounding(
    alloc: Global,
    hits: &[(u64, Press, Verb)],
    input: &[i16],
    output: &[i16],
) -> Result<bool, Memory>
    requires { length input.now ≡ length output.now }
{
    let mut pool = Pool::new(alloc, 16)?;
    let mut strip = Strip::new(alloc, StripSettings::default(), 16)?;
    strip.set(Control::Round, 1);
    Ok(plays(&mut strip, &mut pool, hits, input, output))
}

/// The greatest frame over itself is heard as the greatest.
fn clamps(alloc: Global) -> Result<bool, Memory> {
    let mut pool = Pool::new(alloc, 16)?;
    let mut strip = Strip::new(alloc, StripSettings::default(), 16)?;
    Ok(is_clamped(&mut strip, &mut pool))
}

fn is_clamped(strip: &mut Strip, pool: &mut Pool) -> bool
    requires owns { Owns strip.old pool.old }
{
    let loud = Frame {
        left: 8388607,
        right: 8388607,
    };
    strip.give(pool, Given::hit(Verb::Rec));
    let first = hears_frame(strip, pool, loud, Frame::silence());
    strip.give(pool, Given::hit(Verb::Rec));
    strip.give(pool, Given::hit(Verb::Overdub));
    let second = hears_frame(strip, pool, loud, loud);
    strip.give(pool, Given::hit(Verb::Overdub));
    first && second && hears_frame(strip, pool, Frame::silence(), loud)
}

/// A loop with a list tells its length and cycle, and plays from its first frame on once its pause
/// ends.
fn begins(alloc: Global) -> Result<bool, Memory> {
    let list = [mono(1), mono(2), mono(3)];
    let mut pool = Pool::new(alloc, 16)?;
    let mut strip = Strip::new(alloc, StripSettings::default(), 16)?;
    strip.load(&mut pool, &list[..], 3);
    let settings = strip.settings();
    let told = settings.length == 3 && settings.cycle == 3;
    Ok(told && plays_on(&mut strip, &mut pool))
}

fn plays_on(strip: &mut Strip, pool: &mut Pool) -> bool
    requires owns { Owns strip.old pool.old }
{
    let paused = hears(strip, pool, 9, 0);
    strip.give(pool, Given::hit(Verb::Pause));
    let first = hears(strip, pool, 9, 1);
    let second = hears(strip, pool, 9, 2);
    let third = hears(strip, pool, 9, 3);
    paused && first && second && third && hears(strip, pool, 9, 1)
}

/// Three frames are recorded and then heard in one call, forward and then backward.
fn goes_round(alloc: Global) -> Result<bool, Memory> {
    let mut pool = Pool::new(alloc, 16)?;
    let mut strip = Strip::new(alloc, StripSettings::default(), 16)?;
    Ok(is_round(&mut strip, &mut pool))
}

fn is_round(strip: &mut Strip, pool: &mut Pool) -> bool
    requires owns { Owns strip.old pool.old }
{
    strip.give(pool, Given::hit(Verb::Rec));
    let first = hears(strip, pool, 1, 0);
    let second = hears(strip, pool, 2, 0);
    let third = hears(strip, pool, 3, 0);
    strip.give(pool, Given::hit(Verb::Rec));
    let forward = hears_all(strip, pool, &[1, 2, 3, 1, 2, 3, 1, 2]);
    strip.give(pool, Given::hit(Verb::Reverse));
    first && second && third && forward && hears_all(strip, pool, &[3, 2, 1, 3, 2, 1, 3, 2])
}

/// Eight silent frames in one call; whether what is heard are these samples.
fn hears_all(strip: &mut Strip, pool: &mut Pool, samples: &[i16; 8]) -> bool
    requires owns { Owns strip.old pool.old }
    ensures owns { Owns strip.new pool.new }
{
    let frames = [Frame::silence(); 8];
    let mut heard = [Frame::silence(); 8];
    strip.play(pool, &frames[..], &mut heard[..]);
    are_samples(&heard[..], &samples[..])
}

/// The frames have these samples on both sides.
fn are_samples(frames: &[Frame], samples: &[i16]) -> bool {
    for i in 0..frames.len().min(samples.len()) {
        if frames[i] != mono(samples[i]) {
            return false;
        }
    }
    true
}

#[test]
fn a_recording_of_length_0_is_silent(rt: HostRuntime) {
    let hits = [(0, Press::Hit, Verb::Rec), (0, Press::Hit, Verb::Rec)];
    let input = [1, 2, 3, 4, 5, 6, 7, 8];
    let output = [0, 0, 0, 0, 0, 0, 0, 0];
    let same = is_heard(rt.alloc(), 0, &hits, &input, &output);
    assert!(rt; matches!(same, Ok(true)));
}

#[test]
fn undo_and_redo_go_between_two_lists(rt: HostRuntime) {
    let hits = [
        (0, Press::Hit, Verb::Rec),
        (4, Press::Hit, Verb::Rec),
        (8, Press::Hit, Verb::Overdub),
        (12, Press::Hit, Verb::Overdub),
        (16, Press::Hit, Verb::Undo),
        (20, Press::Hit, Verb::Redo),
    ];
    let input = [
        1, 2, 3, 4, 0, 0, 0, 0, 10, 10, 10, 10, 0, 0, 0, 0, 0, 0, 0, 0, 0, 0, 0, 0,
    ];
    let output = [
        0, 0, 0, 0, 1, 2, 3, 4, 1, 2, 3, 4, 11, 12, 13, 14, 1, 2, 3, 4, 11, 12, 13, 14,
    ];
    let same = is_heard(rt.alloc(), 0, &hits, &input, &output);
    assert!(rt; matches!(same, Ok(true)));
}

#[test]
fn undo_takes_back_half_an_overdub(rt: HostRuntime) {
    let hits = [
        (0, Press::Hit, Verb::Rec),
        (4, Press::Hit, Verb::Rec),
        (8, Press::Hit, Verb::Overdub),
        (10, Press::Hit, Verb::Undo),
        (12, Press::Hit, Verb::Redo),
    ];
    let input = [1, 2, 3, 4, 0, 0, 0, 0, 10, 10, 0, 0, 0, 0, 0, 0];
    let output = [0, 0, 0, 0, 1, 2, 3, 4, 1, 2, 3, 4, 11, 12, 3, 4];
    let same = is_heard(rt.alloc(), 0, &hits, &input, &output);
    assert!(rt; matches!(same, Ok(true)));
}

#[test]
fn an_overdub_goes_backward(rt: HostRuntime) {
    let hits = [
        (0, Press::Hit, Verb::Rec),
        (4, Press::Hit, Verb::Rec),
        (4, Press::Hit, Verb::Reverse),
        (8, Press::Hit, Verb::Overdub),
        (12, Press::Hit, Verb::Overdub),
        (12, Press::Hit, Verb::Reverse),
    ];
    let input = [1, 2, 3, 4, 0, 0, 0, 0, 10, 20, 30, 40, 0, 0, 0, 0];
    let output = [0, 0, 0, 0, 1, 4, 3, 2, 1, 4, 3, 2, 11, 42, 33, 24];
    let same = is_heard(rt.alloc(), 0, &hits, &input, &output);
    assert!(rt; matches!(same, Ok(true)));
}

#[test]
fn a_recording_waits_for_its_threshold(rt: HostRuntime) {
    let hits = [(0, Press::Hit, Verb::Rec), (4, Press::Hit, Verb::Rec)];
    let input = [1, 1, 2, 3, 0, 0, 0, 0];
    let output = [0, 0, 0, 0, 2, 3, 2, 3];
    let same = is_heard(rt.alloc(), 512, &hits, &input, &output);
    assert!(rt; matches!(same, Ok(true)));
}

#[test]
fn an_insert_goes_before_the_first_frame(rt: HostRuntime) {
    let hits = [
        (0, Press::Hit, Verb::Rec),
        (4, Press::Hit, Verb::Rec),
        (4, Press::Hit, Verb::Insert),
        (6, Press::Hit, Verb::Insert),
    ];
    let input = [1, 2, 3, 4, 8, 9, 0, 0, 0, 0, 0, 0];
    let output = [0, 0, 0, 0, 0, 0, 1, 2, 3, 4, 8, 9];
    let same = is_heard(rt.alloc(), 0, &hits, &input, &output);
    assert!(rt; matches!(same, Ok(true)));
}

#[test]
fn an_insert_goes_before_the_last_frame(rt: HostRuntime) {
    let hits = [
        (0, Press::Hit, Verb::Rec),
        (4, Press::Hit, Verb::Rec),
        (7, Press::Hit, Verb::Insert),
        (9, Press::Hit, Verb::Insert),
    ];
    let input = [1, 2, 3, 4, 0, 0, 0, 8, 9, 0, 0, 0, 0, 0, 0, 0];
    let output = [0, 0, 0, 0, 1, 2, 3, 0, 0, 4, 1, 2, 3, 8, 9, 4];
    let same = is_heard(rt.alloc(), 0, &hits, &input, &output);
    assert!(rt; matches!(same, Ok(true)));
}

#[test]
fn a_long_press_ends_its_overdub(rt: HostRuntime) {
    let hits = [
        (0, Press::Hit, Verb::Rec),
        (4, Press::Hit, Verb::Rec),
        (4, Press::Down, Verb::Overdub),
        (6, Press::Up, Verb::Overdub),
    ];
    let input = [1, 2, 3, 4, 10, 10, 10, 10, 0, 0, 0, 0];
    let output = [0, 0, 0, 0, 1, 2, 3, 4, 11, 12, 3, 4];
    let same = is_heard(rt.alloc(), 0, &hits, &input, &output);
    assert!(rt; matches!(same, Ok(true)));
}

#[test]
fn a_short_press_leaves_its_overdub_on(rt: HostRuntime) {
    let hits = [
        (0, Press::Hit, Verb::Rec),
        (4, Press::Hit, Verb::Rec),
        (4, Press::Down, Verb::Overdub),
        (5, Press::Up, Verb::Overdub),
    ];
    let input = [1, 2, 3, 4, 10, 10, 10, 10, 0, 0, 0, 0];
    let output = [0, 0, 0, 0, 1, 2, 3, 4, 11, 12, 13, 14];
    let same = is_heard(rt.alloc(), 0, &hits, &input, &output);
    assert!(rt; matches!(same, Ok(true)));
}

#[test]
fn a_multiply_ends_at_once(rt: HostRuntime) {
    let hits = [
        (0, Press::Hit, Verb::Rec),
        (3, Press::Hit, Verb::Rec),
        (3, Press::Hit, Verb::Multiply),
        (10, Press::Hit, Verb::Multiply),
    ];
    let input = [1, 2, 3, 0, 0, 0, 0, 0, 0, 0, 0, 0];
    let output = [0, 0, 0, 1, 2, 3, 1, 2, 3, 1, 1, 2];
    let same = is_heard(rt.alloc(), 0, &hits, &input, &output);
    assert!(rt; matches!(same, Ok(true)));
}

#[test]
fn a_rounded_multiply_ends_with_its_cycle(rt: HostRuntime) {
    let hits = [
        (0, Press::Hit, Verb::Rec),
        (3, Press::Hit, Verb::Rec),
        (3, Press::Hit, Verb::Multiply),
        (10, Press::Hit, Verb::Multiply),
        (18, Press::Hit, Verb::Overdub),
        (21, Press::Hit, Verb::Overdub),
    ];
    let input = [
        1, 2, 3, 0, 0, 0, 0, 0, 0, 0, 0, 0, 0, 0, 0, 0, 0, 0, 10, 10, 10, 0, 0, 0, 0, 0, 0, 0, 0, 0,
    ];
    let output = [
        0, 0, 0, 1, 2, 3, 1, 2, 3, 1, 2, 3, 1, 2, 3, 1, 2, 3, 1, 2, 3, 1, 2, 3, 1, 2, 3, 11, 12, 13,
    ];
    let same = is_heard_rounding(rt.alloc(), &hits, &input, &output);
    assert!(rt; matches!(same, Ok(true)));
}

#[test]
fn a_loud_overdub_is_clamped(rt: HostRuntime) {
    let same = clamps(rt.alloc());
    assert!(rt; matches!(same, Ok(true)));
}

#[test]
fn a_loop_that_begins_with_a_list_waits_until_it_is_played(rt: HostRuntime) {
    let same = begins(rt.alloc());
    assert!(rt; matches!(same, Ok(true)));
}

#[test]
fn frames_in_one_call_sound_as_one_by_one(rt: HostRuntime) {
    let same = goes_round(rt.alloc());
    assert!(rt; matches!(same, Ok(true)));
}
