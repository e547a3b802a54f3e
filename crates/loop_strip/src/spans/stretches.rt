//! Frames in a row over which the loop only goes on: its list is read in spans.

ghost use Rattle.std.specs.Prelude.{◌≡◌, ℕ, ◌≤◌, ◌<◌, ◌+◌, ◌-◌, ◌*◌, true, false, length, take, replicate};
ghost use Rattle.sl_base.specs.Limits.{max_list_frames};
ghost use Rattle.sl_base.specs.Sounds.{silence};
ghost use Rattle.looper_rules.specs.Layers.{current_list};
ghost use Rattle.looper_rules.specs.Loop.{length_of, at_place};
ghost use Rattle.looper_rules.specs.LoopSpans.{loop_over, loop_heard_over};
ghost use Rattle.layer_memory.specs.Seen.{seen as seen_layers};
ghost use Rattle.loop_strip.specs.Strips.{seen, Owns, Did, reach_in};
ghost use Rattle.loop_strip.specs.Quiet.{most_told};
ghost use Rattle.loop_strip.specs.Stretches.{places_ahead, place_on, place_behind, part_of, part_heard, IsAhead, IsStretch};
ghost use Rattle.loop_strip.specs.Parts.{loop_of, strip_of, IsWhole};

use crate::parts::Parts;
use crate::spans::quiet::{MOST, soft_frames};
use loop_tape::Pool;
use sl_base::Frame;
use sl_commands::Mode;

/// How many places there are before the border in this direction.
pub(crate) fn places_ahead(backward: bool, place: u32, length: u32) -> u32
    ensures { result ≡ places_ahead backward place length }
{
    if backward {
        place
    } else {
        length.saturating_sub(place).saturating_sub(1)
    }
}

/// The place so many frames on in this direction.
fn place_on(backward: bool, frames: u32, place: u32) -> u32
    requires { place + frames ≤ 2 * max_list_frames }
    ensures { result ≡ place_on backward frames place }
{
    if backward {
        place.saturating_sub(frames)
    } else {
        place + frames
    }
}

/// How many frames these are, at most `MOST`.
fn count_of(input: &[Frame]) -> u32
    ensures within { result ≤ length input.now }
    ensures few { result ≤ most_told }
{
    input.len().min(MOST as usize) as u32
}

impl Parts {
    /// How many of these frames come before the border of the list.
    #[tactic(auto, using(crate::proofs::StretchLemmas::stretching))]
    fn frames_ahead(&self, input: &[Frame]) -> u32
        requires inside { self.now.deck.pos < length_of (loop_of self.now) }
        ensures within { result ≤ length input.now }
        ensures few { result ≤ most_told }
        ensures ahead { IsAhead (length (take result input.now)) self.now.deck.backward
            self.now.deck.pos (length_of (loop_of self.now)) }
    {
        let sizes = self.layers.sizes();
        count_of(input).min(places_ahead(self.deck.backward, self.deck.pos, sizes.length))
    }

    /// How many of these frames are a stretch in this mode, 0 where the next one is to be taken
    /// alone.
    #[tactic(auto, using(crate::proofs::StretchLemmas::stretching))]
    fn stretch_in(&self, mode: Mode, input: &[Frame]) -> u32
        requires whole { IsWhole self.now }
        requires is { self.now.deck.mode ≡ mode }
        ensures within { result ≤ length input.now }
        ensures few { result ≤ most_told }
        ensures stretch { IsStretch mode (take result input.now) self.now.controls.rec_thresh
            self.now.deck.backward self.now.deck.pos (length_of (loop_of self.now)) }
    {
        match mode {
            Mode::Off => count_of(input),
            Mode::Paused => count_of(input),
            Mode::WaitStart => soft_frames(input, self.controls.rec_thresh),
            Mode::Playing => self.frames_ahead(input),
            Mode::Muted => self.frames_ahead(input),
            Mode::OneShot => self.frames_ahead(input),
            _ => 0,
        }
    }

    /// The frames of the list from the place down.
    #[tactic(auto, using(crate::proofs::StretchLemmas::stretching))]
    fn hear_back(&self, pool: &Pool, heard: &mut [Frame])
        requires short { self.now.deck.pos ≤ max_list_frames }
        requires owns { Owns (strip_of self.now) pool.now }
        requires ahead { IsAhead (length heard.old) true self.now.deck.pos
            (length_of (loop_of self.now)) }
        ensures { heard.new ≡ part_of true (length heard.old) self.now.deck.pos
            (current_list (seen_layers self.now.layers pool.now).layers) }
    {
        let first = self.deck.pos + 1 - heard.len() as u32;
        self.layers.read_span(pool, first, heard);
        heard.reverse();
    }

    /// The frames of the list from the place on, in the direction.
    #[tactic(auto, using(crate::proofs::StretchLemmas::stretching))]
    fn hear_part(&self, pool: &Pool, heard: &mut [Frame])
        requires short { self.now.deck.pos ≤ max_list_frames }
        requires owns { Owns (strip_of self.now) pool.now }
        requires ahead { IsAhead (length heard.old) self.now.deck.backward self.now.deck.pos
            (length_of (loop_of self.now)) }
        ensures { heard.new ≡ part_of self.now.deck.backward (length heard.old) self.now.deck.pos
            (current_list (seen_layers self.now.layers pool.now).layers) }
    {
        if self.deck.backward {
            self.hear_back(pool, heard);
        } else {
            self.layers.read_span(pool, self.deck.pos, heard);
        }
    }

    /// What is heard of a stretch in this mode.
    #[tactic(auto, using(crate::proofs::StretchLemmas::stretching))]
    fn hear_stretch(&self, pool: &Pool, mode: Mode, input: &[Frame], heard: &mut [Frame])
        requires short { self.now.deck.pos ≤ max_list_frames }
        requires owns { Owns (strip_of self.now) pool.now }
        requires same_length { length input.now ≡ length heard.old }
        requires stretch { IsStretch mode input.now self.now.controls.rec_thresh
            self.now.deck.backward self.now.deck.pos (length_of (loop_of self.now)) }
        ensures { heard.new ≡ part_heard mode self.now.deck.backward (length heard.old)
            self.now.deck.pos (current_list (seen_layers self.now.layers pool.now).layers) }
    {
        match mode {
            Mode::Playing => self.hear_part(pool, heard),
            Mode::OneShot => self.hear_part(pool, heard),
            _ => heard.fill(Frame::silence()),
        }
    }

    /// Goes so many places on in the direction.
    fn move_on(&mut self, frames: u32)
        requires short { self.old.deck.pos + frames ≤ 2 * max_list_frames }
        ensures ok { loop_of self.new ≡ at_place
            (place_on self.old.deck.backward frames self.old.deck.pos) (loop_of self.old) }
        ensures layers { self.new.layers ≡ self.old.layers }
        ensures pinned { self.new.pinned ≡ self.old.pinned }
    {
        self.deck.pos = place_on(self.deck.backward, frames, self.deck.pos);
        self.layers.seek(self.deck.pos);
    }

    /// Goes so many frames on in this mode.
    fn go_stretch(&mut self, mode: Mode, frames: u32)
        requires short { self.old.deck.pos + frames ≤ 2 * max_list_frames }
        ensures ok { loop_of self.new ≡ at_place
            (place_behind mode self.old.deck.backward frames self.old.deck.pos) (loop_of self.old) }
        ensures layers { self.new.layers ≡ self.old.layers }
        ensures pinned { self.new.pinned ≡ self.old.pinned }
    {
        match mode {
            Mode::Playing => self.move_on(frames),
            Mode::Muted => self.move_on(frames),
            Mode::OneShot => self.move_on(frames),
            _ => {}
        }
    }

    /// A stretch, and what is heard of it.
    #[tactic(auto, using(crate::proofs::StretchLemmas::stretching))]
    fn pass_stretch(&mut self, pool: &Pool, mode: Mode, input: &[Frame], heard: &mut [Frame])
        requires whole { IsWhole self.old }
        requires owns { Owns (strip_of self.old) pool.now }
        requires is { self.old.deck.mode ≡ mode }
        requires same_length { length input.now ≡ length heard.old }
        requires few { length input.now ≤ max_list_frames }
        requires stretch { IsStretch mode input.now self.old.controls.rec_thresh
            self.old.deck.backward self.old.deck.pos (length_of (loop_of self.old)) }
        ensures did { Did (loop_over input.now) (strip_of self.old) (strip_of self.new) pool.now
            pool.now }
        ensures heard { heard.new ≡ loop_heard_over input.now
            (reach_in (strip_of self.old) pool.now) (seen (strip_of self.old) pool.now) }
        ensures whole { IsWhole self.new }
    {
        self.hear_stretch(pool, mode, input, heard);
        self.go_stretch(mode, heard.len() as u32);
        self.layers.facts();
    }

    /// The next frame alone.
    fn take_one(&mut self, pool: &mut Pool, input: &[Frame], heard: &mut [Frame]) -> usize
        requires whole { IsWhole self.old }
        requires owns { Owns (strip_of self.old) pool.old }
        requires some { 1 ≤ length input.now }
        requires same_length { length input.now ≡ length heard.old }
        ensures one { result ≡ 1 }
        ensures did { Did (loop_over (take 1 input.now)) (strip_of self.old) (strip_of self.new)
            pool.old pool.new }
        ensures heard { take 1 heard.new ≡ loop_heard_over (take 1 input.now)
            (reach_in (strip_of self.old) pool.old) (seen (strip_of self.old) pool.old) }
        ensures same { length heard.new ≡ length heard.old }
        ensures whole { IsWhole self.new }
    {
        heard[0] = self.frame(pool, &input[0]);
        1
    }

    /// The next row of these frames, as far as it can be written at once, or the next frame alone;
    /// how many they are.
    #[tactic(auto, using(crate::proofs::RowLemmas::takes))]
    fn take_row(
        &mut self,
        pool: &mut Pool,
        mode: Mode,
        input: &[Frame],
        heard: &mut [Frame],
    ) -> usize
        requires whole { IsWhole self.old }
        requires owns { Owns (strip_of self.old) pool.old }
        requires is { self.old.deck.mode ≡ mode }
        requires some { 1 ≤ length input.now }
        requires same_length { length input.now ≡ length heard.old }
        ensures some { 1 ≤ result }
        ensures within { result ≤ length input.now }
        ensures did { Did (loop_over (take result input.now)) (strip_of self.old)
            (strip_of self.new) pool.old pool.new }
        ensures heard { take result heard.new ≡ loop_heard_over (take result input.now)
            (reach_in (strip_of self.old) pool.old) (seen (strip_of self.old) pool.old) }
        ensures same { length heard.new ≡ length heard.old }
        ensures whole { IsWhole self.new }
    {
        let row = self.row_in(mode, input) as usize;
        if row == 0 {
            return self.take_one(pool, input, heard);
        }
        let done = self.pass_row(pool, mode, &input[..row], &mut heard[..row]);
        if done == 0 {
            return self.take_one(pool, input, heard);
        }
        done
    }

    /// The next stretch or row of these frames, or the next frame alone; how many they are.
    pub(crate) fn take_some(
        &mut self,
        pool: &mut Pool,
        input: &[Frame],
        heard: &mut [Frame],
    ) -> usize
        requires whole { IsWhole self.old }
        requires owns { Owns (strip_of self.old) pool.old }
        requires some { 1 ≤ length input.now }
        requires same_length { length input.now ≡ length heard.old }
        ensures some { 1 ≤ result }
        ensures within { result ≤ length input.now }
        ensures did { Did (loop_over (take result input.now)) (strip_of self.old)
            (strip_of self.new) pool.old pool.new }
        ensures heard { take result heard.new ≡ loop_heard_over (take result input.now)
            (reach_in (strip_of self.old) pool.old) (seen (strip_of self.old) pool.old) }
        ensures same { length heard.new ≡ length heard.old }
        ensures whole { IsWhole self.new }
    {
        let mode = self.deck.mode;
        let count = self.stretch_in(mode, input) as usize;
        if count == 0 {
            return self.take_row(pool, mode, input, heard);
        }
        self.pass_stretch(pool, mode, &input[..count], &mut heard[..count]);
        count
    }
}
