//! Frames in a row that a loop writes over its list: the list is read, mixed and written in spans.

ghost use Rattle.std.specs.Prelude.{◌≡◌, ℕ, ◌≤◌, ◌<◌, ◌+◌, ◌*◌, true, false, length, take, get_or};
ghost use Rattle.sl_base.specs.Limits.{max_list_frames};
ghost use Rattle.sl_base.specs.Sounds.{silence, clamped_sound, summed, scaled_sound};
ghost use Rattle.looper_rules.specs.Layers.{current_list};
ghost use Rattle.looper_rules.specs.Loop.{is_writing, length_of, at_place};
ghost use Rattle.looper_rules.specs.LoopFrame.{heard_from, new_frame};
ghost use Rattle.looper_rules.specs.LoopSpans.{loop_over, loop_heard_over};
ghost use Rattle.layer_memory.specs.Seen.{seen as seen_layers};
ghost use Rattle.loop_strip.specs.Strips.{seen, Owns, Did, reach_in};
ghost use Rattle.loop_strip.specs.Rows.{WritesOver, IsRow};
ghost use Rattle.loop_strip.specs.Parts.{loop_of, strip_of, IsWhole};

use crate::frames::frame::mix;
use crate::parts::Parts;
use crate::spans::stretches::places_ahead;
use loop_tape::Pool;
use sl_base::Frame;
use sl_commands::Mode;

/// The frames of the longest row.
const MOST_IN_ROW: usize = 256;

/// Fewer frames than these are taken one by one, which is as fast.
const LEAST_IN_ROW: u32 = 4;

/// The old frames scaled, each with another on top.
#[tactic(auto, using(crate::proofs::RowLemmas::rows))]
fn mix_row(feedback: u16, heard: &[Frame], input: &[Frame], next: &mut [Frame])
    requires level { feedback ≤ 1000 }
    requires heard { length input.now ≡ length heard.now }
    requires next { length next.old ≡ length input.now }
    ensures length { length next.new ≡ length input.now }
    ensures value { (k : ℕ) → k < length input.now → get_or next.new k silence ≡ clamped_sound
        (summed (scaled_sound (get_or heard.now k silence) feedback) (get_or input.now k silence)) }
{
    for i in 0..next.len() {
        next[i] = mix(&heard[i], feedback, &input[i]);
    }
}

impl Parts {
    /// How many of these frames are a row for a mode that writes over the list, 0 where the next
    /// one is to be taken alone.
    #[tactic(auto, using(crate::proofs::RowLemmas::rows))]
    fn row_over(&self, mode: Mode, input: &[Frame]) -> u32
        requires whole { IsWhole self.now }
        requires is { self.now.deck.mode ≡ mode }
        requires over { WritesOver mode }
        ensures within { result ≤ length input.now }
        ensures few { result ≤ 256 }
        ensures row { 1 ≤ result → IsRow mode result self.now.deck.backward self.now.deck.pos
            (length_of (loop_of self.now)) }
    {
        if self.deck.backward {
            return 0;
        }
        let sizes = self.layers.sizes();
        let ahead = places_ahead(false, self.deck.pos, sizes.length);
        let most = (input.len().min(MOST_IN_ROW) as u32).min(ahead);
        if most < LEAST_IN_ROW {
            return 0;
        }
        self.layers.span_ahead(self.deck.pos, most)
    }

    /// How many of these frames are a row in this mode, 0 where the next one is to be taken alone.
    pub(crate) fn row_in(&self, mode: Mode, input: &[Frame]) -> u32
        requires whole { IsWhole self.now }
        requires is { self.now.deck.mode ≡ mode }
        ensures within { result ≤ length input.now }
        ensures few { result ≤ 256 }
        ensures row { 1 ≤ result → IsRow mode result self.now.deck.backward self.now.deck.pos
            (length_of (loop_of self.now)) }
    {
        match mode {
            Mode::Overdubbing => self.row_over(mode, input),
            Mode::Replacing => self.row_over(mode, input),
            Mode::Substituting => self.row_over(mode, input),
            _ => 0,
        }
    }

    /// What is heard of a row.
    #[tactic(auto, using(crate::proofs::RowLemmas::hears))]
    fn hear_row(&self, pool: &Pool, mode: Mode, heard: &mut [Frame])
        requires owns { Owns (strip_of self.now) pool.now }
        requires row { IsRow mode (length heard.old) self.now.deck.backward self.now.deck.pos
            (length_of (loop_of self.now)) }
        ensures length { length heard.new ≡ length heard.old }
        ensures value { (k : ℕ) → k < length heard.new →
            get_or heard.new k silence ≡ heard_from mode
            (current_list (seen_layers self.now.layers pool.now).layers) (self.now.deck.pos + k) }
    {
        match mode {
            Mode::Overdubbing => self.layers.read_span(pool, self.deck.pos, heard),
            Mode::Substituting => self.layers.read_span(pool, self.deck.pos, heard),
            _ => heard.fill(Frame::silence()),
        }
    }

    /// What is written in a row, where these frames are heard.
    #[tactic(auto, using(crate::proofs::FrameLemmas::mixing))]
    fn mix_row_in(&self, mode: Mode, heard: &[Frame], input: &[Frame], next: &mut [Frame])
        requires whole { IsWhole self.now }
        requires heard { length input.now ≡ length heard.now }
        requires next { length next.old ≡ length input.now }
        ensures length { length next.new ≡ length input.now }
        ensures value { (k : ℕ) → k < length input.now → get_or next.new k silence ≡ new_frame mode
            self.now.controls.feedback (get_or heard.now k silence) (get_or input.now k silence) }
    {
        match mode {
            Mode::Overdubbing => mix_row(self.controls.feedback, heard, input, next),
            Mode::Multiplying => mix_row(self.controls.feedback, heard, input, next),
            _ => next.copy_from_slice(input),
        }
    }

    /// Goes so many places on.
    fn go_row(&mut self, frames: u32)
        requires short { self.old.deck.pos + frames ≤ 2 * max_list_frames }
        ensures ok { loop_of self.new ≡ at_place (self.old.deck.pos + frames) (loop_of self.old) }
        ensures layers { self.new.layers ≡ self.old.layers }
        ensures pinned { self.new.pinned ≡ self.old.pinned }
    {
        self.deck.pos += frames;
        self.layers.seek(self.deck.pos);
    }

    /// Writes a row of which these frames are heard, as far as it can be written at once, and goes
    /// on. `next` is room for what is written. How many frames were written.
    #[tactic(auto, using(crate::proofs::RowLemmas::rows))]
    fn write_row(
        &mut self,
        pool: &mut Pool,
        mode: Mode,
        input: &[Frame],
        heard: &[Frame],
        next: &mut [Frame],
    ) -> usize
        requires whole { IsWhole self.old }
        requires owns { Owns (strip_of self.old) pool.old }
        requires is { self.old.deck.mode ≡ mode }
        requires some { 1 ≤ length input.now }
        requires few { length input.now ≤ 256 }
        requires row { IsRow mode (length input.now) self.old.deck.backward self.old.deck.pos
            (length_of (loop_of self.old)) }
        requires same_length { length input.now ≡ length heard.now }
        requires room { length next.old ≡ length input.now }
        requires heard { (k : ℕ) → k < length heard.now →
            get_or heard.now k silence ≡ heard_from mode
            (current_list (seen_layers self.old.layers pool.old).layers) (self.old.deck.pos + k) }
        ensures within { result ≤ length input.now }
        ensures did { Did (loop_over (take result input.now)) (strip_of self.old)
            (strip_of self.new) pool.old pool.new }
        ensures heard { take result heard.now ≡ loop_heard_over (take result input.now)
            (reach_in (strip_of self.old) pool.old) (seen (strip_of self.old) pool.old) }
        ensures whole { IsWhole self.new }
    {
        self.mix_row_in(mode, heard, input, next);
        let done = self.layers.write_span(pool, self.deck.pos, next);
        self.layers.facts();
        self.go_row(done as u32);
        self.layers.facts();
        done
    }

    /// A row in this mode, as far as it can be written at once, and what is heard of it. How many
    /// frames that are.
    #[tactic(auto, using(crate::proofs::RowLemmas::rows))]
    pub(crate) fn pass_row(
        &mut self,
        pool: &mut Pool,
        mode: Mode,
        input: &[Frame],
        heard: &mut [Frame],
    ) -> usize
        requires whole { IsWhole self.old }
        requires owns { Owns (strip_of self.old) pool.old }
        requires is { self.old.deck.mode ≡ mode }
        requires some { 1 ≤ length input.now }
        requires few { length input.now ≤ 256 }
        requires row { IsRow mode (length input.now) self.old.deck.backward self.old.deck.pos
            (length_of (loop_of self.old)) }
        requires same_length { length input.now ≡ length heard.old }
        ensures within { result ≤ length input.now }
        ensures did { Did (loop_over (take result input.now)) (strip_of self.old)
            (strip_of self.new) pool.old pool.new }
        ensures heard { take result heard.new ≡ loop_heard_over (take result input.now)
            (reach_in (strip_of self.old) pool.old) (seen (strip_of self.old) pool.old) }
        ensures same { length heard.new ≡ length heard.old }
        ensures whole { IsWhole self.new }
    {
        let mut next = [Frame::silence(); MOST_IN_ROW];
        self.hear_row(pool, mode, heard);
        self.write_row(pool, mode, input, heard, &mut next[..input.len()])
    }
}
