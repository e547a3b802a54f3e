//! How long a loop is quiet.

ghost use Rattle.std.specs.Prelude.{◌≡◌, ℕ, ◌≤◌, ◌<◌, true, false, length, take, nat_le, get_or};
ghost use Rattle.sl_base.specs.Sounds.{Sound, loudness, silence};
ghost use Rattle.sl_commands.specs.declared.Mode.TheVariants.{Playing, WaitStart, OneShot};
ghost use Rattle.looper_rules.specs.Loop.{is_writing, length_of};
ghost use Rattle.looper_rules.specs.LoopFrame.{frame_later};
ghost use Rattle.looper_rules.specs.LoopSpans.{AreQuiet, AreQuietBehind};
ghost use Rattle.loop_tape.specs.Pools.{PoolOf};
ghost use Rattle.loop_strip.specs.Strips.{seen};
ghost use Rattle.loop_strip.specs.Parts.{loop_of, strip_of, IsWhole};
ghost use Rattle.loop_strip.specs.Stretches.{IsAhead};
ghost use Rattle.loop_strip.specs.Budgets.{IsInChunk, GoesOnIn, IsAmple};
ghost use Rattle.loop_strip.specs.Quiet.{IsQuietFor, IsQuietOver, AreSoft, most_told};

use crate::frames::frame::is_loud;
use crate::parts::Parts;
use crate::spans::stretches::places_ahead;
use sl_base::{CHUNK_FRAMES, Frame, MAX_LIST_FRAMES, MAX_SEAMS};
use sl_commands::Mode;

/// The longest stretch that is told.
pub(crate) const MOST: u32 = 1048576;

/// How many frames there are before the first loud one, at most `MOST`.
#[tactic(auto, using(crate::proofs::QuietLemmas::soft_more))]
pub(crate) fn soft_frames(input: &[Frame], threshold: u32) -> u32
    ensures within { result ≤ length input.now }
    ensures few { result ≤ most_told }
    ensures soft { AreSoft threshold (take result input.now) }
{
    let most = input.len().min(MOST as usize);
    for i in 0..most {
        if is_loud(&input[i], threshold) {
            return i as u32;
        }
    }
    most as u32
}

/// How many frames come before the end of the chunk in which a tape of this length ends, 0 where
/// that chunk is full.
fn frames_in_chunk(tape: u32) -> u32
    ensures { 1 ≤ result → IsInChunk result tape }
{
    let part = tape % CHUNK_FRAMES;
    if part == 0 { 0 } else { CHUNK_FRAMES - part }
}

impl Parts {
    /// How many of so many frames come before a stop, or before a multiply comes to the end of its
    /// list.
    fn frames_before_end(&self, mode: Mode, length: u32, frames: u32) -> u32
        requires is { self.now.deck.mode ≡ mode }
        requires length { length ≡ length_of (loop_of self.now) }
        ensures within { result ≤ frames }
        ensures goes_on { 1 ≤ result →
            GoesOnIn mode result (loop_of self.now).deck (length_of (loop_of self.now)) }
    {
        match mode {
            Mode::Multiplying => {
                if self.deck.rounding {
                    0
                } else {
                    frames.min(length.saturating_sub(self.deck.pos))
                }
            }
            Mode::Inserting => { if self.deck.rounding { 0 } else { frames } }
            _ => frames,
        }
    }

    /// How many frames are surely written in this mode, with no chunk taken and no layer closed.
    #[tactic(auto, using(crate::proofs::BudgetLemmas::budgeting))]
    fn budget(&self, mode: Mode) -> u32
        requires is { self.now.deck.mode ≡ mode }
        ensures { 1 ≤ result → IsAmple result (loop_of self.now) }
    {
        let sizes = self.layers.sizes();
        let (tape, _) = self.layers.tops();
        let chunk = frames_in_chunk(tape);
        let frames = chunk
            .min(MAX_SEAMS.saturating_sub(sizes.seams) / 2)
            .min(MAX_LIST_FRAMES.saturating_sub(sizes.length));
        self.frames_before_end(mode, sizes.length, frames)
    }

    /// For how many frames the loop is quiet in this writing mode.
    #[tactic(auto, using(crate::proofs::BudgetLemmas::budgets))]
    fn quiet_writing(&self, mode: Mode) -> u32
        requires whole { IsWhole self.now }
        requires is { self.now.deck.mode ≡ mode }
        requires writing { is_writing mode ≡ true }
        ensures some { 1 ≤ result }
        ensures quiet { IsQuietFor result (strip_of self.now) }
    {
        let frames = self.budget(mode);
        if frames == 0 { 1 } else { frames }
    }

    /// For how many frames a OneShot is quiet: those before the border of its list.
    #[tactic(auto, using(crate::proofs::BudgetLemmas::budgets))]
    fn quiet_shot(&self) -> u32
        requires inside { self.now.deck.pos < length_of (loop_of self.now) }
        requires is { self.now.deck.mode ≡ OneShot }
        ensures some { 1 ≤ result }
        ensures quiet { IsQuietFor result (strip_of self.now) }
    {
        let sizes = self.layers.sizes();
        let frames = places_ahead(self.deck.backward, self.deck.pos, sizes.length);
        if frames == 0 { 1 } else { frames }
    }

    /// For how many frames the loop is quiet in this mode.
    #[tactic(auto, using(crate::proofs::BudgetLemmas::quieting))]
    fn quiet_in(&self, mode: Mode) -> u32
        requires whole { IsWhole self.now }
        requires is { self.now.deck.mode ≡ mode }
        ensures some { 1 ≤ result }
        ensures playing { mode ≡ Playing → 8192 ≤ result }
        ensures quiet { IsQuietFor result (strip_of self.now) }
    {
        match mode {
            Mode::Off => MOST,
            Mode::Playing => MOST,
            Mode::Muted => MOST,
            Mode::Paused => MOST,
            Mode::WaitStart => 1,
            Mode::OneShot => self.quiet_shot(),
            Mode::Recording => self.quiet_writing(mode),
            Mode::Overdubbing => self.quiet_writing(mode),
            Mode::Multiplying => self.quiet_writing(mode),
            Mode::Inserting => self.quiet_writing(mode),
            Mode::Replacing => self.quiet_writing(mode),
            Mode::Substituting => self.quiet_writing(mode),
        }
    }

    /// For how many frames the loop is quiet.
    pub(crate) fn quiet(&self) -> u32
        requires whole { IsWhole self.now }
        ensures some { 1 ≤ result }
        ensures playing { self.now.deck.mode ≡ Playing → 8192 ≤ result }
        ensures quiet { IsQuietFor result (strip_of self.now) }
    {
        self.quiet_in(self.deck.mode)
    }

    /// A loop in WaitStart is quiet up to its first loud frame.
    #[tactic(auto, using(crate::proofs::QuietLemmas::waiting))]
    fn quiet_waiting(&self, input: &[Frame]) -> u32
        requires waits { self.now.deck.mode ≡ WaitStart }
        ensures some { 1 ≤ result }
        ensures quiet { IsQuietOver result input.now (strip_of self.now) }
    {
        let soft = soft_frames(input, self.controls.rec_thresh);
        if soft == 0 { 1 } else { soft }
    }

    /// For how many of these frames the loop is quiet in this mode.
    #[tactic(auto, using(crate::proofs::QuietLemmas::waiting))]
    fn quiet_over_in(&self, mode: Mode, input: &[Frame]) -> u32
        requires whole { IsWhole self.now }
        requires is { self.now.deck.mode ≡ mode }
        ensures some { 1 ≤ result }
        ensures quiet { IsQuietOver result input.now (strip_of self.now) }
    {
        match mode {
            Mode::WaitStart => self.quiet_waiting(input),
            _ => self.quiet(),
        }
    }

    /// For how many of these frames the loop is quiet.
    pub(crate) fn quiet_over(&self, input: &[Frame]) -> u32
        requires whole { IsWhole self.now }
        ensures some { 1 ≤ result }
        ensures quiet { IsQuietOver result input.now (strip_of self.now) }
    {
        self.quiet_over_in(self.deck.mode, input)
    }
}
