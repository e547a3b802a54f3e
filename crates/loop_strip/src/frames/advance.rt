//! The advance of a loop, and what a frame writes.

ghost use Rattle.std.specs.Prelude.{◌≡◌, ℕ, ◌≤◌, ◌<◌, ◌==◌, ◌%◌, ◌-◌, ◌+◌, ◌||◌, true, false, length, if◌then◌else◌, IsTrue};
ghost use Rattle.std.specs.declared.option.Option.TheVariants.{None};
ghost use Rattle.sl_base.specs.Limits.{max_list_frames};
ghost use Rattle.sl_base.specs.Sounds.{Sound};
ghost use Rattle.looper_rules.specs.Layers.{current_length, current_list};
ghost use Rattle.looper_rules.specs.Stack.{streak_broken};
ghost use Rattle.looper_rules.specs.Loop.{is_writing, length_of, base_length_of, cycle_of, at_place, in_mode_at, with_stack};
ghost use Rattle.looper_rules.specs.LoopFrame.{stopped, wraps, wrapped_place, next_place, wrapped_mode, goes_on, stops_if, lengthens, advanced_in, advanced, overrun_in, after};
ghost use Rattle.looper_rules.specs.Closing.{at_stop_in, at_stop};
ghost use Rattle.looper_laws.proofs.Kept.LoopFrame.{IsPlaced};
ghost use Rattle.loop_strip.specs.Strips.{seen, Owns, Did, reach_in};
ghost use Rattle.loop_strip.specs.Advances.{MayAdvance};
ghost use Rattle.loop_strip.specs.Parts.{loop_of, strip_of, IsWhole};

use crate::deck::rest;
use crate::modes::wrapped_mode;
use crate::parts::Parts;
use loop_tape::Pool;
use sl_base::Frame;
use sl_commands::Mode;

/// Going on from a place wraps around.
fn wraps(backward: bool, place: u32, length: u32) -> bool
    requires { place ≤ max_list_frames }
    ensures { result ≡ wraps backward place length }
{
    if backward {
        place == 0
    } else {
        place + 1 == length
    }
}

/// The place behind a wrap.
fn wrapped_place(backward: bool, length: u32) -> u32
    ensures { result ≡ wrapped_place backward length }
{
    if backward {
        length.saturating_sub(1)
    } else {
        0
    }
}

/// The next place without a wrap.
fn next_place(backward: bool, place: u32) -> u32
    requires { place ≤ max_list_frames }
    ensures { result ≡ next_place backward place }
{
    if backward {
        place.saturating_sub(1)
    } else {
        place + 1
    }
}

impl Parts {
    /// Breaks the streak, where one may go on.
    #[tactic(auto, using(crate::proofs::FrameLemmas::unbroken))]
    fn break_any_streak(&mut self)
        requires coupled { self.old.layers.writing ≡ is_writing self.old.deck.mode }
        requires still { is_writing self.old.deck.mode ≡ false →
            self.old.layers.stack.streak ≡ None }
        ensures ok { loop_of self.new ≡ with_stack (streak_broken (loop_of self.old).stack)
            (loop_of self.old) }
        ensures tape { self.new.layers.tape ≡ self.old.layers.tape }
        ensures pinned { self.new.pinned ≡ self.old.pinned }
        ensures writing { self.new.layers.writing ≡ self.old.layers.writing }
    {
        if self.deck.mode.is_writing() {
            self.layers.break_streak();
        }
    }

    /// Goes on in the direction, by whether that wraps around.
    #[tactic(auto, using(crate::proofs::FrameLemmas::unbroken))]
    fn go_on_as(&mut self, round: bool, length: u32)
        requires place { self.old.deck.pos ≤ max_list_frames }
        requires length { length ≡ length_of (loop_of self.old) }
        requires coupled { self.old.layers.writing ≡ is_writing self.old.deck.mode }
        requires still { is_writing self.old.deck.mode ≡ false →
            self.old.layers.stack.streak ≡ None }
        ensures ok { loop_of self.new ≡ goes_on round (loop_of self.old) }
        ensures tape { self.new.layers.tape ≡ self.old.layers.tape }
        ensures pinned { self.new.pinned ≡ self.old.pinned }
        ensures writing { self.new.layers.writing ≡ is_writing self.new.deck.mode }
    {
        if round {
            self.break_any_streak();
            self.deck.mode = wrapped_mode(self.deck.mode);
            self.deck.pos = wrapped_place(self.deck.backward, length);
            self.layers.seek(self.deck.pos);
        } else {
            self.deck.pos = next_place(self.deck.backward, self.deck.pos);
            self.layers.seek(self.deck.pos);
        }
    }

    /// Goes on in the direction, and round at the list's border.
    fn go_on(&mut self)
        requires place { self.old.deck.pos ≤ max_list_frames }
        requires coupled { self.old.layers.writing ≡ is_writing self.old.deck.mode }
        requires still { is_writing self.old.deck.mode ≡ false →
            self.old.layers.stack.streak ≡ None }
        ensures ok { loop_of self.new ≡ goes_on
            (wraps self.old.deck.backward self.old.deck.pos (length_of (loop_of self.old)))
            (loop_of self.old) }
        ensures tape { self.new.layers.tape ≡ self.old.layers.tape }
        ensures pinned { self.new.pinned ≡ self.old.pinned }
        ensures writing { self.new.layers.writing ≡ is_writing self.new.deck.mode }
    {
        let sizes = self.layers.sizes();
        let round = wraps(self.deck.backward, self.deck.pos, sizes.length);
        self.go_on_as(round, sizes.length);
    }

    /// A multiply or an insert is at its stop.
    fn is_at_stop(&self, mode: Mode) -> bool
        requires is { self.now.deck.mode ≡ mode }
        ensures { result ≡ at_stop_in mode (loop_of self.now) }
    {
        let sizes = self.layers.sizes();
        match mode {
            Mode::Multiplying => rest(self.deck.pos, sizes.cycle) == 0,
            Mode::Inserting => rest(sizes.length.saturating_sub(sizes.base), sizes.cycle) == 0,
            _ => false,
        }
    }

    /// Closes the layer where it rounds and is at its stop.
    fn stop_if_asked(&mut self)
        requires place { self.old.deck.pos ≤ length_of (loop_of self.old) }
        requires writing { is_writing self.old.deck.mode ≡ true }
        requires coupled { self.old.layers.writing ≡ true }
        ensures ok { loop_of self.new ≡ stops_if self.old.deck.rounding (loop_of self.old) }
        ensures tape { self.new.layers.tape ≡ self.old.layers.tape }
        ensures pinned { self.new.pinned ≡ self.old.pinned }
        ensures writing { self.new.layers.writing ≡ is_writing self.new.deck.mode }
    {
        if !self.deck.rounding {
            return;
        }
        let mode = self.deck.mode;
        if self.is_at_stop(mode) {
            self.close_now();
        }
    }

    /// A multiply or an insert goes on.
    fn lengthen(&mut self)
        requires place { self.old.deck.pos + 1 ≤ length_of (loop_of self.old) }
        requires short { self.old.deck.pos ≤ max_list_frames }
        requires writing { is_writing self.old.deck.mode ≡ true }
        requires coupled { self.old.layers.writing ≡ true }
        ensures ok { loop_of self.new ≡ lengthens (loop_of self.old) }
        ensures tape { self.new.layers.tape ≡ self.old.layers.tape }
        ensures pinned { self.new.pinned ≡ self.old.pinned }
        ensures writing { self.new.layers.writing ≡ is_writing self.new.deck.mode }
    {
        self.deck.pos += 1;
        self.stop_if_asked();
    }

    /// Goes on in this mode.
    pub(crate) fn advance_in(&mut self, mode: Mode)
        requires is { self.old.deck.mode ≡ mode }
        requires ready { MayAdvance mode self.old.deck.pos (length_of (loop_of self.old)) }
        requires coupled { self.old.layers.writing ≡ is_writing mode }
        requires still { is_writing mode ≡ false → self.old.layers.stack.streak ≡ None }
        ensures ok { loop_of self.new ≡ advanced_in mode (loop_of self.old) }
        ensures tape { self.new.layers.tape ≡ self.old.layers.tape }
        ensures pinned { self.new.pinned ≡ self.old.pinned }
        ensures writing { self.new.layers.writing ≡ is_writing self.new.deck.mode }
    {
        match mode {
            Mode::Off => {}
            Mode::WaitStart => {}
            Mode::Paused => {}
            Mode::Recording => {
                let sizes = self.layers.sizes();
                self.deck.pos = sizes.length;
            }
            Mode::Inserting => self.lengthen(),
            Mode::Multiplying => self.lengthen(),
            _ => self.go_on(),
        }
    }

    /// A frame that doesn't fit, in this mode.
    #[tactic(auto, using(crate::proofs::FrameLemmas::overrunning))]
    pub(crate) fn overrun(&mut self, mode: Mode)
        requires whole { IsWhole self.old }
        requires is { self.old.deck.mode ≡ mode }
        requires writing { is_writing mode ≡ true }
        ensures ok { loop_of self.new ≡ overrun_in mode (loop_of self.old) }
        ensures tape { self.new.layers.tape ≡ self.old.layers.tape }
        ensures pinned { self.new.pinned ≡ self.old.pinned }
        ensures writing { self.new.layers.writing ≡ is_writing self.new.deck.mode }
    {
        match mode {
            Mode::Recording => self.stop(),
            _ => {
                self.stop();
                let next = self.deck.mode;
                self.advance_in(next);
            }
        }
    }
}
