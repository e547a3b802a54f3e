//! Closing the open layer.

ghost use Rattle.std.specs.Prelude.{◌≡◌, ◌≤◌, ◌%◌, true, false, IsTrue, IfSome, if◌then◌else◌, nat_lt};
ghost use Rattle.std.specs.declared.option.Option.TheVariants.{None};
ghost use Rattle.sl_commands.specs.declared.Mode.TheVariants.{Playing, Recording, Multiplying};
ghost use Rattle.looper_rules.specs.Layers.{current_length};
ghost use Rattle.looper_rules.specs.Loop.{is_writing};
ghost use Rattle.looper_rules.specs.Closing.{closed, closed_from, closed_recording, closed_multiplying, closes_as, finished, dropped, multiply_cut};
ghost use Rattle.loop_strip.specs.Parts.{loop_of, IsWhole};

use crate::deck::rest;
use crate::parts::Parts;
use sl_commands::Mode;

impl Parts {
    /// Keeps the open layer, and goes to a place in another mode.
    fn finish_as(&mut self, mode: Mode, pos: u32)
        requires writing { IsTrue self.old.layers.writing }
        ensures ok { loop_of self.new ≡ closes_as mode pos (finished None (loop_of self.old).stack)
            (loop_of self.old) }
        ensures tape { self.new.layers.tape ≡ self.old.layers.tape }
        ensures writing { self.new.layers.writing ≡ false }
        ensures pinned { self.new.pinned ≡ self.old.pinned }
    {
        self.layers.finish(None);
        self.deck.close_to(mode, pos);
    }

    /// Removes the open layer, and goes to the first place in another mode.
    fn drop_as(&mut self, mode: Mode)
        requires writing { IsTrue self.old.layers.writing }
        ensures ok { loop_of self.new ≡ closes_as mode 0 (dropped (loop_of self.old).stack)
            (loop_of self.old) }
        ensures tape { self.new.layers.tape ≡ self.old.layers.tape }
        ensures writing { self.new.layers.writing ≡ false }
        ensures pinned { self.new.pinned ≡ self.old.pinned }
    {
        self.layers.drop_last();
        self.deck.close_to(mode, 0);
    }

    /// Closes a Recording, by whether it has length 0 and is the only layer.
    fn close_recording_as(&mut self, empty: bool, single: bool)
        requires writing { IsTrue self.old.layers.writing }
        ensures ok { loop_of self.new ≡ closed_recording empty single (loop_of self.old) }
        ensures tape { self.new.layers.tape ≡ self.old.layers.tape }
        ensures writing { self.new.layers.writing ≡ false }
        ensures pinned { self.new.pinned ≡ self.old.pinned }
    {
        if !empty {
            self.finish_as(Mode::Playing, 0);
            return;
        }
        if single {
            self.drop_as(Mode::Off);
        } else {
            self.drop_as(Mode::Playing);
        }
    }

    /// Closes a Recording.
    fn close_recording(&mut self)
        requires writing { IsTrue self.old.layers.writing }
        ensures ok { loop_of self.new ≡ closed_from Recording (loop_of self.old) }
        ensures tape { self.new.layers.tape ≡ self.old.layers.tape }
        ensures writing { self.new.layers.writing ≡ false }
        ensures pinned { self.new.pinned ≡ self.old.pinned }
    {
        let sizes = self.layers.sizes();
        self.close_recording_as(sizes.length == 0, sizes.layers <= 1);
    }

    /// Keeps so many frames of the open layer, or all, and goes on in it.
    fn cut_to(&mut self, cut: Option<u32>)
        requires writing { IsTrue self.old.layers.writing }
        requires cut { IfSome cut (λ n. n ≤ current_length (loop_of self.old).stack.layers) }
        ensures ok { loop_of self.new ≡ closed_multiplying (finished cut (loop_of self.old).stack)
            (loop_of self.old) }
        ensures tape { self.new.layers.tape ≡ self.old.layers.tape }
        ensures writing { self.new.layers.writing ≡ false }
        ensures pinned { self.new.pinned ≡ self.old.pinned }
    {
        self.layers.finish(cut);
        let sizes = self.layers.sizes();
        let pos = rest(self.deck.pos, sizes.length);
        self.deck.close_to(Mode::Playing, pos);
    }

    /// Closes a Multiplying.
    fn close_multiplying(&mut self)
        requires writing { IsTrue self.old.layers.writing }
        requires place { self.old.deck.pos ≤ current_length self.old.layers.stack.layers }
        ensures ok { loop_of self.new ≡ closed_from Multiplying (loop_of self.old) }
        ensures tape { self.new.layers.tape ≡ self.old.layers.tape }
        ensures writing { self.new.layers.writing ≡ false }
        ensures pinned { self.new.pinned ≡ self.old.pinned }
    {
        let sizes = self.layers.sizes();
        let pos = self.deck.pos;
        if sizes.base < pos {
            self.cut_to(Some(pos));
        } else {
            self.cut_to(None);
        }
    }

    /// Closes the open layer in this mode.
    fn close_in(&mut self, mode: Mode)
        requires writing { IsTrue self.old.layers.writing }
        requires place { self.old.deck.pos ≤ current_length self.old.layers.stack.layers }
        ensures ok { loop_of self.new ≡ closed_from mode (loop_of self.old) }
        ensures tape { self.new.layers.tape ≡ self.old.layers.tape }
        ensures writing { self.new.layers.writing ≡ false }
        ensures pinned { self.new.pinned ≡ self.old.pinned }
    {
        match mode {
            Mode::Recording => self.close_recording(),
            Mode::Multiplying => self.close_multiplying(),
            _ => {
                let pos = self.deck.pos;
                self.finish_as(Mode::Playing, pos);
            }
        }
    }

    /// Closes the open layer, whatever else holds.
    #[tactic(auto, using(crate::proofs::Whole::closed_quiet))]
    pub(crate) fn close_now(&mut self)
        requires writing { IsTrue self.old.layers.writing }
        requires place { self.old.deck.pos ≤ current_length self.old.layers.stack.layers }
        ensures ok { loop_of self.new ≡ closed (loop_of self.old) }
        ensures tape { self.new.layers.tape ≡ self.old.layers.tape }
        ensures writing { self.new.layers.writing ≡ false }
        ensures coupled { self.new.layers.writing ≡ is_writing self.new.deck.mode }
        ensures pinned { self.new.pinned ≡ self.old.pinned }
    {
        let mode = self.deck.mode;
        self.close_in(mode);
    }

    /// Closes the open layer.
    #[tactic(auto, using(crate::proofs::Whole::writing_inside))]
    pub(crate) fn close(&mut self)
        requires whole { IsWhole self.old }
        requires writing { is_writing self.old.deck.mode ≡ true }
        ensures ok { loop_of self.new ≡ closed (loop_of self.old) }
        ensures tape { self.new.layers.tape ≡ self.old.layers.tape }
        ensures pinned { self.new.pinned ≡ self.old.pinned }
        ensures whole { IsWhole self.new }
    {
        self.close_now();
    }
}
