//! Moves carried out, one after another.

ghost use Rattle.std.specs.Prelude.{◌≡◌, ℕ, ◌≤◌, ◌<◌, ◌==◌, true, false, not, length, drop, IsTrue};
ghost use Rattle.sl_commands.specs.declared.Mode.TheVariants.{WaitStart};
ghost use Rattle.looper_rules.specs.Stack.{streak_broken};
ghost use Rattle.looper_rules.specs.Loop.{is_writing, in_mode, turned, rounds, with_stack, refused_once};
ghost use Rattle.looper_rules.specs.Opening.{opening};
ghost use Rattle.looper_rules.specs.Starting.{leaves_wait, starts_record, starts, records, layers_on};
ghost use Rattle.looper_rules.specs.Reached.{IsLayering};
ghost use Rattle.looper_rules.specs.Verbs.{acts};
ghost use Rattle.loop_states.specs.Moves.{to_start, begins, carry};
ghost use Rattle.loop_tape.specs.Pools.{PoolOf};
ghost use Rattle.loop_strip.specs.Strips.{Owns, Did, reach_in};
ghost use Rattle.loop_strip.specs.Parts.{loop_of, strip_of, IsWhole};
ghost use Rattle.loop_strip.specs.Moving.{IsAllowed, IsAtRest, MayTurn, MayStart, IsAlone};

use crate::parts::Parts;
use loop_states::{Move, decide};
use loop_tape::Pool;
use sl_base::MAX_VALUE;
use sl_commands::{Mode, Started, Verb};

impl Parts {
    /// One refusal more.
    #[tactic(auto, using(crate::proofs::MoveLemmas::whole_refused))]
    pub(crate) fn refuse(&mut self)
        requires whole { IsWhole self.old }
        ensures ok { loop_of self.new ≡ refused_once (loop_of self.old) }
        ensures layers { self.new.layers ≡ self.old.layers }
        ensures pinned { self.new.pinned ≡ self.old.pinned }
        ensures whole { IsWhole self.new }
    {
        if self.refused < MAX_VALUE {
            self.refused += 1;
        }
    }

    /// Leaves WaitStart.
    #[tactic(auto, using(crate::proofs::MoveLemmas::whole_left))]
    pub(crate) fn leave_wait(&mut self)
        requires whole { IsWhole self.old }
        requires waits { self.old.deck.mode ≡ WaitStart }
        ensures ok { loop_of self.new ≡ leaves_wait (loop_of self.old) }
        ensures tape { self.new.layers.tape ≡ self.old.layers.tape }
        ensures whole { IsWhole self.new }
    {
        let sizes = self.layers.sizes();
        if sizes.layers == 0 {
            self.deck.mode = Mode::Off;
        } else {
            self.deck.mode = Mode::Playing;
        }
    }

    /// Goes on to the stop.
    #[tactic(auto, using(crate::proofs::MoveLemmas::whole_rounds))]
    fn round(&mut self)
        requires whole { IsWhole self.old }
        ensures ok { loop_of self.new ≡ rounds (loop_of self.old) }
        ensures tape { self.new.layers.tape ≡ self.old.layers.tape }
        ensures whole { IsWhole self.new }
    {
        self.deck.rounding = true;
    }

    /// Another mode alone.
    #[tactic(auto, using(crate::proofs::MoveLemmas::whole_in_mode))]
    fn set_mode(&mut self, mode: Mode)
        requires whole { IsWhole self.old }
        requires rests { IsAtRest self.old.deck.mode }
        requires rests_then { IsAtRest mode }
        ensures ok { loop_of self.new ≡ in_mode mode (loop_of self.old) }
        ensures tape { self.new.layers.tape ≡ self.old.layers.tape }
        ensures whole { IsWhole self.new }
    {
        self.deck.mode = mode;
    }

    /// Goes to the start of the list.
    #[tactic(auto, using(crate::proofs::MoveLemmas::whole_started))]
    fn go_to_start(&mut self)
        requires whole { IsWhole self.old }
        requires rests { IsAtRest self.old.deck.mode }
        ensures ok { loop_of self.new ≡ to_start (loop_of self.old) }
        ensures tape { self.new.layers.tape ≡ self.old.layers.tape }
        ensures whole { IsWhole self.new }
    {
        let sizes = self.layers.sizes();
        if self.deck.backward {
            self.deck.pos = sizes.length.saturating_sub(1);
        } else {
            self.deck.pos = 0;
        }
    }

    /// The other direction.
    #[tactic(auto, using(crate::proofs::MoveLemmas::whole_turned))]
    fn turn(&mut self)
        requires whole { IsWhole self.old }
        requires turns { MayTurn self.old.deck.mode self.old.layers.stack.streak }
        ensures ok { loop_of self.new ≡ turned (loop_of self.old) }
        ensures tape { self.new.layers.tape ≡ self.old.layers.tape }
        ensures whole { IsWhole self.new }
    {
        self.deck.backward = !self.deck.backward;
    }

    /// No streak goes on.
    #[tactic(auto, using(crate::proofs::MoveLemmas::whole_broken))]
    fn break_streak(&mut self)
        requires whole { IsWhole self.old }
        requires writing { is_writing self.old.deck.mode ≡ true }
        ensures ok { loop_of self.new ≡ with_stack (streak_broken (loop_of self.old).stack)
            (loop_of self.old) }
        ensures tape { self.new.layers.tape ≡ self.old.layers.tape }
        ensures whole { IsWhole self.new }
    {
        self.layers.break_streak();
    }

    /// A move that opens no layer.
    pub(crate) fn move_alone(&mut self, next: Move)
        requires whole { IsWhole self.old }
        requires allowed { IsAllowed next (loop_of self.old) }
        requires alone { IsAlone next }
        ensures ok { (reach : ℕ) → loop_of self.new ≡ carry reach next (loop_of self.old) }
        ensures tape { self.new.layers.tape ≡ self.old.layers.tape }
        ensures whole { IsWhole self.new }
    {
        match next {
            Move::LeaveWait => self.leave_wait(),
            Move::Close => self.close(),
            Move::Begin(_) => {}
            Move::Round => self.round(),
            Move::SetMode(mode) => self.set_mode(mode),
            Move::ToStart => self.go_to_start(),
            Move::Turn => self.turn(),
            Move::BreakStreak => self.break_streak(),
            Move::Undo => self.undo(),
            Move::Redo => self.redo(),
            Move::UndoAll => self.undo_all(),
            Move::RedoAll => self.redo_all(),
        }
    }
}
