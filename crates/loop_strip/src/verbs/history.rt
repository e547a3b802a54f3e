//! Undo and redo.

ghost use Rattle.std.specs.Prelude.{◌≡◌, ◌≤◌, ◌<◌, ◌==◌, ℕ, true, false, length, drop};
ghost use Rattle.looper_rules.specs.Loop.{is_writing, with_stack};
ghost use Rattle.looper_rules.specs.History.{undone, settled, closed_if, with_fewer, stepped_back, undo, undo_all, undo_each, redone, with_more, redo_from, redo, redo_all, redo_each};
ghost use Rattle.loop_strip.specs.Parts.{loop_of, IsWhole};

use crate::deck::rest;
use crate::parts::Parts;
use sl_commands::Mode;

impl Parts {
    /// Closes an open layer.
    fn settle(&mut self)
        requires whole { IsWhole self.old }
        ensures ok { loop_of self.new ≡ settled (loop_of self.old) }
        ensures tape { self.new.layers.tape ≡ self.old.layers.tape }
        ensures closed { self.new.layers.writing ≡ false }
        ensures whole { IsWhole self.new }
    {
        if self.deck.mode.is_writing() {
            self.close();
        }
    }

    /// Goes into the list that is left, or to Off.
    fn fit(&mut self)
        ensures ok { loop_of self.new ≡ with_fewer (loop_of self.old).stack.layers
            (loop_of self.old) }
        ensures layers { self.new.layers ≡ self.old.layers }
        ensures pinned { self.new.pinned ≡ self.old.pinned }
    {
        let sizes = self.layers.sizes();
        if sizes.layers == 0 {
            self.deck.mode = Mode::Off;
            self.deck.pos = 0;
            return;
        }
        self.deck.pos = rest(self.deck.pos, sizes.length);
    }

    /// Moves the current layer to redo.
    fn step_back(&mut self)
        requires closed { self.old.layers.writing ≡ false }
        ensures ok { loop_of self.new ≡ stepped_back (loop_of self.old) }
        ensures tape { self.new.layers.tape ≡ self.old.layers.tape }
        ensures closed { self.new.layers.writing ≡ false }
        ensures pinned { self.new.pinned ≡ self.old.pinned }
    {
        self.layers.undo();
        self.fit();
    }

    /// Undo.
    #[tactic(auto, using(crate::proofs::Whole::histories))]
    pub(crate) fn undo(&mut self)
        requires whole { IsWhole self.old }
        ensures ok { loop_of self.new ≡ undo (loop_of self.old) }
        ensures tape { self.new.layers.tape ≡ self.old.layers.tape }
        ensures whole { IsWhole self.new }
    {
        self.settle();
        self.step_back();
    }

    /// Undo until no layer is left.
    #[tactic(auto, using(crate::proofs::Whole::histories))]
    pub(crate) fn undo_all(&mut self)
        requires whole { IsWhole self.old }
        ensures ok { loop_of self.new ≡ undo_all (loop_of self.old) }
        ensures tape { self.new.layers.tape ≡ self.old.layers.tape }
        ensures whole { IsWhole self.new }
    {
        let sizes = self.layers.sizes();
        for i in 0..sizes.layers {
            self.undo();
        }
    }

    /// Goes into the list that came back.
    fn come_back(&mut self, mode: Mode)
        requires is { self.old.deck.mode ≡ mode }
        ensures ok { loop_of self.new ≡ with_more mode (loop_of self.old) }
        ensures layers { self.new.layers ≡ self.old.layers }
        ensures pinned { self.new.pinned ≡ self.old.pinned }
    {
        match mode {
            Mode::Off => {
                self.deck.mode = Mode::Playing;
                self.deck.pos = 0;
            }
            _ => {
                let sizes = self.layers.sizes();
                self.deck.pos = rest(self.deck.pos, sizes.length);
            }
        }
    }

    /// Moves the next redo layer back.
    fn step_on(&mut self)
        requires closed { self.old.layers.writing ≡ false }
        ensures ok { loop_of self.new ≡ with_more self.old.deck.mode
            (with_stack (redone (loop_of self.old).stack) (loop_of self.old)) }
        ensures tape { self.new.layers.tape ≡ self.old.layers.tape }
        ensures closed { self.new.layers.writing ≡ false }
        ensures pinned { self.new.pinned ≡ self.old.pinned }
    {
        self.layers.redo();
        let mode = self.deck.mode;
        self.come_back(mode);
    }

    /// Redo.
    #[tactic(auto, using(crate::proofs::Whole::histories))]
    pub(crate) fn redo(&mut self)
        requires whole { IsWhole self.old }
        ensures ok { loop_of self.new ≡ redo (loop_of self.old) }
        ensures tape { self.new.layers.tape ≡ self.old.layers.tape }
        ensures whole { IsWhole self.new }
    {
        let sizes = self.layers.sizes();
        if sizes.redo > 0 {
            self.step_on();
        }
    }

    /// Redo until no redo layer is left.
    #[tactic(auto, using(crate::proofs::Whole::histories))]
    pub(crate) fn redo_all(&mut self)
        requires whole { IsWhole self.old }
        ensures ok { loop_of self.new ≡ redo_all (loop_of self.old) }
        ensures tape { self.new.layers.tape ≡ self.old.layers.tape }
        ensures whole { IsWhole self.new }
    {
        let sizes = self.layers.sizes();
        for i in 0..sizes.redo {
            self.redo();
        }
    }
}
