//! Openings.

ghost use Rattle.std.specs.Prelude.{◌≡◌, ◌≤◌, ◌<◌, ◌+◌, length, true, false, IsFalse};
ghost use Rattle.sl_commands.specs.declared.Started.TheVariants.{Ok as Opened};
ghost use Rattle.looper_rules.specs.Opening.{opening, opened, opening_tape};
ghost use Rattle.loop_tape.specs.Tapes.{Owns, Cut};
ghost use Rattle.layer_memory.specs.Seen.{seen, reach};
ghost use Rattle.layer_memory.specs.Answers.{Leaves, IsOpening, OnOpen};

use crate::layers::{Layers, Top};
use loop_tape::Pool;
use sl_base::{MAX_LAYERS, MAX_SEAMS};
use sl_commands::Started;

impl Layers {
    /// What an opening answers.
    #[tactic(auto, using(crate::proofs::KeptLemmas::steps))]
    fn answer(&self, pool: &Pool, empty: bool) -> Started
        requires closed { IsFalse self.now.writing }
        ensures answer { result ≡ opening (reach self.now pool.now) empty self.now.stack }
        ensures opens { OnOpen result (IsOpening empty self.now.stack) }
    {
        self.closed.facts();
        let more = if empty { 0 } else { self.closed.seams() };
        if self.closed.counts().0 >= MAX_LAYERS {
            return Started::Layers;
        }
        if self.seams + more > MAX_SEAMS - 2 {
            return Started::Seams;
        }
        let tape = self.opening_tape();
        if self.room_at(pool, tape) {
            Started::Ok
        } else {
            Started::Room
        }
    }

    /// Opens an empty layer.
    #[tactic(auto, using(crate::proofs::OpeningLemmas::begins))]
    fn begin_empty(&mut self, pool: &mut Pool)
        requires closed { IsFalse self.old.writing }
        requires owns { Owns self.old.tape pool.old }
        requires opens { IsOpening true self.old.stack }
        ensures stack { self.new.stack ≡ opened true self.old.stack }
        ensures writing { self.new.writing ≡ true }
        ensures cut { Cut self.old.tape self.new.tape pool.old pool.new }
    {
        self.closed.facts();
        let end = self.opening_tape();
        self.closed.drop_redo();
        self.tape.cut_to(pool, end);
        self.fill.start_empty(end);
        self.top = Some(Top {
            over: false,
            cycle: 0,
            end,
        });
    }

    /// Opens a copy of the current layer.
    #[tactic(auto, using(crate::proofs::OpeningLemmas::begins))]
    fn begin_over(&mut self, pool: &mut Pool)
        requires closed { IsFalse self.old.writing }
        requires below { 0 < length self.old.stack.layers }
        requires owns { Owns self.old.tape pool.old }
        requires opens { IsOpening false self.old.stack }
        ensures stack { self.new.stack ≡ opened false self.old.stack }
        ensures writing { self.new.writing ≡ true }
        ensures cut { Cut self.old.tape self.new.tape pool.old pool.new }
    {
        self.closed.facts();
        let at = self.opening_tape();
        self.closed.drop_redo();
        self.tape.cut_to(pool, at);
        let seams = self.closed.seams();
        self.fill.start(self.closed.current(), seams, at);
        self.top = Some(Top {
            over: true,
            cycle: self.closed.cycle(),
            end: at,
        });
        self.seams += seams;
    }

    /// Opens a layer that may be opened.
    fn begin(&mut self, pool: &mut Pool, empty: bool)
        requires closed { IsFalse self.old.writing }
        requires below { IsFalse empty → 0 < length self.old.stack.layers }
        requires owns { Owns self.old.tape pool.old }
        requires opens { IsOpening empty self.old.stack }
        ensures stack { self.new.stack ≡ opened empty self.old.stack }
        ensures writing { self.new.writing ≡ true }
        ensures cut { Cut self.old.tape self.new.tape pool.old pool.new }
    {
        if empty {
            self.begin_empty(pool);
            return;
        }
        self.begin_over(pool);
    }

    /// Opens a layer, an empty one or a copy of the current one. No layer may be open, and for a
    /// copy there has to be one. It is refused where there are too many layers or seams, or where
    /// the tape has no room, and then nothing changes.
    #[tactic(auto, using(crate::proofs::OpeningLemmas::starts))]
    pub fn start_layer(&mut self, pool: &mut Pool, empty: bool) -> Started
        requires closed { IsFalse self.old.writing }
        requires below { IsFalse empty → 0 < length self.old.stack.layers }
        requires owns { Owns self.old.tape pool.old }
        ensures answer { result ≡ opening (reach self.old pool.old) empty (seen self.old pool.old) }
        ensures after { Leaves empty self.old self.new pool.old pool.new result }
    {
        match self.answer(pool, empty) {
            Started::Ok => {
                self.begin(pool, empty);
                self.facts();
                Started::Ok
            }
            Started::Layers => Started::Layers,
            Started::Seams => Started::Seams,
            Started::Room => Started::Room,
        }
    }
}
