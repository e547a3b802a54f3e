//! Opening a layer for a verb.

ghost use Rattle.std.specs.Prelude.{◌≡◌, ℕ, ◌≤◌, ◌<◌, true, false, length};
ghost use Rattle.sl_commands.specs.declared.Mode.TheVariants.{WaitStart};
ghost use Rattle.looper_rules.specs.Loop.{is_writing};
ghost use Rattle.looper_rules.specs.Opening.{opening};
ghost use Rattle.looper_rules.specs.Starting.{starts_record, starts, records};
ghost use Rattle.looper_rules.specs.Reached.{IsLayering};
ghost use Rattle.loop_states.specs.Moves.{begins};
ghost use Rattle.loop_strip.specs.Strips.{Owns, Did, reach_in};
ghost use Rattle.loop_strip.specs.Parts.{loop_of, strip_of, IsWhole};
ghost use Rattle.loop_strip.specs.Moving.{IsAtRest, MayStart};
ghost use Rattle.loop_strip.specs.Openings.{opens_record};

use crate::parts::Parts;
use loop_tape::Pool;
use sl_commands::{Mode, Started, Verb};

impl Parts {
    /// Opens an empty layer for `record`, or counts the refusal.
    pub(crate) fn open_record(&mut self, pool: &mut Pool)
        requires whole { IsWhole self.old }
        requires owns { Owns (strip_of self.old) pool.old }
        requires closed { is_writing self.old.deck.mode ≡ false }
        ensures ok { loop_of self.new ≡ opens_record (reach_in (strip_of self.old) pool.old)
            (loop_of self.old) }
        ensures did { Did opens_record (strip_of self.old) (strip_of self.new) pool.old pool.new }
        ensures whole { IsWhole self.new }
    {
        match self.layers.start_layer(pool, true) {
            Started::Ok => {
                self.layers.facts();
                self.deck.mode = Mode::Recording;
                self.deck.pos = 0;
                self.deck.backward = false;
            }
            Started::Layers => self.refuse(),
            Started::Seams => self.refuse(),
            Started::Room => self.refuse(),
        }
    }

    /// Opens a copy of the list for the writing verb of this mode, or counts the refusal.
    fn open_layer(&mut self, pool: &mut Pool, mode: Mode)
        requires whole { IsWhole self.old }
        requires owns { Owns (strip_of self.old) pool.old }
        requires rests { IsAtRest self.old.deck.mode }
        requires way { IsLayering mode self.old.deck.backward }
        ensures ok { loop_of self.new ≡ starts mode (reach_in (strip_of self.old) pool.old)
            (loop_of self.old) }
        ensures did { Did (starts mode) (strip_of self.old) (strip_of self.new) pool.old pool.new }
        ensures whole { IsWhole self.new }
    {
        match self.layers.start_layer(pool, false) {
            Started::Ok => {
                self.layers.facts();
                self.deck.mode = mode;
            }
            Started::Layers => self.refuse(),
            Started::Seams => self.refuse(),
            Started::Room => self.refuse(),
        }
    }

    /// Starts `record`.
    fn begin_record(&mut self, pool: &mut Pool)
        requires whole { IsWhole self.old }
        requires owns { Owns (strip_of self.old) pool.old }
        requires closed { is_writing self.old.deck.mode ≡ false }
        requires awake { self.old.deck.mode ≡ WaitStart → ⊥ }
        ensures ok { loop_of self.new ≡ starts_record (reach_in (strip_of self.old) pool.old)
            (loop_of self.old) }
        ensures did { Did starts_record (strip_of self.old) (strip_of self.new) pool.old pool.new }
        ensures whole { IsWhole self.new }
    {
        if self.controls.rec_thresh > 0 {
            self.layers.facts();
            self.deck.mode = Mode::WaitStart;
            return;
        }
        self.open_record(pool);
    }

    /// Starts a writing verb.
    pub(crate) fn begin(&mut self, pool: &mut Pool, verb: Verb)
        requires whole { IsWhole self.old }
        requires owns { Owns (strip_of self.old) pool.old }
        requires starts { MayStart verb self.old.deck.mode self.old.deck.backward }
        ensures ok { loop_of self.new ≡ begins verb (reach_in (strip_of self.old) pool.old)
            (loop_of self.old) }
        ensures did { Did (begins verb) (strip_of self.old) (strip_of self.new) pool.old pool.new }
        ensures whole { IsWhole self.new }
    {
        match verb {
            Verb::Rec => self.begin_record(pool),
            Verb::Overdub => self.open_layer(pool, Mode::Overdubbing),
            Verb::Multiply => self.open_layer(pool, Mode::Multiplying),
            Verb::Insert => self.open_layer(pool, Mode::Inserting),
            Verb::Replace => self.open_layer(pool, Mode::Replacing),
            Verb::Substitute => self.open_layer(pool, Mode::Substituting),
            _ => {}
        }
    }
}
