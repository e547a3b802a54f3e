//! Verbs and presses.

ghost use Rattle.std.specs.Prelude.{◌≡◌, ℕ, ◌≤◌, ◌<◌, ◌==◌, ◌||◌, ◌&&◌, ◌-◌, true, false, not, length, drop};
ghost use Rattle.std.specs.declared.option.Option.TheVariants.{Some, None};
ghost use Rattle.looper_rules.specs.Loop.{face_of};
ghost use Rattle.looper_rules.specs.Verbs.{acts, is_mode_of};
ghost use Rattle.looper_rules.specs.Presses.{never_waits, with_waiting, with_press, given, given_at_once, pressed, released, released_long, is_press_of, is_long, waiting_acts, waiting_acts_from};
ghost use Rattle.loop_states.specs.Moves.{carry};
ghost use Rattle.loop_strip.specs.Strips.{Owns, Did, reach_in, gives, gives_by};
ghost use Rattle.loop_strip.specs.Parts.{loop_of, strip_of, IsWhole};
ghost use Rattle.loop_strip.specs.Moving.{IsAllowed};
ghost use Rattle.loop_strip.specs.Openings.{released_as};

use crate::given::{Given, Press};
use crate::parts::Parts;
use loop_states::{Move, decide};
use loop_tape::Pool;
use sl_commands::{Held, Verb};

/// The verb never waits.
fn never_waits(verb: Verb) -> bool
    ensures { result ≡ never_waits verb }
{
    match verb {
        Verb::Undo => true,
        Verb::Redo => true,
        Verb::UndoAll => true,
        Verb::RedoAll => true,
        Verb::MuteOn => true,
        Verb::MuteOff => true,
        Verb::Pause => true,
        _ => false,
    }
}

/// The press is of this verb.
fn is_press_of(verb: Verb, press: Option<Held>) -> bool
    ensures { result ≡ is_press_of verb press }
{
    match press {
        None => false,
        Some(held) => held.verb.number() == verb.number(),
    }
}

/// The press is at least so many frames old.
fn is_long(frame: u64, long_press: u32, press: Option<Held>) -> bool
    ensures { result ≡ is_long frame long_press press }
{
    match press {
        None => false,
        Some(held) => frame.saturating_sub(held.frame) >= long_press as u64,
    }
}

impl Parts {
    /// A move carried out.
    fn carry(&mut self, pool: &mut Pool, next: Move)
        requires whole { IsWhole self.old }
        requires owns { Owns (strip_of self.old) pool.old }
        requires allowed { IsAllowed next (loop_of self.old) }
        ensures ok { loop_of self.new ≡ carry (reach_in (strip_of self.old) pool.old) next
            (loop_of self.old) }
        ensures did { Did (λ reach. carry reach next) (strip_of self.old) (strip_of self.new)
            pool.old pool.new }
        ensures whole { IsWhole self.new }
    {
        match next {
            Move::Begin(verb) => self.begin(pool, verb),
            _ => {
                self.move_alone(next);
                self.layers.facts();
            }
        }
    }

    /// A verb acts.
    #[tactic(auto, using(crate::proofs::ActLemmas::acting))]
    pub(crate) fn act(&mut self, pool: &mut Pool, verb: Verb)
        requires whole { IsWhole self.old }
        requires owns { Owns (strip_of self.old) pool.old }
        ensures did { Did (acts verb) (strip_of self.old) (strip_of self.new) pool.old pool.new }
        ensures whole { IsWhole self.new }
    {
        let face = self.face();
        let act = decide(&face, self.controls.round != 0, verb);
        for i in 0..act.len() {
            let next = act.at(i);
            self.carry(pool, next);
        }
    }

    /// Another verb waits, or none.
    #[tactic(auto, using(crate::proofs::ActLemmas::decking))]
    fn wait_for(&mut self, pool: &Pool, verb: Option<Verb>)
        requires whole { IsWhole self.old }
        requires owns { Owns (strip_of self.old) pool.now }
        ensures did { Did (λ reach. with_waiting verb) (strip_of self.old) (strip_of self.new)
            pool.now pool.now }
        ensures whole { IsWhole self.new }
    {
        self.layers.facts();
        self.deck.waiting = verb;
    }

    /// Another press is remembered, or none.
    #[tactic(auto, using(crate::proofs::ActLemmas::decking))]
    fn hold(&mut self, pool: &Pool, press: Option<Held>)
        requires whole { IsWhole self.old }
        requires owns { Owns (strip_of self.old) pool.now }
        ensures did { Did (λ reach. with_press press) (strip_of self.old) (strip_of self.new)
            pool.now pool.now }
        ensures whole { IsWhole self.new }
    {
        self.layers.facts();
        self.deck.press = press;
    }

    /// A verb acts at once.
    fn acts_at_once(&self, verb: Verb) -> bool
        ensures { result ≡ (self.now.controls.quantize == 0 || never_waits verb) }
    {
        self.controls.quantize == 0 || never_waits(verb)
    }

    /// A verb given, to act at once or to wait.
    fn give_as(&mut self, pool: &mut Pool, now: bool, verb: Verb)
        requires whole { IsWhole self.old }
        requires owns { Owns (strip_of self.old) pool.old }
        ensures did { Did (given_at_once now verb) (strip_of self.old) (strip_of self.new) pool.old
            pool.new }
        ensures whole { IsWhole self.new }
    {
        if now {
            self.act(pool, verb);
        } else {
            self.wait_for(pool, Some(verb));
        }
    }

    /// A verb given.
    fn give_verb(&mut self, pool: &mut Pool, verb: Verb)
        requires whole { IsWhole self.old }
        requires owns { Owns (strip_of self.old) pool.old }
        ensures did { Did (given verb) (strip_of self.old) (strip_of self.new) pool.old pool.new }
        ensures whole { IsWhole self.new }
    {
        let now = self.acts_at_once(verb);
        self.give_as(pool, now, verb);
    }

    /// A verb pressed.
    fn press(&mut self, pool: &mut Pool, verb: Verb, frame: u64)
        requires whole { IsWhole self.old }
        requires owns { Owns (strip_of self.old) pool.old }
        ensures did { Did (pressed verb frame) (strip_of self.old) (strip_of self.new) pool.old
            pool.new }
        ensures whole { IsWhole self.new }
    {
        self.give_verb(pool, verb);
        self.hold(pool, Some(Held { verb, frame }));
    }

    /// A press ends, by whether it was long and the mode is the verb's.
    fn end_press(&mut self, pool: &mut Pool, long: bool, verb: Verb)
        requires whole { IsWhole self.old }
        requires owns { Owns (strip_of self.old) pool.old }
        ensures did { Did (released_long long verb) (strip_of self.old) (strip_of self.new) pool.old
            pool.new }
        ensures whole { IsWhole self.new }
    {
        self.hold(pool, None);
        if long {
            self.give_verb(pool, verb);
        }
    }

    /// The press was long, and the mode is that of the verb.
    fn was_long(&self, verb: Verb, frame: u64, long_press: u32) -> bool
        ensures { result ≡ (is_long frame long_press self.now.deck.press
            && is_mode_of verb self.now.deck.mode) }
    {
        is_long(frame, long_press, self.deck.press) && self.deck.mode.is_of(verb)
    }

    /// A verb let go, by whether the press is of this verb.
    fn release_as(&mut self, pool: &mut Pool, held: bool, long: bool, verb: Verb)
        requires whole { IsWhole self.old }
        requires owns { Owns (strip_of self.old) pool.old }
        ensures did { Did (released_as held long verb) (strip_of self.old) (strip_of self.new)
            pool.old pool.new }
        ensures whole { IsWhole self.new }
    {
        if held {
            self.end_press(pool, long, verb);
        }
    }

    /// A verb let go.
    fn release(&mut self, pool: &mut Pool, verb: Verb, frame: u64, long_press: u32)
        requires whole { IsWhole self.old }
        requires owns { Owns (strip_of self.old) pool.old }
        ensures did { Did (released verb frame long_press) (strip_of self.old) (strip_of self.new)
            pool.old pool.new }
        ensures whole { IsWhole self.new }
    {
        let held = is_press_of(verb, self.deck.press);
        let long = self.was_long(verb, frame, long_press);
        self.release_as(pool, held, long, verb);
    }

    /// A verb given in this way.
    fn give_by(&mut self, pool: &mut Pool, press: Press, given: Given)
        requires whole { IsWhole self.old }
        requires owns { Owns (strip_of self.old) pool.old }
        ensures did { Did (gives_by press given.verb given.frame given.long_press)
            (strip_of self.old) (strip_of self.new) pool.old pool.new }
        ensures whole { IsWhole self.new }
    {
        match press {
            Press::Down => self.press(pool, given.verb, given.frame),
            Press::Up => self.release(pool, given.verb, given.frame, given.long_press),
            Press::Hit => self.give_verb(pool, given.verb),
        }
    }

    /// A verb given.
    pub(crate) fn give(&mut self, pool: &mut Pool, given: Given)
        requires whole { IsWhole self.old }
        requires owns { Owns (strip_of self.old) pool.old }
        ensures did { Did (gives given) (strip_of self.old) (strip_of self.new) pool.old pool.new }
        ensures whole { IsWhole self.new }
    {
        self.give_by(pool, given.press, given);
    }

    /// The waiting verb acts, where there is one.
    fn act_waiting(&mut self, pool: &mut Pool, waiting: Option<Verb>)
        requires whole { IsWhole self.old }
        requires owns { Owns (strip_of self.old) pool.old }
        ensures did { Did (waiting_acts_from waiting) (strip_of self.old) (strip_of self.new)
            pool.old pool.new }
        ensures whole { IsWhole self.new }
    {
        match waiting {
            None => {}
            Some(verb) => {
                self.wait_for(pool, None);
                self.act(pool, verb);
            }
        }
    }

    /// The waiting verb acts.
    pub(crate) fn boundary_act(&mut self, pool: &mut Pool)
        requires whole { IsWhole self.old }
        requires owns { Owns (strip_of self.old) pool.old }
        ensures did { Did waiting_acts (strip_of self.old) (strip_of self.new) pool.old pool.new }
        ensures whole { IsWhole self.new }
    {
        let waiting = self.deck.waiting;
        self.act_waiting(pool, waiting);
    }
}
