//! The two ends of a ring that have met.

ghost use Rattle.std.specs.Prelude.{◌≡◌, IfNone, IfSome};
ghost use Rattle.event_rings.specs.Ends.{Meets, HasRest, SameBothRing, Drained, TakesRest};

use crate::known::Known;
use crate::putter::Putter;
use crate::rule::{Drain, Line, Meeting};
use crate::taker::Taker;
use crossbeam_queue::Pass;
use sl_commands::Item;
use std::alloc::Global;
use std::marker::Model;
use std::sync::{Arc, Wait};

/// The two ends of a ring in one, which knows what was sent and what was taken.
#[derive(Drop)]
pub struct Met<T: Item> {
    line: Arc<Line<T>, Global>,
    pass: Pass<T, Known<T>>,
    fulls: u64,
    nones: u64,
}

impl<T: Item> Model for Met<T> {
    ghost use Rattle.std.specs.Prelude.{false};
    ghost use Rattle.std.specs.Arc.{arc_value};
    ghost use Rattle.crossbeam_queue.specs.Passes.{view as seen, IsPassOf};
    ghost use Rattle.event_rings.specs.Known.{IsBoth};
    ghost use Rattle.event_rings.specs.Ends.{BothEnds};

    ghost Value = { BothEnds T };

    ghost view = { λ p.
        record {
          name = p.pass.table_id;
          is_still = false;
          sent = (seen p.pass).sent;
          taken =
              (seen p.pass).taken;
          capacity = (seen p.pass).capacity;
          limit = (seen p.pass).limit;
          bound =
              (seen p.pass).bound;
          fulls = p.fulls;
          nones = p.nones;
        } };

    ghost invariant = { λ p. IsPassOf (arc_value p.line) p.pass × IsBoth (seen p.pass) };
}

/// Brings the two ends of one ring together, once both activities have given them back.
pub fn meet<T: Item, R: Wait>(wait: &R, putter: Putter<T>, taker: Taker<T>) -> Met<T>
    requires { putter.name ≡ taker.name }
    ensures ends { Meets putter taker result }
    ensures order { HasRest T.may_follow result }
{
    let _ = wait;
    let Putter {
        line: _,
        pass: puts,
        fulls,
    } = putter;
    let Taker {
        line,
        mut pass,
        nones,
    } = taker;
    line.absorb::<Meeting>(&mut pass, puts);
    line.learn_as::<Drain>(&mut pass);
    Met {
        line,
        pass,
        fulls,
        nones,
    }
}

impl<T: Item> Met<T> {
    /// Takes the next item that is left, or nothing where all that was sent is taken. No memory is
    /// taken.
    pub fn drain<R: Wait>(&mut self, wait: &R) -> Option<T>
        ensures ring { SameBothRing self.old self.new }
        ensures some { IfSome result (λ item. TakesRest T.may_follow item self.old self.new) }
        ensures none { IfNone result (Drained self.old self.new) }
    {
        self.line.pop_as::<Drain, R>(wait, &mut self.pass)
    }

    /// How many puts found the ring full.
    pub fn fulls(&self) -> u64
        ensures { result ≡ self.now.fulls }
    {
        self.fulls
    }

    /// How many takes found the ring empty, before the meeting.
    pub fn nones(&self) -> u64
        ensures { result ≡ self.now.nones }
    {
        self.nones
    }
}
