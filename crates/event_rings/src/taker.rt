//! The end that takes.

ghost use Rattle.std.specs.Prelude.{◌≡◌, ◌≤◌, [], ◌∷◌, ◌++◌, length, IfNone, IfSome};
ghost use Rattle.event_rings.specs.Known.{EachFollows};
ghost use Rattle.event_rings.specs.Ends.{IsEmpty, SameTakeRing, TakesNext};

use crate::known::Known;
use crate::rule::{Line, Take};
use crossbeam_queue::Pass;
use sl_commands::Item;
use std::alloc::Global;
use std::marker::Model;
use std::sync::{Arc, Wait};

/// The end of a ring that takes.
#[derive(Drop)]
pub struct Taker<T: Item> {
    pub(crate) line: Arc<Line<T>, Global>,
    pub(crate) pass: Pass<T, Known<T>>,
    pub(crate) nones: u64,
}

impl<T: Item> Model for Taker<T> {
    ghost use Rattle.std.specs.Prelude.{false};
    ghost use Rattle.std.specs.Arc.{arc_value};
    ghost use Rattle.crossbeam_queue.specs.Passes.{view as seen, IsPassOf};
    ghost use Rattle.event_rings.specs.Known.{IsTaker};
    ghost use Rattle.event_rings.specs.Ends.{TakeEnd};

    ghost Value = { TakeEnd T };

    ghost view = { λ p.
        record {
          name = p.pass.table_id;
          is_still = false;
          taken = (seen p.pass).taken;
          capacity =
              (seen p.pass).capacity;
          limit = (seen p.pass).limit;
          bound = (seen p.pass).bound;
          nones =
              p.nones;
        } };

    ghost invariant = { λ p. IsPassOf (arc_value p.line) p.pass
        × IsTaker T.may_follow (seen p.pass) };
}

impl<T: Item> Taker<T> {
    /// Takes the next item that was sent, or nothing where the ring holds none. No memory is taken.
    pub fn take<R: Wait>(&mut self, wait: &R) -> Option<T>
        ensures ring { SameTakeRing self.old self.new }
        ensures some { IfSome result (λ item. TakesNext T.may_follow item self.old self.new) }
        ensures none { IfNone result (IsEmpty self.old self.new) }
    {
        match self.line.pop_as::<Take, R>(wait, &mut self.pass) {
            Some(item) => Some(item),
            None => {
                self.nones = self.nones.saturating_add(1);
                None
            }
        }
    }

    /// How many takes found the ring empty.
    pub fn nones(&self) -> u64
        ensures { result ≡ self.now.nones }
    {
        self.nones
    }

    /// Each item that was taken may follow those before it, and there are at most as many as the
    /// limit.
    pub fn taken_in_order(&self)
        ensures order { EachFollows T.may_follow self.now.bound [] self.now.taken }
        ensures few { length self.now.taken ≤ self.now.limit }
    {
        let _nones = self.nones;
    }
}
