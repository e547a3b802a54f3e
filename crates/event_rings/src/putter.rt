//! The end that puts.

ghost use Rattle.std.specs.Prelude.{◌≡◌, ◌<◌, [], ◌∷◌, ◌++◌, length, OnOk, IfErr};
ghost use Rattle.event_rings.specs.Known.{EachFollows};
ghost use Rattle.event_rings.specs.Ends.{IsFull, SamePutRing};

use crate::known::Known;
use crate::rule::{Line, Put};
use crossbeam_queue::Pass;
use sl_commands::Item;
use std::alloc::Global;
use std::marker::Model;
use std::sync::{Arc, Wait};

/// The end of a ring that puts.
#[derive(Drop)]
pub struct Putter<T: Item> {
    pub(crate) line: Arc<Line<T>, Global>,
    pub(crate) pass: Pass<T, Known<T>>,
    pub(crate) fulls: u64,
}

impl<T: Item> Model for Putter<T> {
    ghost use Rattle.std.specs.Prelude.{false};
    ghost use Rattle.std.specs.Arc.{arc_value};
    ghost use Rattle.crossbeam_queue.specs.Passes.{view as seen, IsPassOf, ruled_capacity};
    ghost use Rattle.event_rings.specs.Known.{IsPutter};
    ghost use Rattle.event_rings.specs.Ends.{PutEnd};

    ghost Value = { PutEnd T };

    ghost view = { λ p.
        record {
          name = p.pass.table_id;
          is_still = false;
          sent = (seen p.pass).sent;
          capacity =
              (seen p.pass).capacity;
          limit = (seen p.pass).limit;
          bound = (seen p.pass).bound;
          fulls =
              p.fulls;
        } };

    ghost invariant = { λ p. IsPassOf (arc_value p.line) p.pass
        × IsPutter T.may_follow (ruled_capacity (arc_value p.line)) (seen p.pass) };
}

/// The item that a full ring hands back.
#[derive(Drop)]
pub struct Full<T: Item> {
    pub item: T,
}

impl<T: Item> Putter<T> {
    /// Puts an item behind those that were sent, or hands it back where the ring is full. No memory
    /// is taken.
    #[tactic(auto, using(crate::proofs::RuleLemmas::many_sent))]
    pub fn put<R: Wait>(&mut self, wait: &R, item: T) -> Result<(), Full<T>>
        requires room { length self.old.sent < self.old.limit }
        requires may { T.may_follow self.old.sent item self.old.bound }
        ensures ring { SamePutRing self.old self.new }
        ensures ok { OnOk result ((self.new.sent ≡ self.old.sent ++ item ∷ [])
            × (self.new.fulls ≡ self.old.fulls)) }
        ensures full { IfErr result (λ f. (f.item ≡ item) × IsFull self.old self.new) }
    {
        match self.line.push_as::<Put, R>(wait, &mut self.pass, item) {
            Ok(()) => Ok(()),
            Err(item) => {
                self.fulls = self.fulls.saturating_add(1);
                Err(Full { item })
            }
        }
    }

    /// How many puts found the ring full.
    pub fn fulls(&self) -> u64
        ensures { result ≡ self.now.fulls }
    {
        self.fulls
    }

    /// Each item that was sent may follow those before it.
    pub fn sent_in_order(&self)
        ensures { EachFollows T.may_follow self.now.bound [] self.now.sent }
    {
        let _fulls = self.fulls;
    }
}
