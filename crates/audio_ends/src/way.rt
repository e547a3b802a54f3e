//! How the calls on rings are made: by whoever has an end of a ring whose other end another has.

use event_rings::{Full, Putter, Taker};
use sl_commands::Item;
use std::sync::Wait;

/// Puts on rings and takes from them.
pub trait Way {
    ghost use Rattle.std.specs.Prelude.{◌≡◌, ◌<◌, ◌∷◌, [], ◌++◌, length, OnOk, IfErr, IfSome, IfNone};
    ghost use Rattle.event_rings.specs.Ends.{SamePutRing, SameTakeRing, IsFull, IsEmpty, TakesNext};

    /// Puts an item behind those that were sent, or hands it back where the ring is full.
    fn put<T: Item>(&self, putter: &mut Putter<T>, item: T) -> Result<(), Full<T>>
        requires room { length putter.old.sent < putter.old.limit }
        requires may { T.may_follow putter.old.sent item putter.old.bound }
        ensures ring { SamePutRing putter.old putter.new }
        ensures ok { OnOk result ((putter.new.sent ≡ putter.old.sent ++ item ∷ [])
            × (putter.new.fulls ≡ putter.old.fulls)) }
        ensures full { IfErr result (λ f. (f.item ≡ item) × IsFull putter.old putter.new) };

    /// Takes the next item that was sent, or nothing where the ring holds none.
    fn take<T: Item>(&self, taker: &mut Taker<T>) -> Option<T>
        ensures ring { SameTakeRing taker.old taker.new }
        ensures some { IfSome result (λ item. TakesNext T.may_follow item taker.old taker.new) }
        ensures none { IfNone result (IsEmpty taker.old taker.new) };
}

/// Calls that may wait for the other end's step.
#[derive(Drop)]
pub struct Waiting<'a, W: Wait> {
    pub wait: &'a W,
}

impl<'a, W: Wait> Way for Waiting<'a, W> {
    fn put<T: Item>(&self, putter: &mut Putter<T>, item: T) -> Result<(), Full<T>> {
        putter.put(self.wait, item)
    }

    fn take<T: Item>(&self, taker: &mut Taker<T>) -> Option<T> {
        taker.take(self.wait)
    }
}
