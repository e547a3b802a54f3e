//! The rule of a ring, and what each kind of step tells the end that takes it.

use crate::known::Known;
use crossbeam_queue::RuledArrayQueue;
use crossbeam_queue::protocol::{Join, Lesson, Outcome, Protocol, Split};
use sl_commands::Item;
use std::alloc::Global;
use std::marker::{Brand, PhantomData};

/// The queue of a ring, under the rule.
pub type Line<T> = RuledArrayQueue<T, Known<T>, InOrder, Global>;

/// The rule: sent is taken followed by held.
pub struct InOrder;

impl<T: Item> Protocol<T, Known<T>> for InOrder {
    ghost use Rattle.std.specs.Prelude.{true, []};
    ghost use Rattle.event_rings.specs.Known.{known};
    ghost use Rattle.event_rings.specs.Rule.{Kept};

    ghost holds = { Kept T.may_follow };

    ghost first = { known true true [] [] 0 0 0 };
}

/// A ring's numbers. The call that makes a ring picks them.
pub trait Numbers {
    ghost use Rattle.std.specs.Prelude.{ℕ};

    ghost capacity: { ℕ };

    ghost limit: { ℕ };

    ghost bound: { ℕ };
}

impl Numbers for Brand {
    ghost capacity = { 0 };

    ghost limit = { 0 };

    ghost bound = { 0 };
}

/// A new ring: its two ends, with its numbers.
pub struct Made<J> {
    of: PhantomData<J>,
}

impl<T: Item, J: Numbers> Split<Known<T>> for Made<J> {
    ghost use Rattle.std.specs.Prelude.{true, false, []};
    ghost use Rattle.event_rings.specs.Known.{known};

    ghost left = { λ v. known true false [] [] J.capacity J.limit J.bound };

    ghost right = { λ v. known false true [] [] J.capacity J.limit J.bound };
}

/// A put: done, one more item is sent; full, what was sent ends with what the queue holds.
pub struct Put;

impl<T: Item> Outcome<T, Known<T>> for Put {
    ghost use Rattle.std.specs.Prelude.{◌≡◌, [], ◌∷◌, ◌++◌};
    ghost use Rattle.event_rings.specs.Known.{known};

    ghost then = { λ v x w. w ≡ known v.puts v.takes (v.sent ++ x ∷ []) v.taken v.capacity v.limit
        v.bound };
}

impl<T: Item> Lesson<T, Known<T>> for Put {
    ghost use Rattle.std.specs.Prelude.{◌≡◌, ◌++◌, List};

    ghost fact = { λ v items. (taken : List T) × (v.sent ≡ taken ++ items) };
}

/// A take: some, one more item is taken, which may follow those before it; none, the queue holds
/// nothing.
pub struct Take;

impl<T: Item> Outcome<T, Known<T>> for Take {
    ghost use Rattle.event_rings.specs.Rule.{Takes};

    ghost then = { Takes T.may_follow };
}

impl<T: Item> Lesson<T, Known<T>> for Take {
    ghost use Rattle.std.specs.Prelude.{◌≡◌, ◌++◌, List};

    ghost fact = { λ v items. (sent : List T) × (sent ≡ v.taken ++ items) };
}

/// The meeting: the two ends in one.
pub struct Meeting;

impl<T: Item> Join<Known<T>> for Meeting {
    ghost use Rattle.std.specs.Prelude.{true, false, []};
    ghost use Rattle.event_rings.specs.Known.{known};

    ghost both = { λ v w. known true true w.sent v.taken v.capacity v.limit v.bound };

    ghost spent = { known false false [] [] 0 0 0 };
}

/// A take after the meeting, which knows both lists.
pub struct Drain;

impl<T: Item> Outcome<T, Known<T>> for Drain {
    ghost use Rattle.event_rings.specs.Rule.{Drains};

    ghost then = { Drains T.may_follow };
}

impl<T: Item> Lesson<T, Known<T>> for Drain {
    ghost use Rattle.event_rings.specs.Rule.{IsRing};

    ghost fact = { λ v items. IsRing T.may_follow v.sent v.taken items v.capacity v.limit v.bound };
}
