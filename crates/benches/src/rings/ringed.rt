//! Numbers through a ring.

ghost use Rattle.std.specs.Prelude.{◌≡◌, ◌≤◌, [], length};
ghost use Rattle.event_rings.specs.Ends.{max_limit};

use event_rings::{Putter, Taker, ring};
use std::alloc::Global;
use std::sync::Wait;
use std::thread;
use std::thread::Threads;

/// Puts the numbers below `count` in order, each until there is room for it.
fn put_all<R: Wait>(rt: &R, mut putter: Putter<u64>, count: u64)
    requires new { putter.sent ≡ [] }
    requires room { putter.limit ≡ max_limit }
    requires few { count ≤ 1000000000 }
{
    let mut next = 0u64;
    for _ in rt.forever() {
        if next >= count {
            return;
        }
        if putter.put(rt, next).is_ok() {
            next = next.saturating_add(1);
        }
    }
}

/// Takes so many numbers, and says whether each was the one due.
fn take_all<R: Wait>(rt: &R, mut taker: Taker<u64>, count: u64) -> bool {
    let mut in_order = true;
    for due in 0..count {
        in_order = in_order && next(rt, &mut taker) == due;
    }
    in_order
}

/// The next number, once it is there.
fn next<R: Wait>(rt: &R, taker: &mut Taker<u64>) -> u64 {
    for _ in rt.forever() {
        if let Some(item) = taker.take(rt) {
            return item;
        }
    }
    unreachable!()
}

/// Puts and takes the numbers below `count` on one thread, one after the other.
pub fn on_one<R: Wait>(rt: &R, alloc: Global, count: u64, capacity: usize) -> Option<bool>
    requires least { 1 ≤ capacity }
    requires most { capacity ≤ 65536 }
    requires few { count ≤ 1000000000 }
{
    let (mut putter, mut taker) = ring::<u64, R>(alloc, rt, capacity).ok()?;
    let mut in_order = true;
    for number in 0..count {
        if putter.put(rt, number).is_err() {
            return Some(false);
        }
        in_order = in_order && taker.take(rt) == Some(number);
    }
    Some(in_order)
}

/// Puts them on one thread and takes them on another.
pub fn on_two<R: Wait + Threads + Sync>(
    rt: &R,
    alloc: Global,
    count: u64,
    capacity: usize,
) -> Option<bool>
    requires least { 1 ≤ capacity }
    requires most { capacity ≤ 65536 }
    requires few { count ≤ 1000000000 }
{
    let (putter, taker) = ring::<u64, R>(alloc, rt, capacity).ok()?;
    let (_, in_order) = thread::join(
        rt,
        || put_all(rt, putter, count),
        || take_all(rt, taker, count),
    );
    Some(in_order)
}
