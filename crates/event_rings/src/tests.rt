//! What no clause says: that a ring holds as many items as its capacity, that takes give what was
//! put, with ample memory and on two threads.

ghost use Rattle.std.specs.Prelude.{◌≡◌, ◌+◌, ◌≤◌, [], length};
ghost use Rattle.event_rings.specs.Ends.{max_limit};

use crate::{Full, Met, Putter, Taker, meet, ring};
use sl_base::Memory;
use std::alloc::Global;
use std::sync::Wait;
use std::thread;

fn fill(rt: &impl Wait, putter: &mut Putter<u64>, count: u64) -> u64
    requires { length putter.old.sent + count ≤ putter.old.limit }
    ensures { putter.new.name ≡ putter.old.name }
{
    for item in 0..count {
        if let Err(Full { item }) = putter.put(rt, item) {
            return item;
        }
    }
    count
}

#[test]
fn a_ring_of_256_hands_the_257th_item_back(rt: HostRuntime) {
    let made: Result<(Putter<u64>, Taker<u64>), Memory> = ring(rt.alloc(), &rt, 256);
    let (mut putter, mut taker) = made.expect(&rt, "memory is ample");
    let handed_back = fill(&rt, &mut putter, 257);
    assert_eq!(rt; handed_back, 256);
    assert_eq!(rt; putter.fulls(), 1);
    for due in 0..256u64 {
        let taken = taker.take(&rt);
        assert!(rt; taken == Some(due));
    }
    let none = taker.take(&rt);
    assert!(rt; none.is_none());
    assert_eq!(rt; taker.nones(), 1);
}

fn left(rt: &impl Wait, met: &mut Met<u64>) -> u64 {
    let mut count = 0u64;
    for _ in 0..10 {
        if met.drain(rt).is_some() {
            count = count.saturating_add(1);
        }
    }
    count
}

#[test]
fn ends_that_meet_drain_what_is_left(rt: HostRuntime) {
    let made: Result<(Putter<u64>, Taker<u64>), Memory> = ring(rt.alloc(), &rt, 8);
    let (mut putter, mut taker) = made.expect(&rt, "memory is ample");
    let all = fill(&rt, &mut putter, 5);
    assert_eq!(rt; all, 5);
    let first = taker.take(&rt);
    assert!(rt; first == Some(0));
    let mut met = meet(&rt, putter, taker);
    assert!(rt; met.fulls() == 0 && met.nones() == 0);
    let count = left(&rt, &mut met);
    assert_eq!(rt; count, 4);
}

const PASSED: u64 = 100000;

/// Puts all numbers below `PASSED` in order, each until there is room for it.
fn put_all(rt: &impl Wait, mut putter: Putter<u64>) -> Putter<u64>
    requires new { putter.sent ≡ [] }
    requires room { putter.limit ≡ max_limit }
    ensures { result.name ≡ putter.name }
{
    let mut next = 0u64;
    for _ in rt.forever() {
        if next == PASSED {
            return putter;
        }
        match putter.put(rt, next) {
            Ok(()) => next = next.saturating_add(1),
            Err(_) => thread::yield_now(),
        }
    }
    unreachable!()
}

/// Takes them all, and says whether each was the one due.
fn take_all(rt: &impl Wait, mut taker: Taker<u64>) -> (Taker<u64>, bool)
    ensures { result.0.name ≡ taker.name }
{
    let mut due = 0u64;
    let mut in_order = true;
    for _ in rt.forever() {
        if due == PASSED {
            return (taker, in_order);
        }
        match taker.take(rt) {
            Some(item) => {
                in_order = in_order && item == due;
                due = due.saturating_add(1);
            }
            None => thread::yield_now(),
        }
    }
    unreachable!()
}

#[test]
fn two_threads_pass_items_in_order_and_meet(rt: HostRuntime) {
    let made: Result<(Putter<u64>, Taker<u64>), Memory> = ring(rt.alloc(), &rt, 64);
    let (putter, taker) = made.expect(&rt, "memory is ample");
    let (putter, taken) = thread::join(&rt, || put_all(&rt, putter), || take_all(&rt, taker));
    let (taker, in_order) = taken;
    assert!(rt; in_order);
    let mut met = meet(&rt, putter, taker);
    let none = met.drain(&rt);
    assert!(rt; none.is_none());
}
