//! The same numbers through the queue alone.

ghost use Rattle.std.specs.Prelude.{◌≤◌};

use crossbeam_queue::ArrayQueue;
use std::alloc::Global;
use std::sync::Wait;
use std::thread;
use std::thread::Threads;

fn put_all<R: Wait>(rt: &R, queue: &ArrayQueue<u64>, count: u64) {
    let mut next = 0u64;
    for _ in rt.forever() {
        if next >= count {
            return;
        }
        if queue.push(rt, next).is_ok() {
            next = next.saturating_add(1);
        }
    }
}

fn take_all<R: Wait>(rt: &R, queue: &ArrayQueue<u64>, count: u64) -> bool {
    let mut in_order = true;
    for due in 0..count {
        in_order = in_order && next(rt, queue) == due;
    }
    in_order
}

fn next<R: Wait>(rt: &R, queue: &ArrayQueue<u64>) -> u64 {
    for _ in rt.forever() {
        if let Some(item) = queue.pop(rt) {
            return item;
        }
    }
    unreachable!()
}

/// Pushes and pops the numbers below `count` on one thread, one after the other.
pub fn on_one<R: Wait>(rt: &R, alloc: Global, count: u64, capacity: usize) -> Option<bool>
    requires { 1 ≤ capacity }
{
    let queue = ArrayQueue::new(alloc, capacity).ok()?;
    let mut in_order = true;
    for number in 0..count {
        if queue.push(rt, number).is_err() {
            return Some(false);
        }
        in_order = in_order && queue.pop(rt) == Some(number);
    }
    Some(in_order)
}

/// Pushes them on one thread and pops them on another.
pub fn on_two<R: Wait + Threads + Sync>(
    rt: &R,
    alloc: Global,
    count: u64,
    capacity: usize,
) -> Option<bool>
    requires { 1 ≤ capacity }
{
    let queue: ArrayQueue<u64> = ArrayQueue::new(alloc, capacity).ok()?;
    let (_, in_order) = thread::join(
        rt,
        || put_all(rt, &queue, count),
        || take_all(rt, &queue, count),
    );
    Some(in_order)
}
