//! Numbers through a ring, or through the bare queue without ends and rule, for bench/rings.sh to
//! time. It is silent.
//!
//! ```text
//! benches rings ring|bare one|two COUNT CAPACITY
//! ```
//!
//! `one` puts and takes on one thread, `two` puts on one thread and takes on another. Other words
//! do nothing.

mod bare;
mod ringed;

use crate::words::number;
use std::alloc::Global;
use std::sync::Wait;
use std::thread::Threads;

/// Passes the numbers as the words say, and tells whether all came in order.
pub fn passed<R: Wait + Threads + Sync>(rt: &R, alloc: Global, words: &[String]) -> Option<bool> {
    let [kind, threads, count, capacity] = words else {
        return Some(true);
    };
    let count = number(count.as_str(), 0, 1000000000)? as u64;
    let capacity = number(capacity.as_str(), 1, 65536)? as usize;
    match (kind.as_str(), threads.as_str()) {
        ("ring", "one") => ringed::on_one(rt, alloc, count, capacity),
        ("ring", "two") => ringed::on_two(rt, alloc, count, capacity),
        ("bare", "one") => bare::on_one(rt, alloc, count, capacity),
        ("bare", "two") => bare::on_two(rt, alloc, count, capacity),
        _ => Some(true),
    }
}
