//! The same over a plain vector of frames, which copies itself at an opening.

use crate::clock::{least, now, since};
use sl_base::Frame;

/// A frame that differs from its neighbours.
fn frame(number: usize) -> Frame {
    let side = (number & 65535) as i32;
    Frame {
        left: side,
        right: side,
    }
}

/// A vector of so many frames, and the time of one frame at its end.
pub fn record(rt: &HostRuntime, list: &mut Vec<Frame>, frames: u32) -> Option<u64> {
    let start = now(rt);
    for i in 0..frames {
        list.push(frame(i as usize)).ok()?;
    }
    Some(least(u64::MAX, since(rt, start), frames as u64))
}

/// A copy of the list into another vector with room for it, as an opening makes one.
pub fn opening(rt: &HostRuntime, list: &[Frame], copied: &mut Vec<Frame>, times: u32) -> u64 {
    let mut best = u64::MAX;
    for _ in 0..times {
        copied.truncate(0);
        let start = now(rt);
        let done = copied.extend_from_slice(list).is_ok();
        let timed = since(rt, start);
        if !done {
            return best;
        }
        best = least(best, timed, 1);
    }
    best
}

/// A write of one frame, from a place on.
pub fn writes(rt: &HostRuntime, list: &mut [Frame], from: usize, count: usize, times: u32) -> u64 {
    let mut best = u64::MAX;
    if from > list.len() || count > list.len() - from {
        return best;
    }
    for _ in 0..times {
        let start = now(rt);
        write_all(&mut list[from..from + count]);
        best = least(best, since(rt, start), count as u64);
    }
    best
}

fn write_all(list: &mut [Frame]) {
    for i in 0..list.len() {
        list[i] = frame(i);
    }
}

/// A read of one frame, from a place on. It also gives the sum that was read.
pub fn reads(
    rt: &HostRuntime,
    list: &[Frame],
    from: usize,
    count: usize,
    times: u32,
) -> (u64, i64) {
    let mut best = u64::MAX;
    let mut sum = 0i64;
    if from > list.len() || count > list.len() - from {
        return (best, sum);
    }
    for _ in 0..times {
        let start = now(rt);
        let read = sum_of(&list[from..from + count]);
        best = least(best, since(rt, start), count as u64);
        sum = sum.wrapping_add(read);
    }
    (best, sum)
}

fn sum_of(list: &[Frame]) -> i64 {
    let mut sum = 0i64;
    for frame in list {
        sum = sum.wrapping_add(frame.left as i64);
    }
    sum
}

/// A copy of a span as long as `out`, the mean of so many one behind the other.
pub fn spans(
    rt: &HostRuntime,
    list: &[Frame],
    from: usize,
    count: u32,
    times: u32,
    out: &mut [Frame],
) -> u64 {
    let mut best = u64::MAX;
    for _ in 0..times {
        let start = now(rt);
        let read = copy_spans(list, from, count, out);
        let timed = since(rt, start);
        if !read {
            return best;
        }
        best = least(best, timed, count as u64);
    }
    best
}

fn copy_spans(list: &[Frame], from: usize, count: u32, out: &mut [Frame]) -> bool {
    let mut place = from;
    for _ in 0..count {
        if place > list.len() || out.len() > list.len() - place {
            return false;
        }
        let end = place + out.len();
        out.copy_from_slice(&list[place..end]);
        place = end;
    }
    true
}
