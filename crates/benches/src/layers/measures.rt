//! The least time of each call, in thousandths of a nanosecond.

ghost use Rattle.std.specs.Prelude.{◌≤◌, length};
ghost use Rattle.benches.specs.Phases.{IsIdle, IsWriting};

use crate::clock::{least, now, since};
use crate::layers::steps::{
    append, backward, close, forward, insert, open, read_backward, read_forward, read_spans,
};
use layer_memory::Layers;
use loop_tape::Pool;
use sl_base::Frame;

/// Undo and redo go to and fro this often between two looks at the clock.
const TURNS: u32 = 1000;

/// A first layer of so many frames, and the time of one frame at its end. None where it isn't
/// there.
pub fn record(rt: &HostRuntime, layers: &mut Layers, pool: &mut Pool, frames: u32) -> Option<u64>
    requires { IsIdle layers.old pool.old }
    ensures { IsIdle layers.new pool.new }
{
    if !open(layers, pool, true) {
        return None;
    }
    let start = now(rt);
    let written = append(layers, pool, frames);
    let timed = since(rt, start);
    close(layers, pool);
    if !written {
        return None;
    }
    Some(least(u64::MAX, timed, frames as u64))
}

/// An opening over the current layer.
pub fn opening(rt: &HostRuntime, layers: &mut Layers, pool: &mut Pool, times: u32) -> u64
    requires { IsIdle layers.old pool.old }
    ensures { IsIdle layers.new pool.new }
{
    let mut best = u64::MAX;
    for _ in 0..times {
        let start = now(rt);
        let opened = open(layers, pool, false);
        let timed = since(rt, start);
        if !opened {
            return best;
        }
        layers.drop_last();
        best = least(best, timed, 1);
    }
    best
}

/// A write of a new cell in a streak, forward from a place on, each time `count` frames further on.
pub fn new_cells(
    rt: &HostRuntime,
    layers: &mut Layers,
    pool: &mut Pool,
    from: u32,
    count: u32,
    times: u32,
) -> u64
    requires { IsWriting layers.old pool.old }
    ensures { IsWriting layers.new pool.new }
{
    let mut best = u64::MAX;
    let mut place = from;
    for _ in 0..times {
        let start = now(rt);
        let written = forward(layers, pool, place, count);
        let timed = since(rt, start);
        if !written {
            return best;
        }
        best = least(best, timed, count as u64);
        place = place.saturating_add(count);
    }
    best
}

/// A write over a fresh cell, forward from a place on.
pub fn fresh_cells(
    rt: &HostRuntime,
    layers: &mut Layers,
    pool: &mut Pool,
    from: u32,
    count: u32,
    times: u32,
) -> u64
    requires { IsWriting layers.old pool.old }
    ensures { IsWriting layers.new pool.new }
{
    let mut best = u64::MAX;
    for _ in 0..times {
        let start = now(rt);
        let written = forward(layers, pool, from, count);
        let timed = since(rt, start);
        if !written {
            return best;
        }
        best = least(best, timed, count as u64);
    }
    best
}

/// A write of a new cell in a streak, backward before a place, each time `count` frames further
/// down.
pub fn new_cells_backward(
    rt: &HostRuntime,
    layers: &mut Layers,
    pool: &mut Pool,
    to: u32,
    count: u32,
    times: u32,
) -> u64
    requires { IsWriting layers.old pool.old }
    ensures { IsWriting layers.new pool.new }
{
    let mut best = u64::MAX;
    let mut place = to;
    for _ in 0..times {
        let start = now(rt);
        let written = backward(layers, pool, place, count);
        let timed = since(rt, start);
        if !written {
            return best;
        }
        best = least(best, timed, count as u64);
        place = place.saturating_sub(count);
    }
    best
}

/// A write of a cell before a place, in a streak.
pub fn insertions(
    rt: &HostRuntime,
    layers: &mut Layers,
    pool: &mut Pool,
    from: u32,
    count: u32,
    times: u32,
) -> u64
    requires { IsWriting layers.old pool.old }
    ensures { IsWriting layers.new pool.new }
{
    let mut best = u64::MAX;
    for _ in 0..times {
        let start = now(rt);
        let written = insert(layers, pool, from, count);
        let timed = since(rt, start);
        if !written {
            return best;
        }
        best = least(best, timed, count as u64);
    }
    best
}

/// An undo and a redo, half the time of both.
pub fn undo_and_redo(rt: &HostRuntime, layers: &mut Layers, pool: &Pool, times: u32) -> u64
    requires { IsIdle layers.old pool.now }
    ensures { IsIdle layers.new pool.now }
{
    let mut best = u64::MAX;
    for _ in 0..times {
        let start = now(rt);
        turn(layers, pool);
        best = least(best, since(rt, start), 2 * TURNS as u64);
    }
    best
}

fn turn(layers: &mut Layers, pool: &Pool)
    requires { IsIdle layers.old pool.now }
    ensures { IsIdle layers.new pool.now }
{
    for _ in 0..TURNS {
        layers.undo();
        layers.redo();
    }
}

/// A pin of the current list.
pub fn pin(rt: &HostRuntime, layers: &mut Layers, pool: &Pool, times: u32) -> u64
    requires { IsIdle layers.old pool.now }
    ensures { IsIdle layers.new pool.now }
{
    let mut best = u64::MAX;
    for _ in 0..times {
        layers.release();
        let start = now(rt);
        layers.pin();
        best = least(best, since(rt, start), 1);
    }
    layers.release();
    best
}

/// A read of one frame with the search for it, forward or backward. It also gives the sum that was
/// read.
pub fn reads(
    rt: &HostRuntime,
    layers: &mut Layers,
    pool: &Pool,
    from: u32,
    count: u32,
    times: u32,
    is_forward: bool,
) -> (u64, i64)
    requires { IsIdle layers.old pool.now }
    ensures { IsIdle layers.new pool.now }
{
    let mut best = u64::MAX;
    let mut sum = 0i64;
    let to = from.saturating_add(count);
    for _ in 0..times {
        let start = now(rt);
        let read = if is_forward {
            read_forward(layers, pool, from, count)
        } else {
            read_backward(layers, pool, to, count)
        };
        best = least(best, since(rt, start), count as u64);
        sum = sum.wrapping_add(read);
    }
    (best, sum)
}

/// A span as long as `out`, the mean of so many one behind the other.
pub fn spans(
    rt: &HostRuntime,
    layers: &mut Layers,
    pool: &Pool,
    from: u32,
    count: u32,
    times: u32,
    out: &mut [Frame],
) -> u64
    requires idle { IsIdle layers.old pool.now }
    requires short { length out.old ≤ 65536 }
    ensures { IsIdle layers.new pool.now }
{
    let mut best = u64::MAX;
    for _ in 0..times {
        let start = now(rt);
        let read = read_spans(layers, pool, from, count, out);
        let timed = since(rt, start);
        if !read {
            return best;
        }
        best = least(best, timed, count as u64);
    }
    best
}
