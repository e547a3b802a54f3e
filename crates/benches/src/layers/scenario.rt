//! One size: a layer, and another over it in pieces.

ghost use Rattle.std.specs.Prelude.{◌≤◌, length};
ghost use Rattle.benches.specs.Phases.{IsIdle, IsWriting};

use crate::clock::{least, now, since, tell, told};
use crate::layers::measures::{
    fresh_cells, insertions, new_cells, new_cells_backward, opening, pin, reads, record, spans,
    undo_and_redo,
};
use crate::layers::steps::{close, open, scatter};
use layer_memory::Layers;
use loop_tape::Pool;
use sl_base::{Frame, MAX_LIST_FRAMES};

/// Frames that are read one by one, at most.
const READ: u32 = 65536;

/// How large: the frames of the list, the single frames that are written over its second half, and
/// the times of each measure.
#[derive(Clone, Copy)]
pub struct Size {
    pub frames: u32,
    pub streaks: u32,
    pub times: u32,
}

/// Times all calls at one size. `out` is one span.
pub fn all(rt: &HostRuntime, layers: &mut Layers, pool: &mut Pool, size: Size, out: &mut [Frame])
    requires idle { IsIdle layers.old pool.old }
    requires short { length out.old ≤ 65536 }
{
    match record(rt, layers, pool, size.frames) {
        None => return,
        Some(time) => tell(rt, "append", time),
    }
    tell(
        rt,
        "opening_of_the_first",
        opening(rt, layers, pool, size.times),
    );
    if !open(layers, pool, false) {
        return;
    }
    written(rt, layers, pool, size);
    close(layers, pool);
    tell(rt, "opening", opening(rt, layers, pool, size.times));
    moved(rt, layers, pool, size);
    read(rt, layers, pool, size, out);
    tell(rt, "seams", layers.sizes().seams as u64);
}

/// The layer over the first one, and the writes in its first half.
fn written(rt: &HostRuntime, layers: &mut Layers, pool: &mut Pool, size: Size)
    requires { IsWriting layers.old pool.old }
    ensures { IsWriting layers.new pool.new }
{
    let half = size.frames / 2;
    if !scatter(layers, pool, half, half / size.streaks.max(1), size.streaks) {
        return;
    }
    let count = (size.frames / 8 / size.times.max(1)).min(4096);
    if count == 0 {
        return;
    }
    tell(rt, "new", new_cells(rt, layers, pool, 0, count, size.times));
    tell(
        rt,
        "fresh",
        fresh_cells(rt, layers, pool, 0, count, size.times),
    );
    let quarter = size.frames / 4;
    tell(
        rt,
        "new_backward",
        new_cells_backward(rt, layers, pool, half - half / 4, count, size.times),
    );
    tell(
        rt,
        "begin",
        begun(rt, layers, pool, half - half / 8, size.times.min(half / 32)),
    );
    if size.frames <= MAX_LIST_FRAMES - MAX_LIST_FRAMES / 4 {
        tell(
            rt,
            "insert",
            insertions(rt, layers, pool, quarter - quarter / 8, count, size.times),
        );
    }
}

/// The first write of a streak before all pieces, the mean of so many.
fn begun(rt: &HostRuntime, layers: &mut Layers, pool: &mut Pool, from: u32, count: u32) -> u64
    requires { IsWriting layers.old pool.old }
    ensures { IsWriting layers.new pool.new }
{
    let start = now(rt);
    let written = scatter(layers, pool, from, 2, count);
    let timed = since(rt, start);
    if !written {
        return u64::MAX;
    }
    least(u64::MAX, timed, count as u64)
}

/// Undo, redo, a pin, and a search for a place after them.
fn moved(rt: &HostRuntime, layers: &mut Layers, pool: &Pool, size: Size)
    requires { IsIdle layers.old pool.now }
    ensures { IsIdle layers.new pool.now }
{
    tell(
        rt,
        "undo_and_redo",
        undo_and_redo(rt, layers, pool, size.times),
    );
    tell(rt, "pin", pin(rt, layers, pool, size.times));
    let mut best = u64::MAX;
    for _ in 0..size.times {
        layers.undo();
        layers.redo();
        let start = now(rt);
        layers.seek(size.frames - size.frames / 4);
        best = least(best, since(rt, start), 1);
    }
    tell(rt, "search", best);
}

/// Reads in the second half, where the pieces are.
fn read(rt: &HostRuntime, layers: &mut Layers, pool: &Pool, size: Size, out: &mut [Frame])
    requires idle { IsIdle layers.old pool.now }
    requires short { length out.old ≤ 65536 }
    ensures { IsIdle layers.new pool.now }
{
    let half = size.frames / 2;
    let count = half.min(READ);
    let (time, sum) = reads(rt, layers, pool, half, count, size.times, true);
    tell(rt, "read", time);
    let (time, more) = reads(rt, layers, pool, half, count, size.times, false);
    tell(rt, "read_backward", time);
    let number = count / 1024;
    if number > 0 {
        tell(
            rt,
            "span",
            spans(rt, layers, pool, half, number, size.times, out),
        );
    }
    tell(rt, "sum", told(sum.wrapping_add(more)));
}
