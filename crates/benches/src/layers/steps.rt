//! What is timed: openings, streaks of writes, and reads, over layers and their pool.

ghost use Rattle.std.specs.Prelude.{◌≤◌, ◌<◌, IsFalse, IsTrue, length};
ghost use Rattle.benches.specs.Phases.{IsIdle, IsWriting};

use layer_memory::{How, Layers, Started};
use loop_tape::Pool;
use sl_base::{Frame, MAX_LIST_FRAMES};

/// A frame that differs from its neighbours.
fn frame(number: u32) -> Frame {
    let side = (number & 65535) as i32;
    Frame {
        left: side,
        right: side,
    }
}

/// Opens a layer, as a copy or empty. False where that is refused, or where there is no layer to
/// copy.
pub fn open(layers: &mut Layers, pool: &mut Pool, empty: bool) -> bool
    requires { IsIdle layers.old pool.old }
    ensures ok { IsTrue result → IsWriting layers.new pool.new }
    ensures refused { IsFalse result → IsIdle layers.new pool.new }
{
    if !empty && layers.sizes().layers == 0 {
        return false;
    }
    match layers.start_layer(pool, empty) {
        Started::Ok => true,
        Started::Layers => false,
        Started::Seams => false,
        Started::Room => false,
    }
}

/// Closes the open layer.
pub fn close(layers: &mut Layers, pool: &Pool)
    requires { IsWriting layers.old pool.now }
    ensures { IsIdle layers.new pool.now }
{
    layers.finish(None);
}

/// Writes so many frames at the end.
pub fn append(layers: &mut Layers, pool: &mut Pool, count: u32) -> bool
    requires { IsWriting layers.old pool.old }
    ensures { IsWriting layers.new pool.new }
{
    layers.break_streak();
    let first = layers.sizes().length;
    if first > MAX_LIST_FRAMES || count > MAX_LIST_FRAMES {
        return false;
    }
    for i in 0..count {
        if !layers.write(pool, first + i, frame(i), How::Append) {
            return false;
        }
    }
    true
}

/// Writes so many frames over those from a place on.
pub fn forward(layers: &mut Layers, pool: &mut Pool, from: u32, count: u32) -> bool
    requires { IsWriting layers.old pool.old }
    ensures { IsWriting layers.new pool.new }
{
    layers.break_streak();
    let length = layers.sizes().length;
    if from > length || count > length - from {
        return false;
    }
    for i in 0..count {
        if !layers.write(pool, from + i, frame(i), How::Forward) {
            return false;
        }
    }
    true
}

/// Writes so many frames over those before a place, backward.
pub fn backward(layers: &mut Layers, pool: &mut Pool, to: u32, count: u32) -> bool
    requires { IsWriting layers.old pool.old }
    ensures { IsWriting layers.new pool.new }
{
    layers.break_streak();
    let length = layers.sizes().length;
    if to > length || count >= to {
        return false;
    }
    for i in 0..count {
        if !layers.write(pool, to - 1 - i, frame(i), How::Backward) {
            return false;
        }
    }
    true
}

/// Writes so many frames before a place.
pub fn insert(layers: &mut Layers, pool: &mut Pool, from: u32, count: u32) -> bool
    requires { IsWriting layers.old pool.old }
    ensures { IsWriting layers.new pool.new }
{
    layers.break_streak();
    let length = layers.sizes().length;
    if from >= length || length > MAX_LIST_FRAMES || count > MAX_LIST_FRAMES {
        return false;
    }
    for i in 0..count {
        if !layers.write(pool, from + i, frame(i), How::Insert) {
            return false;
        }
    }
    true
}

/// Writes single frames over those at places that lie `stride` apart, each as a streak of its own.
pub fn scatter(layers: &mut Layers, pool: &mut Pool, from: u32, stride: u32, count: u32) -> bool
    requires { IsWriting layers.old pool.old }
    ensures { IsWriting layers.new pool.new }
{
    let length = layers.sizes().length;
    let mut place = from;
    for i in 0..count {
        if place >= length || stride > MAX_LIST_FRAMES || length > MAX_LIST_FRAMES {
            return false;
        }
        layers.break_streak();
        if !layers.write(pool, place, frame(i), How::Forward) {
            return false;
        }
        place += stride;
    }
    true
}

/// Reads so many frames one by one from a place on, and gives their sum.
pub fn read_forward(layers: &mut Layers, pool: &Pool, from: u32, count: u32) -> i64
    requires { IsIdle layers.old pool.now }
    ensures { IsIdle layers.new pool.now }
{
    let length = layers.sizes().length;
    if from > length || count > length - from {
        return 0;
    }
    let mut sum = 0i64;
    for i in 0..count {
        layers.seek(from + i);
        sum = sum.wrapping_add(layers.read(pool, from + i).left as i64);
    }
    sum
}

/// Reads so many frames one by one before a place, backward, and gives their sum.
pub fn read_backward(layers: &mut Layers, pool: &Pool, to: u32, count: u32) -> i64
    requires { IsIdle layers.old pool.now }
    ensures { IsIdle layers.new pool.now }
{
    let length = layers.sizes().length;
    if to > length || count > to {
        return 0;
    }
    let mut sum = 0i64;
    for i in 0..count {
        layers.seek(to - 1 - i);
        sum = sum.wrapping_add(layers.read(pool, to - 1 - i).left as i64);
    }
    sum
}

/// Copies so many spans one behind the other, from a place on.
pub fn read_spans(
    layers: &mut Layers,
    pool: &Pool,
    from: u32,
    count: u32,
    out: &mut [Frame],
) -> bool
    requires idle { IsIdle layers.old pool.now }
    requires short { length out.old ≤ 65536 }
    ensures { IsIdle layers.new pool.now }
{
    let size = out.len() as u32;
    let length = layers.sizes().length;
    let mut place = from;
    for _ in 0..count {
        if place > length || size > length - place {
            return false;
        }
        layers.read_span(pool, place, out);
        place += size;
        layers.seek(place);
    }
    true
}
