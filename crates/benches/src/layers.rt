//! What layers on a shared tape cost, and what a plain vector costs.
//!
//! ```text
//! benches layers new 0 0 TIMES
//! benches layers layers FRAMES STREAKS TIMES
//! benches layers vector FRAMES 0 TIMES
//! ```
//!
//! `layers` has its pool filled before, as it is when live audio begins. It records FRAMES frames,
//! and in a second layer writes STREAKS single frames over their second half, apart from one
//! another. Each line names what was timed, with the least of TIMES in thousandths of a nanosecond:
//! of a call, and of a frame where frames are written or read one by one.

mod measures;
mod scenario;
mod steps;
mod vector;

use crate::clock::{least, now, since, tell, told};
use crate::layers::scenario::Size;
use crate::words::number;
use layer_memory::Layers;
use loop_tape::Pool;
use sl_base::{CHUNK_FRAMES, Frame, MAX_CHUNKS, MAX_LIST_FRAMES};

/// The frames of a span.
const SPAN: usize = 1024;

/// Chunks for what is written over the first layer.
const SPARE: u32 = 64;

/// A pool and the layers of 16 loops, made anew.
fn made_anew(rt: &HostRuntime, times: u32) {
    let mut best = u64::MAX;
    for _ in 0..times {
        let start = now(rt);
        let made = all_loops(rt);
        let timed = since(rt, start);
        if made.is_some() {
            best = least(best, timed, 1);
        }
    }
    tell(rt, "new", best);
}

fn all_loops(rt: &HostRuntime) -> Option<(Pool, Vec<Layers>)> {
    let pool = Pool::new(rt.alloc(), MAX_CHUNKS).ok()?;
    let mut all = Vec::with_capacity(rt.alloc(), 16).ok()?;
    for _ in 0..16 {
        let layers = Layers::new(rt.alloc(), MAX_CHUNKS).ok()?;
        all.push(layers).ok()?;
    }
    Some((pool, all))
}

/// A span of silence.
fn span(rt: &HostRuntime) -> Option<Vec<Frame>> {
    let mut out = Vec::with_capacity(rt.alloc(), SPAN).ok()?;
    for _ in 0..SPAN {
        out.push(Frame { left: 0, right: 0 }).ok()?;
    }
    Some(out)
}

fn over_layers(rt: &HostRuntime, size: Size) {
    let Some(mut out) = span(rt) else {
        return;
    };
    if out.len() > 65536 {
        return;
    }
    let chunks = (size.frames / CHUNK_FRAMES).min(MAX_CHUNKS - SPARE) + SPARE;
    let Ok(mut pool) = Pool::new(rt.alloc(), chunks) else {
        return;
    };
    pool.fill();
    let Ok(mut layers) = Layers::new(rt.alloc(), MAX_CHUNKS) else {
        return;
    };
    scenario::all(rt, &mut layers, &mut pool, size, &mut out);
}

fn over_vector(rt: &HostRuntime, size: Size) {
    let Some(mut out) = span(rt) else {
        return;
    };
    let mut list = Vec::new(rt.alloc());
    let mut copied = Vec::new(rt.alloc());
    match vector::record(rt, &mut list, size.frames) {
        None => return,
        Some(time) => tell(rt, "append", time),
    }
    tell(
        rt,
        "opening",
        vector::opening(rt, &list, &mut copied, size.times),
    );
    let half = size.frames as usize / 2;
    let count = half.min(65536);
    tell(
        rt,
        "new",
        vector::writes(rt, &mut list, 0, count, size.times),
    );
    let (time, sum) = vector::reads(rt, &list, half, count, size.times);
    tell(rt, "read", time);
    if count >= SPAN {
        tell(
            rt,
            "span",
            vector::spans(rt, &list, half, (count / SPAN) as u32, size.times, &mut out),
        );
    }
    tell(rt, "sum", told(sum));
}

/// Times what the words say, or nothing where they are others.
pub fn timed(rt: &HostRuntime, words: &[String]) -> Option<()> {
    let [kind, frames, streaks, times] = words else {
        return None;
    };
    let frames = number(frames.as_str(), 0, MAX_LIST_FRAMES)?;
    let streaks = number(streaks.as_str(), 0, 65536)?;
    let times = number(times.as_str(), 0, 65536)?;
    let size = Size {
        frames,
        streaks,
        times,
    };
    match kind.as_str() {
        "new" => made_anew(rt, times),
        "layers" => over_layers(rt, size),
        "vector" => over_vector(rt, size),
        _ => {}
    }
    Some(())
}
