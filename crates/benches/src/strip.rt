//! One loop that plays and overdubs, and the same by hand over one flat list.
//!
//! ```text
//! benches strip loop STREAKS SPAN TIMES
//! benches strip plain 0 SPAN TIMES
//! ```
//!
//! The list has 491,520 frames, a little over ten seconds. `loop` has its pool filled before, as it
//! is when live audio begins, and writes STREAKS streaks over the list, as long as they fit, so
//! that it has 2 seams and 2 more for each. All frames go in spans of SPAN. Each line names what
//! was timed, with the least of TIMES in thousandths of a nanosecond a frame.

mod measures;
mod plain;
mod steps;

ghost use Rattle.std.specs.Prelude.{◌≤◌, ◌<◌, length};

use crate::words::number;
use loop_strip::{Pool, Strip};
use sl_base::Frame;
use sl_commands::StripSettings;

/// The frames of the list.
pub(crate) const FRAMES: u32 = 491520;

/// The most frames in a span.
const MOST_SPAN: u32 = 65536;

/// Chunks for the list, for streaks over it, and for an overdub of it.
const CHUNKS: u32 = 512;

/// So many frames that differ from their neighbours.
fn frames(rt: &HostRuntime, count: u32) -> Option<Vec<Frame>> {
    let mut out = Vec::with_capacity(rt.alloc(), count as usize).ok()?;
    for i in 0..count {
        let side = (i & 65535) as i32;
        out.push(Frame {
            left: side,
            right: side,
        })
        .ok()?;
    }
    Some(out)
}

fn over_loop(rt: &HostRuntime, streaks: u32, span: u32, times: u32) -> Option<()> {
    let input = frames(rt, span)?;
    let mut heard = frames(rt, span)?;
    let Ok(mut pool) = Pool::new(rt.alloc(), CHUNKS) else {
        return None;
    };
    pool.fill();
    let Ok(mut strip) = Strip::new(rt.alloc(), StripSettings::default(), CHUNKS) else {
        return None;
    };
    let most = input.len().min(heard.len());
    measures::all(
        rt,
        &mut strip,
        &mut pool,
        streaks,
        times,
        &input[..most],
        &mut heard[..most],
    );
    Some(())
}

fn over_list(rt: &HostRuntime, span: u32, times: u32) -> Option<()> {
    let input = frames(rt, span)?;
    let mut heard = frames(rt, span)?;
    let mut list = frames(rt, FRAMES)?;
    let most = input.len().min(heard.len());
    if !list.is_empty() {
        plain::all(rt, &mut list, times, &input[..most], &mut heard[..most]);
    }
    Some(())
}

/// Times what the words say, or nothing where they are others.
pub fn timed(rt: &HostRuntime, words: &[String]) -> Option<()> {
    let [kind, streaks, span, times] = words else {
        return None;
    };
    let streaks = number(streaks.as_str(), 0, FRAMES)?;
    let span = number(span.as_str(), 0, MOST_SPAN)?;
    let times = number(times.as_str(), 0, 65536)?;
    match kind.as_str() {
        "loop" => over_loop(rt, streaks, span, times),
        "plain" => over_list(rt, span, times),
        _ => None,
    }
}
