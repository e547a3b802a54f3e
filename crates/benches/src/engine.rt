//! What an engine takes for a frame of a loop, and what the same work takes by hand over flat
//! lists.
//!
//! ```text
//! benches engine playing LOOPS PERIOD TIMES
//! benches engine waiting LOOPS PERIOD TIMES
//! benches engine source LOOPS PERIOD TIMES
//! benches engine seams LOOPS PERIOD TIMES
//! benches engine one LOOPS PERIOD TIMES
//! benches engine all LOOPS PERIOD TIMES
//! benches engine hand LOOPS PERIOD TIMES
//! ```
//!
//! Each loop has 480,000 frames, which are 10 seconds at 48,000 a second, and they are played in
//! periods of PERIOD frames. Each line names what was timed, with the least of TIMES in thousandths
//! of a nanosecond for a frame of a loop.

mod hand;
mod scenario;
pub mod session;

use crate::words::number;

/// Times what the words say, or nothing where they are others.
pub fn timed(rt: &HostRuntime, words: &[String]) -> Option<()> {
    let [kind, loops, period, times] = words else {
        return None;
    };
    let loops = number(loops.as_str(), 1, 16)? as u8;
    let period = number(period.as_str(), 1, 8192)?;
    let times = number(times.as_str(), 1, 1000)?;
    match kind.as_str() {
        "playing" => scenario::playing(rt, loops, period, times),
        "waiting" => scenario::waiting(rt, loops, period, times, "waiting", false),
        "source" => scenario::waiting(rt, loops, period, times, "source", true),
        "seams" => scenario::over_seams(rt, loops, period, times),
        "one" => scenario::overdubbing(rt, loops, period, times, 1),
        "all" => scenario::overdubbing(rt, loops, period, times, loops),
        "hand" => hand::all(rt, loops, period, times),
        _ => None,
    }
}
