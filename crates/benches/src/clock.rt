//! Nanoseconds of the clock.

use std::time::Instant;

/// A moment, or none where the clock fails.
pub fn now(rt: &HostRuntime) -> Option<Instant> {
    Instant::now(rt).ok()
}

/// The nanoseconds since a moment, or none where the clock fails.
pub fn since(rt: &HostRuntime, start: Option<Instant>) -> Option<u64> {
    let passed = start?.elapsed(rt).ok()?;
    let seconds = passed.as_secs().saturating_mul(1000000000);
    Some(seconds.saturating_add(passed.subsec_nanos() as u64))
}

/// The least of what was timed so far and now, in thousandths of a nanosecond a call.
pub fn least(so_far: u64, timed: Option<u64>, calls: u64) -> u64 {
    match timed {
        None => so_far,
        Some(ns) => so_far.min(ns.saturating_mul(1000) / calls.max(1)),
    }
}

/// A sum as it is told, so that no read is in vain.
pub fn told(sum: i64) -> u64 {
    if sum < 0 { 0 } else { sum as u64 }
}

/// Prints what was timed, where it was.
pub fn tell(rt: &HostRuntime, name: &str, time: u64) {
    if time != u64::MAX {
        let _ = println!(rt; "{name} {time}");
    }
}
