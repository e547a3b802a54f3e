//! How long no boundary acts on a verb that waits.

ghost use Rattle.std.specs.Prelude.{◌≡◌, ◌≤◌, ◌<◌, ◌-◌, IsTrue};
ghost use Rattle.std.specs.List.{AllByRecursion};
ghost use Rattle.looper_laws.specs.Spans.{KeepsTime, NoBoundaryWithin, IsClearFor, keeps_time};
ghost use Rattle.loop_tape.specs.Pools.{PoolOf};
ghost use Rattle.looper_tracks.specs.Track.{track_in, tracks_in};

use crate::track::Track;
use quantise_sync::{SyncSetup, next_boundary};
use sl_commands::{Face, Globals, Mode};

/// A loop with this face keeps time: it goes on by one place at each frame, whatever comes in.
fn keeps_time(face: &Face) -> bool
    ensures { result ≡ keeps_time face.now }
{
    match face.mode {
        Mode::Playing | Mode::Muted | Mode::OneShot => true,
        Mode::Overdubbing | Mode::Replacing | Mode::Substituting => 1 <= face.cycle,
        _ => false,
    }
}

/// The source of boundaries keeps time, where it is a loop.
fn source_keeps_time(faces: &[Face], source: i32) -> bool
    ensures { IsTrue result → KeepsTime source faces.now }
{
    if source <= 0 {
        return true;
    }
    match faces.get(source as usize - 1) {
        Some(face) => keeps_time(face),
        None => true,
    }
}

/// How many frames it is to the next boundary for a loop with this quantize, at most `most`, and 1
/// at least.
fn frames_to_boundary(faces: &[Face], globals: &Globals, quantize: u8, frame: u64, most: u32) -> u32
    requires some { 1 ≤ most }
    ensures some { 1 ≤ result }
    ensures within { result ≤ most }
    ensures calm { NoBoundaryWithin globals.now frame faces.now (result - 1) quantize }
{
    let setup = SyncSetup {
        source: globals.sync_source,
        quantize,
        pulse: globals.pulse,
        frame,
    };
    next_boundary(faces, &setup, most).max(1)
}

/// How many of so many frames pass before a verb that waits on this track may act.
fn calm_of(track: &Track, faces: &[Face], globals: &Globals, frame: u64, most: u32) -> u32
    requires some { 1 ≤ most }
    ensures some { 1 ≤ result }
    ensures within { result ≤ most }
    ensures calm { (p : PoolOf) → IsClearFor globals.now frame faces.now (result - 1)
        (track_in p track.now) }
{
    if track.face().waiting.is_none() {
        return most;
    }
    frames_to_boundary(faces, globals, track.quantize(), frame, most)
}

/// How many of so many frames pass before a verb that waits on one of them may act, these being
/// their faces.
pub(crate) fn calm_frames(
    tracks: &[Track],
    faces: &[Face],
    globals: &Globals,
    frame: u64,
    most: u32,
) -> u32
    requires some { 1 ≤ most }
    ensures some { 1 ≤ result }
    ensures within { result ≤ most }
    ensures time { 1 < result → KeepsTime globals.now.sync_source faces.now }
    ensures calm { (p : PoolOf) → 1 < result
        → AllByRecursion (IsClearFor globals.now frame faces.now (result - 1))
        (tracks_in p tracks.now) }
{
    if !source_keeps_time(faces, globals.sync_source) {
        return 1;
    }
    let mut frames = most;
    for k in 0..tracks.len() {
        frames = frames.min(calm_of(&tracks[k], faces, globals, frame, most));
    }
    frames
}
