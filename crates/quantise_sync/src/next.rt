//! How many frames it is to the next boundary.

ghost use Rattle.std.specs.Prelude.{◌≡◌, ℕ, ◌≤◌, ◌<◌, Bool, true, false, slice_get, map};
ghost use Rattle.std.specs.List.{AllByRecursion};
ghost use Rattle.looper_rules.specs.FacesLater.{is_boundary_behind};
ghost use Rattle.quantise_sync.specs.Distances.{frames_up, frames_forward, frames_through, is_whole, frames_in, is_placed_in, is_placed, frames_to_unit, frames_to_unit_of, frames_to_pulse, frames_to_boundary, IsPlacedWhereRunning};

use crate::moment::{is_multiple, is_running, unit_of};
use crate::setup::SyncSetup;
use sl_commands::{Face, Mode};

/// Up to the next multiple of the unit, from a number that isn't one.
fn frames_up(unit: u32, at: u64) -> Option<u32>
    ensures { result ≡ frames_up unit at }
{
    if unit == 0 {
        None
    } else {
        Some(unit - (at % unit as u64) as u32)
    }
}

/// Forward through a list of this length, from a place that isn't a multiple of the unit.
fn frames_forward(unit: u32, at: u32, length: u32) -> u32
    requires { at < length }
    ensures { result ≡ frames_forward unit at length }
{
    if unit == 0 {
        length - at
    } else {
        (unit - at % unit).min(length - at)
    }
}

/// Through a list in this direction, from a place that isn't a multiple of the unit.
fn frames_through(backward: bool, unit: u32, at: u32, length: u32) -> u32
    requires { at < length }
    ensures { result ≡ frames_through backward unit at length }
{
    if !backward {
        frames_forward(unit, at, length)
    } else if unit == 0 {
        at
    } else {
        at % unit
    }
}

/// The unit is the whole length.
fn is_whole(quantize: u8) -> bool
    ensures { result ≡ is_whole quantize }
{
    quantize != 1 && quantize != 2
}

/// A face in this mode is placed.
fn is_placed(face: &Face) -> bool
    ensures { result ≡ is_placed face.now }
{
    match face.mode {
        Mode::Multiplying => face.pos <= face.length && 0 < face.base,
        _ => face.pos < face.length,
    }
}

/// From a placed face in a mode that runs, which isn't at a unit.
fn frames_in(quantize: u8, face: &Face) -> Option<u32>
    requires { is_placed face.now ≡ true }
    ensures { result ≡ frames_in face.now.mode quantize face.now }
{
    let unit = unit_of(quantize, face);
    match face.mode {
        Mode::Multiplying => {
            if is_whole(quantize) {
                Some(face.length - face.pos)
            } else {
                frames_up(unit, face.pos as u64)
            }
        }
        Mode::Inserting => {
            if is_whole(quantize) {
                None
            } else {
                frames_up(unit, face.pos as u64)
            }
        }
        _ => Some(frames_through(face.backward, unit, face.pos, face.length)),
    }
}

/// From a face to its next unit.
fn frames_to_unit(quantize: u8, face: &Face) -> Option<u32>
    ensures { result ≡ frames_to_unit quantize face.now }
{
    if !(is_running(face.mode) && is_placed(face))
        || is_multiple(face.pos as u64, unit_of(quantize, face))
    {
        Some(0)
    } else {
        frames_in(quantize, face)
    }
}

/// From the face of this index to its next unit.
fn frames_to_unit_of(faces: &[Face], index: usize, quantize: u8) -> Option<u32>
    ensures { result ≡ frames_to_unit_of quantize (slice_get faces.now index) }
{
    match faces.get(index) {
        Some(face) => frames_to_unit(quantize, face),
        None => Some(0),
    }
}

/// From a frame to the next pulse.
fn frames_to_pulse(pulse: u32, frame: u64) -> Option<u32>
    ensures { result ≡ frames_to_pulse pulse frame }
{
    if is_multiple(frame, pulse) {
        Some(0)
    } else {
        frames_up(pulse, frame)
    }
}

/// From this frame to the source's next boundary.
fn frames_to_boundary(faces: &[Face], setup: &SyncSetup) -> Option<u32>
    ensures { result ≡ frames_to_boundary setup.now.source setup.now.quantize setup.now.pulse
        setup.now.frame faces.now }
{
    if setup.source < 0 {
        frames_to_pulse(setup.pulse, setup.frame)
    } else if setup.source == 0 {
        Some(0)
    } else {
        frames_to_unit_of(faces, setup.source as usize - 1, setup.quantize)
    }
}

/// The least number of frames behind which `boundary` holds, 0 where it holds now, while the faces
/// go on frame by frame with no layer closing; `within` where there is none up to there.
pub fn next_boundary(faces: &[Face], setup: &SyncSetup, within: u32) -> u32
    ensures within { result ≤ within }
    ensures before { (frames : ℕ) → frames < result →
        is_boundary_behind setup.now.source setup.now.quantize setup.now.pulse setup.now.frame
        faces.now frames ≡ false }

    // It is the least: there is a boundary, where the faces are those of loops.
    ensures reached { result < within → AllByRecursion IsPlacedWhereRunning faces.now →
        is_boundary_behind setup.now.source setup.now.quantize setup.now.pulse setup.now.frame
        faces.now result ≡ true }
{
    if setup.quantize == 0 {
        return 0;
    }
    match frames_to_boundary(faces, setup) {
        Some(frames) => frames.min(within),
        None => within,
    }
}
