//! Whether a frame is a boundary.

ghost use Rattle.std.specs.Prelude.{◌≡◌, ◌%◌, ◌==◌, Some, slice_get};
ghost use Rattle.looper_rules.specs.Boundaries.{is_running, unit_of, source_at_unit, source_at_boundary, is_boundary};

use crate::setup::SyncSetup;
use sl_commands::{Face, Mode};

/// A loop in this mode is running.
pub(crate) fn is_running(mode: Mode) -> bool
    ensures { result ≡ is_running mode }
{
    matches!(
        mode,
        Mode::Playing
            | Mode::Overdubbing
            | Mode::Multiplying
            | Mode::Inserting
            | Mode::Replacing
            | Mode::Substituting
            | Mode::Muted
            | Mode::OneShot
    )
}

/// The unit of a source in frames, by the quantize of the loop that waits.
pub(crate) fn unit_of(quantize: u8, source: &Face) -> u32
    ensures { result ≡ unit_of quantize source.now }
{
    if quantize == 1 {
        source.cycle
    } else if quantize == 2 {
        (source.cycle / 8).max(1)
    } else {
        source.length
    }
}

/// Whether a number is a multiple of a unit. Of 0 only 0 is one.
pub(crate) fn is_multiple(number: u64, unit: u32) -> bool
    ensures { result ≡ (number % unit == 0) }
{
    if unit == 0 {
        number == 0
    } else {
        number % unit as u64 == 0
    }
}

/// Whether the source is at a unit, or isn't running.
fn source_at_unit(quantize: u8, source: &Face) -> bool
    ensures { result ≡ source_at_unit quantize (Some source.now) }
{
    !is_running(source.mode) || is_multiple(source.pos as u64, unit_of(quantize, source))
}

/// Whether the loop of this index is at a unit, isn't running or isn't there.
fn loop_at_unit(faces: &[Face], index: usize, quantize: u8) -> bool
    ensures { result ≡ source_at_unit quantize (slice_get faces.now index) }
{
    match faces.get(index) {
        Some(source) => source_at_unit(quantize, source),
        None => true,
    }
}

/// Whether the source is at a boundary.
fn source_at_boundary(faces: &[Face], setup: &SyncSetup) -> bool
    ensures { result ≡ source_at_boundary setup.now.source setup.now.quantize setup.now.pulse
        setup.now.frame faces.now }
{
    if setup.source < 0 {
        is_multiple(setup.frame, setup.pulse)
    } else if setup.source == 0 {
        true
    } else {
        loop_at_unit(faces, setup.source as usize - 1, setup.quantize)
    }
}

/// Whether this frame is a boundary, by the faces of all loops.
pub fn boundary(faces: &[Face], setup: &SyncSetup) -> bool
    ensures { result ≡ is_boundary setup.now.source setup.now.quantize setup.now.pulse
        setup.now.frame faces.now }
{
    setup.quantize == 0 || source_at_boundary(faces, setup)
}
