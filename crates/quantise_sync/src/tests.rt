//! A loop of 12 frames with a cycle of 8 as the source, and the pulse.

use super::*;
use sl_commands::{Face, Mode};

/// The source at a place.
fn source(mode: Mode, pos: u32, backward: bool) -> Face {
    Face {
        mode,
        rounding: false,
        pos,
        backward,
        length: 12,
        cycle: 8,
        base: 12,
        layers: 1,
        redo: 0,
        waiting: None,
        press: None,
        refused: 0,
        pinned: false,
    }
}

/// A loop that waits for the first loop, with this quantize.
fn waits_for_the_first(quantize: u8) -> SyncSetup {
    SyncSetup {
        source: 1,
        quantize,
        pulse: 24000,
        frame: 100,
    }
}

#[test]
fn the_next_boundary_is_at_a_unit_or_at_the_list_end(rt: HostRuntime) {
    let rows = [
        ("up to the cycle", Mode::Playing, 5, false, 1, 3),
        ("round at the end", Mode::Muted, 9, false, 1, 3),
        ("each eighth", Mode::Playing, 5, false, 2, 0),
        ("down to the cycle", Mode::Playing, 11, true, 1, 3),
        ("a multiple goes on", Mode::Multiplying, 9, false, 1, 7),
        ("an insert never ends", Mode::Inserting, 5, false, 3, 50),
        ("a paused source is none", Mode::Paused, 5, false, 1, 0),
    ];
    for (name, mode, pos, backward, quantize, frames) in rows {
        let faces = [source(mode, pos, backward)];
        let next = next_boundary(&faces, &waits_for_the_first(quantize), 50);
        assert!(rt; next == frames, "{name}");
        let now = boundary(&faces, &waits_for_the_first(quantize));
        assert!(rt; now == (frames == 0), "{name}");
    }
}

#[test]
fn the_pulse_and_a_source_that_is_not_there(rt: HostRuntime) {
    let pulse = SyncSetup {
        source: -3,
        quantize: 1,
        pulse: 48,
        frame: 100,
    };
    assert_eq!(rt; next_boundary(&[], &pulse, 1024), 44);
    assert_eq!(rt; next_boundary(&[], &pulse, 10), 10);
    assert!(rt; boundary(&[], &waits_for_the_first(3)));
    let off = SyncSetup {
        quantize: 0,
        ..pulse
    };
    assert!(rt; boundary(&[], &off));
}
