//! What no clause says: the calls give what they say where they run.

ghost use Rattle.std.specs.Prelude.{◌≤◌};

use crate::{Act, Face, Mode, Move, decide, state_number};
use sl_commands::Verb;

/// A loop of four frames that plays.
fn playing() -> Face
    ensures { result.base ≤ result.length }
{
    Face {
        mode: Mode::Playing,
        rounding: false,
        pos: 2,
        backward: false,
        length: 4,
        cycle: 4,
        base: 0,
        layers: 1,
        redo: 0,
        waiting: None,
        press: None,
        refused: 0,
        pinned: false,
    }
}

fn are(act: &Act, moves: &[Move]) -> bool {
    if act.len() != moves.len() {
        return false;
    }
    for i in 0..moves.len() {
        if act.at(i) != moves[i] {
            return false;
        }
    }
    true
}

#[test]
fn an_overdub_begins_and_ends(rt: HostRuntime) {
    let mut face = playing();
    let begun = decide(&face, false, Verb::Overdub);
    assert!(rt; are(&begun, &[Move::Begin(Verb::Overdub)]));
    face.mode = Mode::Overdubbing;
    let ended = decide(&face, false, Verb::Overdub);
    assert!(rt; are(&ended, &[Move::Close]));
}

#[test]
fn a_oneshot_leaves_a_wait_first(rt: HostRuntime) {
    let mut face = playing();
    face.mode = Mode::WaitStart;
    let act = decide(&face, false, Verb::OneShot);
    assert!(rt;
        are(
            &act,
            &[Move::LeaveWait, Move::ToStart, Move::SetMode(Mode::OneShot)]
        )
    );
}

#[test]
fn a_state_has_its_number(rt: HostRuntime) {
    let mut face = playing();
    assert!(rt; state_number(&face) == 4);
    face.mode = Mode::Off;
    face.waiting = Some(Verb::Rec);
    assert!(rt; state_number(&face) == 1);
}
