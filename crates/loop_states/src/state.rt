//! The number of a loop's state.

ghost use Rattle.std.specs.Prelude.{◌≡◌, pos};
ghost use Rattle.looper_rules.specs.Values.{state_number, mode_number, state_in};

use sl_commands::{Face, Mode, Verb};

/// The number of a mode where nothing waits.
fn mode_number(mode: Mode) -> i32
    ensures { result ≡ pos (mode_number mode) }
{
    match mode {
        Mode::Off => 0,
        Mode::WaitStart => 1,
        Mode::Recording => 2,
        Mode::Playing => 4,
        Mode::Overdubbing => 5,
        Mode::Multiplying => 6,
        Mode::Inserting => 7,
        Mode::Replacing => 8,
        Mode::Muted => 10,
        Mode::OneShot => 12,
        Mode::Substituting => 13,
        Mode::Paused => 14,
    }
}

/// The number of a state in this mode.
fn state_in(mode: Mode, waiting: Option<Verb>, rounding: bool) -> i32
    ensures { result ≡ pos (state_in mode waiting rounding) }
{
    match mode {
        Mode::Off => match waiting {
            Some(Verb::Rec) => 1,
            _ => 0,
        },
        Mode::Recording => if waiting.is_some() { 3 } else { 2 },
        Mode::Multiplying => if rounding { 3 } else { 6 },
        Mode::Inserting => if rounding { 3 } else { 7 },
        _ => mode_number(mode),
    }
}

/// What a get of `state` answers: 0 to 14.
pub fn state_number(face: &Face) -> i32
    ensures { result ≡ pos (state_number face.now) }
{
    state_in(face.mode, face.waiting, face.rounding)
}
