//! What goes by the mode alone: how a frame is written, which mode comes behind a wrap, and the
//! cycle that a save tells. Whether a mode writes, and whose it is, `Mode` itself says.

ghost use Rattle.std.specs.Prelude.{◌≡◌};
ghost use Rattle.looper_rules.specs.LoopFrame.{how_in, wrapped_mode};
ghost use Rattle.looper_rules.specs.Saves.{saved_cycle};

use sl_commands::{How, Mode};

/// How a frame is written in this mode and direction.
pub(crate) fn how_in(mode: Mode, backward: bool) -> How
    ensures { result ≡ how_in mode backward }
{
    match mode {
        Mode::Recording => How::Append,
        Mode::Inserting => How::Insert,
        _ => if backward {
            How::Backward
        } else {
            How::Forward
        },
    }
}

/// The mode behind a wrap.
pub(crate) fn wrapped_mode(mode: Mode) -> Mode
    ensures { result ≡ wrapped_mode mode }
{
    match mode {
        Mode::OneShot => Mode::Muted,
        _ => mode,
    }
}

/// The cycle that a save tells of a loop in this mode.
pub(crate) fn saved_cycle(mode: Mode, length: u32, cycle: u32) -> u32
    ensures { result ≡ saved_cycle mode length cycle }
{
    match mode {
        Mode::Recording => length,
        _ => cycle,
    }
}
