//! How a verb is given.

ghost use Rattle.std.specs.Prelude.{◌≡◌};
ghost use Rattle.loop_strip.specs.declared.given.Press.TheVariants.{Hit};

use sl_commands::Verb;

/// A verb is pressed, let go, or given at once.
#[derive(Clone, Copy, PartialEq, Eq)]
pub enum Press {
    Down,
    Up,
    Hit,
}

/// A verb that is given. `frame` is the number of the coming frame, and `long_press` the frames of
/// a long press.
#[derive(Clone, Copy, PartialEq, Eq)]
pub struct Given {
    pub press: Press,
    pub verb: Verb,
    pub frame: u64,
    pub long_press: u32,
}

impl Given {
    /// A verb given at once, at whatever frame.
    pub fn hit(verb: Verb) -> Given
        ensures { result ≡ record { press = Hit; verb = verb; frame = 0; long_press = 0 } }
    {
        Given {
            press: Press::Hit,
            verb,
            frame: 0,
            long_press: 0,
        }
    }
}
