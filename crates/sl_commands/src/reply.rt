//! Answers to gets and saves.

ghost use Rattle.std.specs.Prelude.{◌≡◌};
ghost use Rattle.sl_commands.specs.Replies.{what_name};

use crate::control::Control;

/// What a reply tells: the value of a control, or how the save of a loop or of a session ended.
#[derive(Clone, Copy, PartialEq, Eq)]
pub enum What {
    Value(Control),
    Save,
    Session,
}

impl What {
    /// The name in messages and texts: the control's, `save_loop` or `save_session`.
    pub fn name(self) -> &'static str
        ensures { result.now ≡ what_name self }
    {
        match self {
            What::Value(control) => control.name(),
            What::Save => "save_loop",
            What::Session => "save_session",
        }
    }
}

/// The answer to a get or a save, with the sender and the number of what it answers.
/// `index` is the loop's, or -2 for the looper's controls and for a session.
#[derive(Clone, Copy, PartialEq, Eq)]
pub struct Reply {
    pub sender: u8,
    pub seq: u32,
    pub index: i32,
    pub what: What,
    pub value: i32,
}
