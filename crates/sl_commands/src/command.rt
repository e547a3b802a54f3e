//! Commands, and the loops that they are for.

ghost use Rattle.std.specs.Prelude.{◌≡◌};
ghost use Rattle.sl_base.specs.Names.{is_name};
ghost use Rattle.sl_commands.specs.Commands.{target_number, numbered_target, is_target, is_single_target, is_release_target, is_outcome, is_session_name, is_allowed};
ghost use Rattle.sl_commands.specs.Blocks.{first_index};

use crate::control::{Control, in_range};
use crate::verb::Verb;
use sl_base::{MAX_SESSION_NAME, Name};

/// The loops that a command is for: the one of this index, all, or the selected one.
#[derive(Clone, Copy, PartialEq, Eq)]
pub enum Target {
    One(u8),
    All,
    Selected,
}

impl Target {
    /// The number in messages and texts: the loop's index, -1 for all loops, -3 for the selected
    /// one.
    pub fn number(self) -> i32
        ensures { result ≡ target_number self }
    {
        match self {
            Target::One(index) => index as i32,
            Target::All => -1,
            Target::Selected => -3,
        }
    }

    /// The target with this number, or None for another number than -3, -1, and 0 to 255.
    pub fn numbered(number: i64) -> Option<Target>
        ensures { result ≡ numbered_target number }
    {
        if 0 <= number && number <= 255 {
            Some(Target::One(number as u8))
        } else if number == -1 {
            Some(Target::All)
        } else if number == -3 {
            Some(Target::Selected)
        } else {
            None
        }
    }

    /// It names no loop that isn't there.
    pub fn is_allowed(self, loops: u8) -> bool
        ensures { result ≡ is_target loops self }
    {
        match self {
            Target::One(index) => index < loops,
            _ => true,
        }
    }

    /// The same, where all loops at once are no target.
    pub fn is_single(self, loops: u8) -> bool
        ensures { result ≡ is_single_target loops self }
    {
        match self {
            Target::One(index) => index < loops,
            Target::All => false,
            Target::Selected => true,
        }
    }

    /// The same for a release, where the selected loop is no target.
    pub fn is_release(self, loops: u8) -> bool
        ensures { result ≡ is_release_target loops self }
    {
        match self {
            Target::One(index) => index < loops,
            Target::All => true,
            Target::Selected => false,
        }
    }

    /// The index of the first list of a save with this target.
    pub fn first_index(self) -> u8
        ensures { result ≡ first_index self }
    {
        match self {
            Target::One(index) => index,
            _ => 0,
        }
    }
}

/// One command. A `Set` and a `Get` are of a loop's control, a `SetGlobal` and a `GetGlobal` of the
/// looper's.
#[derive(Drop, PartialEq, Eq)]
pub enum Command {
    Down(Target, Verb),
    Up(Target, Verb),
    Hit(Target, Verb),
    Set(Target, Control, i32),
    SetGlobal(Control, i32),
    Get(Target, Control),
    GetGlobal(Control),
    SaveLoop(Target, Name),
    SaveSession(Name),
    /// The saver's word that a save has ended: 0 all is written, 1 the keeper failed, 4 there was
    /// no memory.
    Release(Target, u8),
    Quit,
}

/// A save may end so: 0 all is written, 1 the keeper failed, 4 there was no memory.
pub fn is_outcome(outcome: u8) -> bool
    ensures { result ≡ is_outcome outcome }
{
    matches!(outcome, 0 | 1 | 4)
}

/// A name that leaves room for the names of a session's files.
pub fn is_session_name(name: &Name) -> bool
    ensures { result ≡ is_session_name name.now }
{
    name.as_bytes().len() <= MAX_SESSION_NAME
}

/// Each name is one.
fn is_name(name: &Name) -> bool
    ensures { result ≡ is_name name.now }
{
    let _bytes = name.as_bytes();
    true
}

impl Command {
    /// The same command once more.
    pub fn duplicate(&self) -> Command
        ensures { result ≡ self.now }
    {
        match self {
            Command::Down(target, verb) => Command::Down(*target, *verb),
            Command::Up(target, verb) => Command::Up(*target, *verb),
            Command::Hit(target, verb) => Command::Hit(*target, *verb),
            Command::Set(target, control, value) => Command::Set(*target, *control, *value),
            Command::SetGlobal(control, value) => Command::SetGlobal(*control, *value),
            Command::Get(target, control) => Command::Get(*target, *control),
            Command::GetGlobal(control) => Command::GetGlobal(*control),
            Command::SaveLoop(target, name) => Command::SaveLoop(*target, name.duplicate()),
            Command::SaveSession(name) => Command::SaveSession(name.duplicate()),
            Command::Release(target, outcome) => Command::Release(*target, *outcome),
            Command::Quit => Command::Quit,
        }
    }

    /// It says nothing that is out of range, where there are so many loops.
    pub fn is_allowed(&self, loops: u8) -> bool
        ensures { result ≡ is_allowed loops self.now }
    {
        match self {
            Command::Down(target, _) | Command::Up(target, _) | Command::Hit(target, _) =>
                target.is_allowed(loops),
            Command::Set(target, control, value) => {
                target.is_allowed(loops)
                    && control.is_of_loop()
                    && in_range(*control, *value, loops)
            }
            Command::SetGlobal(control, value) => !control.is_of_loop()
                && in_range(*control, *value, loops),
            Command::Get(target, control) => target.is_single(loops) && control.is_of_loop(),
            Command::GetGlobal(control) => !control.is_of_loop(),
            Command::SaveLoop(target, name) => target.is_single(loops) && is_name(name),
            Command::SaveSession(name) => is_session_name(name),
            Command::Release(target, outcome) => target.is_release(loops) && is_outcome(*outcome),
            Command::Quit => true,
        }
    }
}
