//! Bindings: what an event is bound to.

ghost use Rattle.std.specs.Prelude.{◌≡◌};
ghost use Rattle.midi_bindings.specs.Lines.{kind_word, is_binding};
ghost use Rattle.text_lines.specs.Presses.{is_press};

use sl_commands::{Command, Control, Target, in_range};

/// The kinds of events that a verb is given at.
#[derive(Clone, Copy, Debug, PartialEq, Eq)]
pub enum BindKind {
    /// A note on.
    On,
    /// A note off.
    Off,
    /// A program change.
    Program,
    /// A control change of 64 or more.
    High,
    /// A control change below 64.
    Low,
}

/// One line of bindings.
#[derive(Drop)]
pub enum Binding {
    /// A verb is given at each event of a kind.
    Give {
        kind: BindKind,
        /// 0 to 15.
        channel: u8,
        /// The note, the program or the controller, 0 to 127.
        number: u8,
        /// A press or a hit.
        command: Command,
    },
    /// A control goes from one value to another as the controller does.
    Sweep {
        /// 0 to 15.
        channel: u8,
        /// The controller, 0 to 127.
        number: u8,
        target: Target,
        control: Control,
        /// The value at 0.
        low: i32,
        /// The value at 127.
        high: i32,
    },
}

impl BindKind {
    /// The word in a line.
    pub fn word(self) -> &'static str
        ensures { result.now ≡ kind_word self }
    {
        match self {
            BindKind::On => "on",
            BindKind::Off => "off",
            BindKind::Program => "pc",
            BindKind::High => "cc",
            BindKind::Low => "co",
        }
    }
}

/// A verb is given to a loop that is there.
fn is_press(command: &Command, loops: u8) -> bool
    ensures { result ≡ is_press loops command.now }
{
    match command {
        Command::Down(target, _) | Command::Up(target, _) | Command::Hit(target, _) =>
            target.is_allowed(loops),
        _ => false,
    }
}

impl Binding {
    /// It says nothing that is out of range, where there are so many loops.
    pub fn is_allowed(&self, loops: u8) -> bool
        ensures { result ≡ is_binding loops self.now }
    {
        match self {
            Binding::Give {
                channel,
                number,
                command,
                ..
            } => *channel < 16 && *number < 128 && is_press(command, loops),
            Binding::Sweep {
                channel,
                number,
                target,
                control,
                low,
                high,
            } => *channel < 16
                && *number < 128
                && target.is_allowed(loops)
                && control.is_of_loop()
                && in_range(*control, *low, loops)
                && in_range(*control, *high, loops),
        }
    }
}
