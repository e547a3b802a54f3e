//! What is wrong with a text, and where.

ghost use Rattle.std.specs.Prelude.{◌≡◌};
ghost use Rattle.sl_commands.specs.TextFaults.{kind_number};

/// What is wrong with a line of a text.
#[derive(Clone, Copy, Debug, PartialEq, Eq)]
pub enum TextKind {
    /// The first line isn't the one that is due.
    Header,
    /// The line isn't of a form that may stand there.
    Form,
    /// A number or name is outside its range or table.
    Value,
    /// The line stands out of order.
    Order,
    /// It is the first line too many.
    TooMany,
    /// The line `end` is missing or isn't whole, or something follows it.
    Ending,
}

impl TextKind {
    /// The number of the kind, 1 to 6.
    pub fn number(self) -> u8
        ensures { result ≡ kind_number self }
    {
        self as u8 + 1
    }
}

/// The first fault of a text: its line, counted from 1, and its kind.
#[derive(Clone, Copy, Debug, PartialEq, Eq)]
pub struct TextFault {
    pub line: u32,
    pub kind: TextKind,
}

/// Why a text wasn't read.
#[derive(Clone, Copy, Debug, PartialEq, Eq)]
pub enum ReadText {
    Fault(TextFault),
    Memory,
}
