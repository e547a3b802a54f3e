//! Messages and their arguments.

ghost use Rattle.std.specs.Prelude.{◌≡◌, [], ◌∷◌, ◌++◌, length, IsTrue, OnOk, OnErr};
ghost use Rattle.osc_reader.specs.Strings.{has_no_zero};

use sl_base::Memory;
use std::alloc::Global;
use std::marker::Model;

/// A text of bytes, none of them zero.
#[derive(Drop)]
pub struct Text {
    bytes: Vec<u8>,
}

impl Model for Text {
    ghost use Rattle.std.specs.Prelude.{ℕ, List, IsTrue};
    ghost use Rattle.osc_reader.specs.Strings.{has_no_zero};

    ghost Value = { List ℕ };

    ghost view = { λ t. t.bytes.items };

    ghost invariant = { λ t. IsTrue (has_no_zero t.bytes.items) };
}

impl Text {
    /// The text of a vector, in which no byte is zero.
    pub fn of(bytes: Vec<u8>) -> Text
        requires { IsTrue (has_no_zero bytes.items) }
        ensures { result ≡ bytes.items }
    {
        Text { bytes }
    }

    pub fn as_bytes(&self) -> &[u8]
        ensures value { result.now ≡ self.now }
        ensures within { IsTrue (has_no_zero self.now) }
    {
        &self.bytes
    }
}

/// An argument of a message.
#[derive(Drop)]
pub enum Arg {
    Int(i32),
    Text(Text),
    /// One of another type, which is read over: a float or a blob.
    Foreign,
}

/// The arguments of a message, in order. It owns them.
#[derive(Drop)]
pub struct Args {
    args: Vec<Arg>,
}

impl Model for Args {
    ghost use Rattle.std.specs.Prelude.{List};
    ghost use Rattle.osc_reader.specs.declared.message.Arg.{Arg};

    ghost Value = { List Arg };

    ghost view = { λ a. a.args.items };
}

impl Args {
    /// The arguments of a vector.
    pub fn of(args: Vec<Arg>) -> Args
        ensures { result ≡ args.items }
    {
        Args { args }
    }

    pub fn as_slice(&self) -> &[Arg]
        ensures { result.now ≡ self.now }
    {
        &self.args
    }
}

/// One message: what it is about, and what it says.
#[derive(Drop)]
pub struct Message {
    /// It begins with `/` where it was read.
    pub address: Text,
    pub args: Args,
}

/// Messages, in order. It owns them.
#[derive(Drop)]
pub struct Messages {
    messages: Vec<Message>,
}

impl Model for Messages {
    ghost use Rattle.std.specs.Prelude.{List};
    ghost use Rattle.osc_reader.specs.declared.message.Message.{Message};

    ghost Value = { List Message };

    ghost view = { λ m. m.messages.items };
}

impl Messages {
    /// No messages.
    pub fn new(alloc: Global) -> Messages
        ensures { result ≡ [] }
    {
        Messages {
            messages: Vec::new(alloc),
        }
    }

    /// Puts one message at the end.
    pub fn push(&mut self, message: Message) -> Result<(), Memory>
        ensures ok { OnOk result (self.new ≡ self.old ++ message ∷ []) }
        ensures unchanged { OnErr result (self.new ≡ self.old) }
    {
        match self.messages.push(message) {
            Ok(()) => Ok(()),
            Err(_) => Err(Memory),
        }
    }

    pub fn as_slice(&self) -> &[Message]
        ensures { result.now ≡ self.now }
    {
        &self.messages
    }

    /// How many messages there are.
    pub fn len(&self) -> usize
        ensures { result ≡ length self.now }
    {
        self.messages.len()
    }
}
