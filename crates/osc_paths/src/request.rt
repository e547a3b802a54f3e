//! What a message asks for, and what is wrong with one.

ghost use Rattle.std.specs.Prelude.{◌≡◌, IsTrue, IfSome, IfNone, false};
ghost use Rattle.osc_reader.specs.Strings.{has_no_zero};
ghost use Rattle.osc_paths.specs.ReturnPaths.{is_return_path};
ghost use Rattle.osc_paths.specs.Answers.{fault_number};

use arrayvec::ArrayVec;
use sl_base::Addr;
use sl_commands::Command;
use std::marker::Model;

/// The path of a reply: it begins with `/`, and has 1 to 63 bytes, none of them zero.
#[derive(Drop)]
pub struct ReturnPath {
    bytes: ArrayVec<u8, 64>,
}

impl Model for ReturnPath {
    ghost use Rattle.std.specs.Prelude.{ℕ, List, IsTrue};
    ghost use Rattle.osc_reader.specs.Strings.{has_no_zero};
    ghost use Rattle.osc_paths.specs.ReturnPaths.{is_return_path};

    ghost Value = { List ℕ };

    ghost view = { λ p. p.bytes.items };

    ghost invariant = { λ p. IsTrue (is_return_path p.bytes.items)
        × IsTrue (has_no_zero p.bytes.items) };
}

/// The bytes are a return path.
fn is_return_path(path: &[u8]) -> bool
    ensures { result ≡ is_return_path path.now }
{
    match path {
        [first, ..] => *first == b'/' && path.len() <= 63,
        [] => false,
    }
}

impl ReturnPath {
    /// The return path that these bytes are. None of them is zero.
    pub fn read(path: &[u8]) -> Option<ReturnPath>
        requires { IsTrue (has_no_zero path.now) }
        ensures found { IfSome result (λ kept. (kept ≡ path.now) ×
            IsTrue (is_return_path path.now)) }
        ensures only { IfNone result (is_return_path path.now ≡ false) }
    {
        if !is_return_path(path) {
            return None;
        }
        let mut bytes = ArrayVec::new();
        match bytes.try_extend_from_slice(path) {
            Ok(()) => Some(ReturnPath { bytes }),
            Err(_) => None,
        }
    }

    pub fn as_bytes(&self) -> &[u8]
        ensures value { result.now ≡ self.now }
        ensures within { IsTrue (is_return_path self.now) }
        ensures plain { IsTrue (has_no_zero self.now) }
    {
        self.bytes.as_slice()
    }
}

/// Where a reply goes.
#[derive(Drop)]
pub struct ReturnTo {
    pub addr: Addr,
    pub path: ReturnPath,
}

/// What a message asks for.
#[derive(Drop)]
pub enum Request {
    /// A command to be played, and where its reply goes, if it has one.
    Play(Command, Option<ReturnTo>),
    /// An answer at once.
    Ping(ReturnTo),
}

/// What is wrong with a message, in the order in which the faults are tried.
#[derive(Clone, Copy, Debug, PartialEq, Eq)]
pub enum PathFault {
    /// The address isn't in the table, or names a loop that isn't there.
    UnknownPath,
    /// The arguments have other types than the path asks for.
    BadArguments,
    /// There is no such verb.
    UnknownCommand,
    /// There is no such control, or not for this path.
    UnknownControl,
    /// The value isn't in the control's range.
    OutOfRange,
    /// The return address or the return path isn't one.
    BadUrl,
    /// The name isn't one, or too long for a session.
    BadName,
}

impl PathFault {
    /// The number of the fault, 1 to 7.
    pub fn number(self) -> u8
        ensures { result ≡ fault_number self }
    {
        self as u8 + 1
    }
}
