//! What a real end remembers of the first call that failed, for the program to tell.

use sl_base::Name;
use std::fmt::{Display, Formatter};
use std::{fmt, io};

/// What a keeper was asked for.
#[derive(Clone, Copy, Debug, PartialEq, Eq)]
pub enum Tried {
    Read,
    Write,
}

/// The first call on a keeper of real files that failed.
#[derive(Drop)]
pub struct FirstFault {
    pub tried: Tried,
    pub file: Name,
    /// The system's error.
    pub error: io::Error,
}

impl Display for FirstFault {
    fn fmt<W: fmt::Write>(&self, f: &mut Formatter<W>) -> fmt::Result {
        let tried = match self.tried {
            Tried::Read => "read",
            Tried::Write => "write",
        };
        write!(f, "cannot {tried} {}: {}", self.file.as_str(), self.error)
    }
}
