//! OSC messages as commands.
//!
//! - `command_of` says what a message asks for, where there are so many loops: a command with where
//!   its reply goes, or an answer to a ping. The table of paths says which addresses there are and
//!   what their arguments are.
//! - Every other message has one fault, the first of seven in their order: the path, the arguments,
//!   the verb, the control, the value, the return address or path, the name.
//! - `url_of` reads a return address exactly where it is spelled so; an empty one is where the
//!   packet came from.
//! - No call takes memory.
//!
//! Begin with `path` and `request`, then `command`; `url` has return addresses.
//! The rules are "OSC paths" in docs/formats.md.
#![tactic(auto)]

mod command;
mod path;
mod request;
#[cfg(test)]
mod tests;
mod text;
mod url;

pub use command::command_of;
pub use path::Path;
pub use request::{PathFault, Request, ReturnPath, ReturnTo};
pub use url::url_of;
