//! What an entry gives.

use sl_commands::Reply;

/// The reply to an entry, where it gives one, and whether it made a save.
#[derive(Clone, Copy, PartialEq, Eq)]
pub struct Applied {
    pub answer: Option<Reply>,
    pub made_save: bool,
}
