//! Why words name no command.

use thiserror::Error;

/// Why words name no command.
#[derive(Clone, Copy, Debug, PartialEq, Eq, Error)]
pub enum WordsFault {
    /// They aren't in the grammar.
    #[error("the words are none of `render`, `drill`, `show` and `live` with what each takes")]
    Words,
    /// They are in the grammar, and a path among them couldn't be copied.
    #[error("out of memory")]
    Memory,
}
