//! Lists of pieces: stretches of addresses, one behind the other, that stand for a list of
//! addresses.
//!
//! - A piece has at least one address, and goes forward or backward. All its addresses lie within 0
//!   and 4294967295.
//! - `PieceList` has room for a number of pieces, which is taken when it is made. No other call
//!   takes memory.
//! - Each edit says the list of addresses afterwards, as the plain edit of a list, and the very
//!   pieces.
//! - One address more grows the piece that it goes on from. So a streak of writes in order adds
//!   pieces at its first alone.
//! - A list keeps a hint: where it was worked on last. What is read or written in order is found
//!   from there.
//!
//! Begin with `piece`, then `list` and `calls`; `find` seeks places, `edit` works on the vector.
//! The rules are "Pieces" in docs/rules.md.
#![tactic(auto)]

mod calls;
mod edit;
mod find;
mod list;
mod piece;
mod replace;
#[cfg(test)]
mod tests;

pub use calls::{cut, repeat, splice, split_at};
pub use edit::{push_all, total_in};
pub use find::{Hint, address_from, address_of, find_from, nearest, piece_from};
pub use list::PieceList;
pub use piece::Piece;
