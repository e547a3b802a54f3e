//! Rings: what is sent is taken, in order, between two activities.
//!
//! - A ring is a bounded queue with two ends: a putter, which knows what was sent, and a taker,
//!   which knows what was taken. Each is owned by one activity, and no other can put or take.
//! - What is sent is what is taken, followed by what the ring holds: at most its capacity. At most
//!   its limit is ever sent, and each item may follow those before it, as its type says, under the
//!   ring's bound.
//! - A full ring hands the item back and changes nothing but the putter's count of fulls. An empty
//!   one gives nothing and raises the taker's count of nones.
//! - Two ends that meet know both lists, and drain what is left.
//!
//! Begin with `making`, then `putter`, `taker` and `met`. `rule` has the rule of a ring and what
//! its steps tell, and `laws` what holds of the definitions. A call that is handed a `Wait` may
//! wait for the other end's step, and isn't promised to return.
//! The rules are "Rings" in docs/rules.md.
#![tactic(auto)]

mod known;
pub mod laws;
mod making;
mod met;
mod putter;
mod rule;
mod taker;
#[cfg(test)]
mod tests;

pub use making::{MAX_CAPACITY, MAX_LIMIT, ring, ring_with};
pub use met::{Met, meet};
pub use putter::{Full, Putter};
pub use taker::Taker;
