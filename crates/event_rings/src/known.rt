//! What an end of a ring knows.

use std::collections::LinkedList;

/// What an end may do, what it knows to be sent and taken, and the ring's numbers. No value of it
/// is ever made.
pub struct Known<T> {
    pub puts: bool,
    pub takes: bool,
    pub sent: LinkedList<T>,
    pub taken: LinkedList<T>,
    pub capacity: u64,
    pub limit: u64,
    pub bound: u64,
}
