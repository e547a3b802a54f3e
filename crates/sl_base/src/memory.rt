//! Want of memory, and of chunks.

use std::alloc::{AllocError, AllocFailed};

/// The answer for want of memory. What was asked is then not done.
#[derive(Clone, Copy, Debug, PartialEq, Eq)]
pub struct Memory;

impl From<AllocError> for Memory {
    fn from(_: AllocError) -> Memory {
        Memory
    }
}

impl<T: Drop> From<AllocFailed<T>> for Memory {
    fn from(_: AllocFailed<T>) -> Memory {
        Memory
    }
}

/// What there was too little of, so that something isn't made.
#[derive(Clone, Copy, Debug, PartialEq, Eq)]
pub enum Shortage {
    /// More chunks of tape are needed than there are.
    Limit,
    /// Out of memory.
    Memory,
}
