//! Why the parts of a turn end.

/// Why a part of a turn ended.
#[derive(Clone, Copy, Debug, PartialEq, Eq)]
pub enum Stop {
    /// The ring held nothing more, or no block was left.
    Emptied,
    /// As many items were moved as a turn may move.
    Budget,
    /// A ring on which to put was full.
    Held,
    /// No save waits for its outcome.
    Unasked,
}

/// Why the takes from each ring ended.
#[derive(Clone, Copy)]
pub struct Stops {
    pub osc: Stop,
    pub midi: Stop,
    pub saver: Stop,
}
