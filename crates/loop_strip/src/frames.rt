//! Frames: one of them step by step (`frame`, `advance`), and any number of them (`play`).

mod advance;
pub(crate) mod frame;
mod play;
