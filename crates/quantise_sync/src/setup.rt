//! By what a boundary is told, beside the faces.

/// `source` is -3 for the pulse, 0 for none, or a loop's number counted from 1. `quantize` is that
/// of the loop whose verb waits, `pulse` is frames, and `frame` is the number of this frame.
#[derive(Clone, Copy, PartialEq, Eq)]
pub struct SyncSetup {
    pub source: i32,
    pub quantize: u8,
    pub pulse: u32,
    pub frame: u64,
}
