//! What the activity of audio owns beside the engine, the source and the sink.

ghost use Rattle.std.specs.Prelude.{◌≡◌, ◌≤◌, []};
ghost use Rattle.sl_base.specs.Limits.{max_period};
ghost use Rattle.wav_pcm.specs.WavText.{IsFormat};
ghost use Rattle.audio_ends.specs.Did.{IsReady};

use crate::rings::RingEnds;
use arrayvec::ArrayVec;
use sl_base::Frame;

/// The greatest number of frames of a period.
pub const MOST_FRAMES: usize = 8192;

/// The bytes of so many frames, of 2 channels of 16 bits.
pub const MOST_BYTES: usize = 32768;

/// The ends of the five rings, the bytes of a frame that isn't whole yet, and the buffers of a
/// period. What stands in the buffers between two turns means nothing.
#[derive(Drop)]
pub struct AudioEnds {
    pub rings: RingEnds,
    /// At most 3 bytes.
    pub rest: ArrayVec<u8, 4>,
    /// 1 or 2.
    pub channels: u8,
    /// How many frames a period has, 1 to 8192.
    pub most: usize,
    pub frames: [Frame; MOST_FRAMES],
    pub heard: [Frame; MOST_FRAMES],
    pub bytes: [u8; MOST_BYTES],
}

impl AudioEnds {
    /// Ends over these rings, for periods of at most `most` frames. No memory is taken.
    pub fn new(rings: RingEnds, channels: u8, most: usize) -> AudioEnds
        requires format { IsFormat channels 16 }
        requires some { 1 ≤ most }
        requires within { most ≤ max_period }
        ensures rings { result.rings ≡ rings }
        ensures rest { result.rest.items ≡ [] }
        ensures period { (result.channels ≡ channels) × (result.most ≡ most) }
        ensures ready { IsReady result }
    {
        AudioEnds {
            rings,
            rest: ArrayVec::new(),
            channels,
            most,
            frames: [Frame::silence(); MOST_FRAMES],
            heard: [Frame::silence(); MOST_FRAMES],
            bytes: [0; MOST_BYTES],
        }
    }
}
