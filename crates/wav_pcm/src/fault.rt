//! Why a WAV file isn't read.

ghost use Rattle.std.specs.Prelude.{◌≡◌};
ghost use Rattle.wav_pcm.specs.Faults.{fault_number};

/// Why a WAV file isn't read: the first test that fails, or want of memory.
#[derive(Clone, Copy, Debug, PartialEq, Eq)]
pub enum WavFault {
    /// It doesn't begin as RIFF WAVE does.
    NotRiff,
    /// No format chunk stands before the samples.
    NoFormat,
    /// The format isn't 1 or 2 channels of plain numbers of 16 or 24 bits at 1 to 768000 frames a
    /// second.
    Unsupported,
    /// There is no `data` chunk.
    NoData,
    /// Fewer bytes are left than the size of `data` says.
    Truncated,
    /// The samples aren't whole frames.
    TornFrame,
    Memory,
}

impl WavFault {
    /// The number of the fault, 1 to 7.
    pub fn number(self) -> u8
        ensures { result ≡ fault_number self }
    {
        self as u8 + 1
    }
}
