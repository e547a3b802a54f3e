//! How a session ended, as a status.

ghost use Rattle.std.specs.Prelude.{◌≡◌};
ghost use Rattle.live_core.specs.Statuses.{status_of, last_status, number_of};

use audio_ends::AudioState;

/// How a session ended. Where several hold, the first of them in the order of `status_of`.
#[derive(Clone, Copy, Debug, PartialEq, Eq)]
pub enum LiveStatus {
    /// The input was read to its end, or a quit was taken.
    Done,
    /// A read of audio or of MIDI failed.
    ReadFault,
    /// A write of audio failed.
    WriteFault,
    /// The input ended within a frame.
    Torn,
    /// A receive of the link failed.
    LinkFault,
    /// There was no memory.
    Memory,
    /// All frames of a session were played.
    LongInput,
}

/// The status of a session, by whether there was no memory to hear a packet, whether a read of MIDI
/// failed, how the audio ended, whether all frames of a session were played, and whether a receive
/// failed.
pub fn status_of(
    memory: bool,
    midi_failed: bool,
    state: AudioState,
    all_played: bool,
    link_failed: bool,
) -> LiveStatus
    ensures { result ≡ status_of memory midi_failed state all_played link_failed }
{
    if memory {
        return LiveStatus::Memory;
    }
    if midi_failed {
        return LiveStatus::ReadFault;
    }
    match state {
        AudioState::ReadFault => LiveStatus::ReadFault,
        AudioState::WriteFault => LiveStatus::WriteFault,
        AudioState::Torn => LiveStatus::Torn,
        _ => last_status(all_played, link_failed),
    }
}

/// The status of a session whose audio had no fault and wasn't torn.
fn last_status(all_played: bool, link_failed: bool) -> LiveStatus
    ensures { result ≡ last_status all_played link_failed }
{
    if all_played {
        LiveStatus::LongInput
    } else if link_failed {
        LiveStatus::LinkFault
    } else {
        LiveStatus::Done
    }
}

impl LiveStatus {
    /// The number that the program tells and ends with.
    pub fn number(self) -> u8
        ensures { result ≡ number_of self }
    {
        match self {
            LiveStatus::Done => 0,
            LiveStatus::ReadFault => 4,
            LiveStatus::WriteFault => 5,
            LiveStatus::Torn => 6,
            LiveStatus::LinkFault => 7,
            LiveStatus::Memory => 8,
            LiveStatus::LongInput => 10,
        }
    }
}
