//! How the audio stands behind a turn.

ghost use Rattle.std.specs.Prelude.{◌≡◌};
ghost use Rattle.audio_ends.specs.States.{state_of};

use crate::fill::Halt;
use crate::stop::Stop;
use sl_ports::SinkAnswer;

/// How the audio stands. Where several hold, the first of them in this order, and `More` where none
/// does.
#[derive(Clone, Copy, Debug, PartialEq, Eq)]
pub enum AudioState {
    /// The source failed.
    ReadFault,
    /// The sink failed.
    WriteFault,
    /// The source is at its end, within a frame.
    Torn,
    /// The source is at its end.
    EndOfInput,
    /// A quit was taken.
    Quit,
    /// All frames of a session are done.
    LongInput,
    More,
}

/// What a turn tells: how many frames it played, why it took and put no more, and how the audio
/// stands.
#[derive(Clone, Copy, Debug, PartialEq, Eq)]
pub struct Turn {
    pub frames: u32,
    pub osc: Stop,
    pub midi: Stop,
    pub saver: Stop,
    pub blocks: Stop,
    pub state: AudioState,
}

/// How the audio stands, by what stopped reading, what came of the write, how many bytes are kept,
/// whether a quit was taken, and whether all frames of a session are done.
pub fn state_of(
    halt: Halt,
    answer: SinkAnswer,
    kept: usize,
    quit: bool,
    all_done: bool,
) -> AudioState
    ensures { result ≡ state_of halt answer kept quit all_done }
{
    if let Halt::Failed = halt {
        return AudioState::ReadFault;
    }
    if let SinkAnswer::Failed = answer {
        return AudioState::WriteFault;
    }
    if let Halt::End = halt {
        return if kept == 0 {
            AudioState::EndOfInput
        } else {
            AudioState::Torn
        };
    }
    if quit {
        AudioState::Quit
    } else if all_done {
        AudioState::LongInput
    } else {
        AudioState::More
    }
}
