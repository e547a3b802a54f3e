//! The words of all commands.

ghost use Rattle.std.specs.Prelude.{map};
ghost use Rattle.std.specs.String.{string_bytes};
ghost use Rattle.command_words.specs.Answering.{GivesWords};

use crate::fault::WordsFault;
use crate::live::{Live, live_words};
use crate::plain::{Drill, Plain, Render, Show, plain_words};
use std::alloc::Global;

/// What the words ask for, one variant a command.
#[derive(Drop)]
pub enum Words {
    /// `render IN JOURNAL OUT` with its options.
    Render(Render),
    /// `drill NUMBER STEPS`.
    Drill(Drill),
    /// `show NAME`.
    Show(Show),
    /// `live` with its options.
    Live(Live),
}

/// What the words ask for, whichever the command.
pub fn words_of(alloc: Global, words: &[String]) -> Result<Words, WordsFault>
    ensures { GivesWords (map string_bytes words.now) result }
{
    match plain_words(words) {
        Ok(Plain::Render(render)) => Ok(Words::Render(render)),
        Ok(Plain::Drill(drill)) => Ok(Words::Drill(drill)),
        Ok(Plain::Show(show)) => Ok(Words::Show(show)),
        Err(_) => match live_words(alloc, words) {
            Ok(live) => Ok(Words::Live(live)),
            Err(fault) => Err(fault),
        },
    }
}
