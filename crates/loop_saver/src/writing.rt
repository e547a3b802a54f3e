//! Writing one file of a save.

ghost use Rattle.std.specs.Prelude.{◌≡◌, ◌≤◌, ◌∷◌, [], length};
ghost use Rattle.sl_base.specs.Limits.{max_list_frames, max_rate};
ghost use Rattle.loop_saver.specs.SavedFiles.{list_file, text_file};
ghost use Rattle.loop_saver.specs.Accepting.{Writes};
ghost use Rattle.sl_commands.specs.declared.Target.TheVariants.{All};

use crate::ending::Ending;
use session_file::session_text;
use sl_base::{Frame, Name};
use sl_commands::Settings;
use sl_ports::{KeepAnswer, Keeper};
use std::alloc::Global;
use wav_pcm::wav_text;

/// Writes a file of these bytes.
#[tactic(auto, using(crate::proofs::AcceptLemmas::one_failed))]
fn write<P: Keeper>(alloc: Global, keeper: &mut P, name: &Name, bytes: &[u8]) -> Ending
    ensures reads { P.read_faults keeper.new ≡ P.read_faults keeper.old }
    ensures value { Writes P.Keeper (record { name = name.now; bytes = bytes.now } ∷ []) keeper.old
        keeper.new result }
{
    match keeper.write_file(alloc, name, bytes) {
        KeepAnswer::Done => Ending::Written,
        KeepAnswer::Failed => Ending::Failed,
        KeepAnswer::Memory => Ending::Memory,
    }
}

/// Writes the WAV file of a list, and nothing for an empty one. `rate` is in frames a second.
pub fn write_list<P: Keeper>(
    alloc: Global,
    keeper: &mut P,
    name: &Name,
    list: &[Frame],
    rate: u32,
) -> Ending
    requires length { length list.now ≤ max_list_frames }
    requires rate { rate ≤ max_rate }
    ensures reads { P.read_faults keeper.new ≡ P.read_faults keeper.old }
    ensures value { Writes P.Keeper (list_file rate name.now list.now) keeper.old
        keeper.new result }
{
    if list.len() == 0 {
        return Ending::Written;
    }
    match wav_text(alloc, list, 2, 24, rate) {
        Ok(bytes) => write(alloc, keeper, name, &bytes),
        Err(_) => Ending::Memory,
    }
}

/// Writes the text of a session.
pub fn write_text<P: Keeper>(
    alloc: Global,
    keeper: &mut P,
    name: &Name,
    settings: &Settings,
) -> Ending
    ensures reads { P.read_faults keeper.new ≡ P.read_faults keeper.old }
    ensures value { Writes P.Keeper (text_file All name.now settings.now) keeper.old keeper.new
        result }
{
    match session_text(alloc, settings) {
        Ok(bytes) => write(alloc, keeper, name, &bytes),
        Err(_) => Ending::Memory,
    }
}
