//! What a save sends: the settings of the looper, and the lists that are pinned.

ghost use Rattle.std.specs.Prelude.{◌≡◌, ◌≤◌, ◌<◌, ◌+◌, length, take, drop};
ghost use Rattle.looper_rules.specs.Saves.{settings_of};
ghost use Rattle.whole_looper.specs.Loopers.{IsReached, refused_in, pinned_at};

use crate::looper::Looper;
use sl_base::Frame;
use sl_commands::Settings;

impl Looper {
    /// The settings of the looper, with the length and the cycle of each loop's list, as a save
    /// tells them.
    pub fn settings(&self) -> Settings
        requires reached { IsReached self.now }
        ensures { result ≡ settings_of self.now }
    {
        Settings {
            rate: self.rate,
            loops: self.loops(),
            globals: self.globals,
            strips: self.tracks.settings(),
        }
    }

    /// The frames a second.
    pub fn rate(&self) -> u32
        ensures { result ≡ self.now.rate }
    {
        self.rate
    }

    /// How many saves were made.
    pub fn saves(&self) -> u32
        ensures { result ≡ self.now.saves }
    {
        self.saves
    }

    /// How often something was refused, over all loops.
    pub fn refused(&self) -> u64
        ensures { result ≡ refused_in self.now }
    {
        self.tracks.refused()
    }

    /// The frames of the list that the pin of this loop holds, 0 without one.
    pub fn pinned_length(&self, index: u8) -> u32
        requires index { index < length self.now.tracks }
        ensures { result ≡ length (pinned_at index self.now) }
    {
        self.tracks.pinned_length(index as usize)
    }

    /// The frames of the list that the pin of this loop holds, from a place on, as many as `out`
    /// has.
    pub fn saved_span(&self, index: u8, place: u32, out: &mut [Frame])
        requires index { index < length self.now.tracks }
        requires place { place + length out.old ≤ length (pinned_at index self.now) }
        ensures { out.new ≡ take (length out.old) (drop place (pinned_at index self.now)) }
    {
        self.tracks.saved_span(index as usize, place, out);
    }

    /// Searches a place of that list, so that reads from there on search nothing.
    pub fn seek_saved(&mut self, index: u8, place: u32)
        ensures { self.new ≡ self.old }
    {
        self.tracks.seek_saved(index as usize, place);
    }
}
