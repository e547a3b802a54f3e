//! The settings of a looper and of its loops, and the lists that they begin with.

ghost use Rattle.std.specs.Prelude.{◌≡◌, ℕ, ◌<◌, ◌≤◌, [], ◌∷◌, ◌++◌, length, ◌↔◌, IsTrue, IsSome, IfSome, OnOk, OnErr};
ghost use Rattle.sl_commands.specs.Settings.{LooperSettings, is_cycle_of, is_strip, are_strips, are_globals, is_rate, is_loop_count, are_settings, default_settings};
ghost use Rattle.arrayvec.specs.ArrayVec.{array_vec_len};

use crate::control::{Control, is_in_range};
use arrayvec::ArrayVec;
use sl_base::{Frames, MAX_LIST_FRAMES, MAX_LOOPS, MAX_RATE, Memory};
use std::alloc::Global;
use std::marker::Model;

/// The values of the looper's controls, in the units of the table.
#[derive(Clone, Copy, PartialEq, Eq)]
pub struct Globals {
    pub dry: u16,
    pub sync_source: i32,
    pub selected_loop_num: u8,
    pub fade_step: u16,
    pub long_press: u32,
    pub pulse: u32,
}

/// A loop's length and cycle in frames, and the values of its controls that can be set.
#[derive(Clone, Copy, PartialEq, Eq)]
pub struct StripSettings {
    pub length: u32,
    pub cycle: u32,
    pub feedback: u16,
    pub wet: u16,
    pub round: u8,
    pub quantize: u8,
    pub rec_thresh: u32,
}

impl Default for Globals {
    ghost use Rattle.std.specs.Prelude.{◌≡◌};
    ghost use Rattle.sl_commands.specs.Settings.{default_globals};

    ghost is_default = { λ g. g ≡ default_globals };

    /// All controls as they begin.
    fn default() -> Globals {
        Globals {
            dry: 0,
            sync_source: 0,
            selected_loop_num: 0,
            fade_step: 20,
            long_press: 24000,
            pulse: 24000,
        }
    }
}

impl Default for StripSettings {
    ghost use Rattle.std.specs.Prelude.{◌≡◌};
    ghost use Rattle.sl_commands.specs.Settings.{default_strip};

    ghost is_default = { λ s. s ≡ default_strip };

    /// An empty loop, all controls as they begin.
    fn default() -> StripSettings {
        StripSettings {
            length: 0,
            cycle: 0,
            feedback: 1000,
            wet: 1000,
            round: 0,
            quantize: 0,
            rec_thresh: 0,
        }
    }
}

/// The cycle is one of a list of this length: 0 of an empty one, and else 1 to the length.
pub fn is_cycle_of(length: u32, cycle: u32) -> bool
    ensures { result ≡ is_cycle_of length cycle }
{
    if length == 0 {
        cycle == 0
    } else {
        1 <= cycle && cycle <= length
    }
}

/// All values lie in their ranges.
fn is_strip(strip: &StripSettings) -> bool
    ensures { result ≡ is_strip strip.now }
{
    strip.length <= MAX_LIST_FRAMES
        && is_cycle_of(strip.length, strip.cycle)
        && is_in_range(Control::Feedback, strip.feedback as i64, 0)
        && is_in_range(Control::Wet, strip.wet as i64, 0)
        && is_in_range(Control::Round, strip.round as i64, 0)
        && is_in_range(Control::Quantize, strip.quantize as i64, 0)
        && is_in_range(Control::RecThresh, strip.rec_thresh as i64, 0)
}

fn are_strips(strips: &[StripSettings]) -> bool
    ensures { result ≡ are_strips strips.now }
{
    strips.iter().all(|strip| is_strip(strip))
}

/// All values lie in their ranges, where there are so many loops.
fn are_globals(loops: u8, globals: &Globals) -> bool
    ensures { result ≡ are_globals loops globals.now }
{
    is_in_range(Control::Dry, globals.dry as i64, loops)
        && is_in_range(Control::SyncSource, globals.sync_source as i64, loops)
        && is_in_range(
            Control::SelectedLoopNum,
            globals.selected_loop_num as i64,
            loops,
        )
        && is_in_range(Control::FadeStep, globals.fade_step as i64, loops)
        && is_in_range(Control::LongPress, globals.long_press as i64, loops)
        && is_in_range(Control::Pulse, globals.pulse as i64, loops)
}

/// The settings of the loops by index, 16 at most.
#[derive(Drop)]
pub struct Strips {
    strips: ArrayVec<StripSettings, 16>,
}

impl Model for Strips {
    ghost use Rattle.std.specs.Prelude.{List};
    ghost use Rattle.sl_commands.specs.declared.settings.StripSettings.{StripSettings};

    ghost Value = { List StripSettings };

    ghost view = { λ s. s.strips.items };
}

impl Strips {
    /// No loops.
    pub fn new() -> Strips
        ensures { result ≡ [] }
    {
        Strips {
            strips: ArrayVec::new(),
        }
    }

    /// The same settings once more.
    pub fn duplicate(&self) -> Strips
        ensures { result ≡ self.now }
    {
        let mut copy = Strips::new();
        for index in 0..self.len() {
            copy.push(self.as_slice()[index]);
        }
        copy
    }

    /// Puts the settings of one more loop at the end.
    pub fn push(&mut self, strip: StripSettings)
        requires { length self.old < 16 }
        ensures { self.new ≡ self.old ++ strip ∷ [] }
    {
        self.strips.push(strip);
    }

    /// The settings of the loops, by index.
    pub fn as_slice(&self) -> &[StripSettings]
        ensures value { result.now ≡ self.now }
        ensures within { length self.now ≤ 16 }
    {
        self.strips.as_slice()
    }

    /// How many loops there are.
    pub fn len(&self) -> usize
        ensures value { result ≡ length self.now }
        ensures within { length self.now ≤ 16 }
    {
        self.strips.as_slice().len()
    }
}

/// The settings of a looper. `rate` is frames a second, 1 to 768000, and there is one strip per
/// loop.
#[derive(Drop)]
pub struct Settings {
    pub rate: u32,
    pub loops: u8,
    pub globals: Globals,
    pub strips: Strips,
}

impl Model for Settings {
    ghost use Rattle.std.specs.Prelude.{◌≡◌, length, IsTrue};
    ghost use Rattle.sl_commands.specs.Settings.{LooperSettings, are_settings};

    ghost Value = { LooperSettings };

    ghost view = { λ s. record { rate = s.rate; globals = s.globals; strips = s.strips } };

    ghost invariant = { λ s. (s.loops ≡ length s.strips)
        × IsTrue (are_settings
        (record { rate = s.rate; globals = s.globals; strips = s.strips })) };
}

fn are_settings(rate: u32, globals: &Globals, strips: &Strips) -> bool
    ensures { result ≡ are_settings
        (record { rate = rate; globals = globals.now; strips = strips.now }) }
{
    let loops = strips.len();
    1 <= rate
        && rate <= MAX_RATE
        && 1 <= loops
        && loops <= MAX_LOOPS as usize
        && are_globals(loops as u8, globals)
        && are_strips(strips.as_slice())
}

impl Settings {
    /// Settings of these values, or None where one isn't in its range.
    pub fn of(rate: u32, globals: Globals, strips: Strips) -> Option<Settings>
        ensures value { IfSome result
            (λ s. s ≡ record { rate = rate; globals = globals; strips = strips }) }
        ensures within { IsSome result ↔
            IsTrue (are_settings (record { rate = rate; globals = globals; strips = strips })) }
    {
        if !are_settings(rate, &globals, &strips) {
            return None;
        }
        let loops = strips.len() as u8;
        Some(Settings {
            rate,
            loops,
            globals,
            strips,
        })
    }

    /// So many empty loops, all controls as they begin. `rate` is 1 to 768000, `loops` 1 to 16.
    pub fn with_defaults(rate: u32, loops: u8) -> Settings
        requires rate { IsTrue (is_rate rate) }
        requires loops { IsTrue (is_loop_count loops) }
        ensures { result ≡ default_settings rate loops }
    {
        let mut strips = Strips::new();
        for _ in 0..loops {
            strips.push(StripSettings::default());
        }
        Settings {
            rate,
            loops,
            globals: Globals::default(),
            strips,
        }
    }

    /// The same settings once more.
    pub fn duplicate(&self) -> Settings
        ensures { result ≡ self.now }
    {
        Settings {
            rate: self.rate,
            loops: self.loops,
            globals: self.globals,
            strips: self.strips.duplicate(),
        }
    }

    /// How many loops there are.
    pub fn loop_count(&self) -> u8
        ensures value { result ≡ length self.now.strips }
        ensures within { IsTrue (are_settings self.now) }
    {
        self.loops
    }
}

/// The lists that the loops begin with, by index, 16 at most.
#[derive(Drop)]
pub struct Initial {
    lists: Vec<Frames>,
}

impl Model for Initial {
    ghost use Rattle.std.specs.Prelude.{List, length, ◌≤◌};
    ghost use Rattle.sl_base.specs.Sounds.{Sound};

    ghost Value = { List (List Sound) };

    ghost view = { λ i. i.lists.items };

    ghost invariant = { λ i. length i.lists.items ≤ 16 };
}

impl Initial {
    /// No loops.
    pub fn new(alloc: Global) -> Initial
        ensures { result ≡ [] }
    {
        Initial {
            lists: Vec::new(alloc),
        }
    }

    /// Puts the list of one more loop at the end. After `Memory` the lists are as before.
    pub fn push(&mut self, list: Frames) -> Result<(), Memory>
        requires { length self.old < 16 }
        ensures ok { OnOk result (self.new ≡ self.old ++ list ∷ []) }
        ensures unchanged { OnErr result (self.new ≡ self.old) }
    {
        self.lists.push(list)?;
        Ok(())
    }

    /// The lists, by the index of their loops.
    pub fn as_slice(&self) -> &[Frames]
        ensures value { result.now ≡ self.now }
        ensures within { length self.now ≤ 16 }
    {
        &self.lists
    }

    /// How many loops there are.
    pub fn len(&self) -> usize
        ensures value { result ≡ length self.now }
        ensures within { length self.now ≤ 16 }
    {
        self.lists.len()
    }
}
