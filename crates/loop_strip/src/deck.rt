//! What a loop is doing, and what is set of it.

ghost use Rattle.std.specs.Prelude.{◌≡◌, ◌%◌, ◌-◌, if◌then◌else◌};
ghost use Rattle.looper_rules.specs.Loop.{new_deck};
ghost use Rattle.looper_rules.specs.Run.{controls_of as set_by};
ghost use Rattle.sl_commands.specs.declared.Mode.TheVariants.{Off};
ghost use Rattle.looper_rules.specs.Closing.{closed_deck};
ghost use Rattle.looper_rules.specs.Verbs.{start_place};
ghost use Rattle.loop_strip.specs.Parts.{deck_of, controls_of};

use sl_commands::{Held, Mode, StripSettings, Verb};

/// Mode, place and direction, the verb that waits, and the press. `pos` is the place of the next
/// frame in the list.
#[derive(Clone, Copy)]
pub(crate) struct Deck {
    pub(crate) mode: Mode,
    pub(crate) rounding: bool,
    pub(crate) pos: u32,
    pub(crate) backward: bool,
    pub(crate) waiting: Option<Verb>,
    pub(crate) press: Option<Held>,
}

/// The controls that can be set, in the units of their table.
#[derive(Clone, Copy)]
pub(crate) struct Controls {
    pub(crate) feedback: u16,
    pub(crate) wet: u16,
    pub(crate) round: u8,
    pub(crate) quantize: u8,
    pub(crate) rec_thresh: u32,
}

impl Deck {
    /// At rest in Off.
    pub(crate) fn new() -> Deck
        ensures { deck_of result ≡ new_deck Off }
    {
        Deck {
            mode: Mode::Off,
            rounding: false,
            pos: 0,
            backward: false,
            waiting: None,
            press: None,
        }
    }

    /// The deck of a loop that closes its layer.
    pub(crate) fn close_to(&mut self, mode: Mode, pos: u32)
        ensures { deck_of self.new ≡ closed_deck mode pos (deck_of self.old) }
    {
        self.mode = mode;
        self.rounding = false;
        self.pos = pos;
    }
}

impl Controls {
    /// The controls of these settings.
    pub(crate) fn of(settings: &StripSettings) -> Controls
        ensures { controls_of result ≡ set_by settings.now }
    {
        Controls {
            feedback: settings.feedback,
            wet: settings.wet,
            round: settings.round,
            quantize: settings.quantize,
            rec_thresh: settings.rec_thresh,
        }
    }
}

/// The rest of a division, where dividing by 0 leaves the number.
pub(crate) fn rest(number: u32, unit: u32) -> u32
    ensures { result ≡ number % unit }
{
    if unit == 0 { number } else { number % unit }
}
