//! What is prepared, parted among the activities, each with its devices.

ghost use Rattle.std.specs.Prelude.{ℕ, List};
ghost use Rattle.sl_base.specs.Sounds.{Sound};
ghost use Rattle.midi_bindings.specs.declared.binding.Binding.{Binding};
ghost use Rattle.looper_engine.specs.declared.setup.Setup.{Setup};
ghost use Rattle.looper_engine.specs.Beginnings.{beginning_of};
ghost use Rattle.live_core.specs.Preparing.{IsPrepared};
ghost use Rattle.live_core.specs.Starting.{HaveStarted};

use crate::devices::Devices;
use crate::preparing::Prepared;
use live_joining::{AudioPart, MidiPart, OscPart, SaverPart};
use live_ports::{Link, Source};
use sl_ports::{Keeper, Sink};

/// The parts of the four activities.
#[derive(Drop)]
pub(crate) struct Parts<A: Source, O: Sink, L: Link, M: Source, P: Keeper> {
    pub audio: AudioPart<A, O>,
    pub osc: OscPart<L>,
    pub midi: MidiPart<M>,
    pub saver: SaverPart<P>,
}

/// Parts what is prepared.
pub(crate) fn start<P: Keeper, A: Source, O: Sink, L: Link, M: Source>(
    prepared: Prepared,
    devices: Devices<P, A, O, L, M>,
) -> Parts<A, O, L, M, P>
    ensures { (s : Setup) → (initial : List (List Sound)) → (bindings : List Binding) →
        (channels : ℕ) → IsPrepared s initial bindings channels prepared →
        HaveStarted A.Source O.Sink L.Link M.Source (beginning_of s initial) bindings channels
        devices result }
{
    let Prepared {
        engine,
        ends,
        overs,
        osc,
        replies,
        osc_over,
        midi,
        midi_over,
        saver,
        blocks,
        releases,
        saver_over,
    } = prepared;
    let Devices {
        keeper,
        audio: source,
        out: sink,
        link,
        midi: midi_source,
    } = devices;
    Parts {
        audio: AudioPart {
            engine,
            ends,
            source,
            sink,
            overs,
        },
        osc: OscPart {
            link,
            sender: osc,
            replies,
            over: osc_over,
        },
        midi: MidiPart {
            source: midi_source,
            sender: midi,
            over: midi_over,
        },
        saver: SaverPart {
            keeper,
            saver,
            blocks,
            releases,
            held: None,
            over: saver_over,
        },
    }
}
