//! Settling a whole session.

ghost use Rattle.std.specs.Prelude.{◌≡◌, [], ℕ, List, Some, IsTrue, option_to_list};
ghost use Rattle.sl_commands.specs.declared.Reply.{Reply};
ghost use Rattle.sl_commands.specs.Commands.{is_outcome};
ghost use Rattle.settling.specs.Settled.{LeftOf, AreLeft, MaySettle, Settled, unsettled, settling};
ghost use Rattle.settling.specs.Standing.{IsOwed, MayTakeLeft};
ghost use Rattle.settling.specs.Steps.{GoesBy, TookLeft, more_outcomes};

use crate::commands::settle_commands;
use crate::feeding::{feed_rest, feed_ring};
use crate::outcomes::{release, settle_outcomes};
use crate::replies::{settle_replies, tell_some};
use crate::teller::Teller;
use event_rings::Met;
use live_rings::MetRings;
use loop_saver::Saver;
use looper_engine::Engine;
use sl_commands::{Command, MIDI, OSC, Reply};
use sl_ports::Keeper;
use std::alloc::Global;
use std::sync::Wait;

/// Gives the engine the outcome that the saver held, where one is.
fn release_held<T: Teller>(engine: &mut Engine, outcome: Option<u8>, teller: &mut T)
    requires outcome { (o : ℕ) → outcome ≡ Some o → IsTrue (is_outcome o) }
    requires owed { (o : ℕ) → outcome ≡ Some o → IsOwed engine.old }
    ensures goes { (told : List Reply) × T.tells teller.old told teller.new
        × GoesBy (more_outcomes (option_to_list outcome)) told engine.old engine.new }
{
    T::telling_composes();
    match outcome {
        Some(outcome) => release(engine, outcome, teller),
        None => {}
    }
}

/// Gives the engine the commands and outcomes that are left, and then the outcome that is held.
fn take_left<T: Teller, W: Wait>(
    wait: &W,
    engine: &mut Engine,
    osc: &mut Met<Command>,
    midi: &mut Met<Command>,
    saver: &mut Met<u8>,
    outcome: Option<u8>,
    teller: &mut T,
)
    requires may { MayTakeLeft engine.old osc.old midi.old saver.old outcome }
    ensures left { (told : List Reply) × T.tells teller.old told teller.new
        × TookLeft engine.old engine.new osc.old midi.old saver.old outcome told }
{
    T::telling_composes();
    settle_commands(wait, engine, osc, OSC, teller);
    settle_commands(wait, engine, midi, MIDI, teller);
    settle_outcomes(wait, engine, saver, teller);
    release_held(engine, outcome, teller);
}

/// Settles a session whose activities have returned: `reply` is the reply that audio held, and
/// `outcome` the outcome that the saver held. No block is left behind it, and each save has its
/// release.
pub fn settle<P: Keeper, T: Teller, W: Wait>(
    wait: &W,
    alloc: Global,
    rings: MetRings,
    reply: Option<Reply>,
    outcome: Option<u8>,
    engine: &mut Engine,
    keeper: &mut P,
    saver: &mut Saver,
    teller: &mut T,
)
    requires may { MaySettle (unsettled engine.old reply saver.old.saving keeper.old outcome [])
        rings }
    ensures rate { saver.new.rate ≡ saver.old.rate }
    ensures reads { P.read_faults keeper.new ≡ P.read_faults keeper.old }
    ensures settled { (left : LeftOf) × (told : List Reply) × AreLeft rings left
        × T.tells teller.old told teller.new
        × Settled P.Keeper saver.old.rate (unsettled engine.old reply saver.old.saving keeper.old
        outcome []) left (settling engine.new saver.new.saving keeper.new told) }
{
    T::telling_composes();
    let MetRings {
        mut osc,
        mut midi,
        saver: mut outcomes,
        mut replies,
        mut blocks,
    } = rings;
    settle_replies(wait, &mut replies, teller);
    tell_some(teller, reply);
    take_left(
        wait,
        engine,
        &mut osc,
        &mut midi,
        &mut outcomes,
        outcome,
        teller,
    );
    feed_ring(wait, alloc, keeper, engine, saver, teller, &mut blocks);
    feed_rest(wait, alloc, keeper, engine, saver, teller);
}
