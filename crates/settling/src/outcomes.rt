//! Giving outcomes of saves to the engine.

ghost use Rattle.std.specs.Prelude.{◌≡◌, ◌∷◌, [], ℕ, List, IsTrue};
ghost use Rattle.sl_commands.specs.declared.Reply.{Reply};
ghost use Rattle.sl_commands.specs.Commands.{is_outcome};
ghost use Rattle.settling.specs.Settled.{IsLeft};
ghost use Rattle.settling.specs.Standing.{IsOwed, MayRelease};
ghost use Rattle.settling.specs.Steps.{GoesBy, more_outcomes};

use crate::replies::tell_some;
use crate::teller::Teller;
use event_rings::Met;
use looper_engine::Engine;
use sl_commands::{Command, SAVER};
use std::sync::Wait;

/// Gives the engine the outcome of the oldest save that is owed one, and tells the reply.
pub(crate) fn release<T: Teller>(engine: &mut Engine, outcome: u8, teller: &mut T)
    requires outcome { IsTrue (is_outcome outcome) }
    requires owed { IsOwed engine.old }
    ensures goes { (told : List Reply) × T.tells teller.old told teller.new
        × GoesBy (more_outcomes (outcome ∷ [])) told engine.old engine.new }
{
    match engine.due() {
        Some(target) => {
            let reply = engine.take(SAVER, Command::Release(target, outcome));
            tell_some(teller, reply);
        }
        None => unreachable!(),
    }
}

/// Gives the engine the outcomes that are left in their ring.
pub(crate) fn settle_outcomes<T: Teller, W: Wait>(
    wait: &W,
    engine: &mut Engine,
    met: &mut Met<u8>,
    teller: &mut T,
)
    requires may { MayRelease engine.old met.old }
    ensures left { (rest : List ℕ) × IsLeft met.old rest
        × (told : List Reply) × T.tells teller.old told teller.new
        × GoesBy (more_outcomes rest) told engine.old engine.new }
{
    T::telling_composes();
    'draining: for _ in wait.forever() {
        let Some(outcome) = met.drain(wait) else {
            return;
        };
        release(engine, outcome, teller);
    }
    unreachable!()
}
