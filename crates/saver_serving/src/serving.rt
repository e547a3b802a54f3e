//! Taking blocks, and putting outcomes.

ghost use Rattle.std.specs.Prelude.{◌≡◌, ◌+◌, ℕ, None, true, length, IsTrue, IsFalse, option_to_list};
ghost use Rattle.event_rings.specs.Ends.{SameTakeRing};
ghost use Rattle.loop_saver.specs.Keeping.{HasCome, outcome_in};
ghost use Rattle.saver_serving.specs.Serving.{serving, MayServe, SaverDid, HasWaited};
ghost use Rattle.saver_serving.specs.Turns.{taking, Takes, WaitedWhere};

use event_rings::{Putter, Taker};
use loop_saver::{Saved, Saver};
use sl_commands::Block;
use sl_ports::Keeper;
use std::alloc::Global;
use std::sync::Wait;
use std::thread;
use std::time::{Clock, Duration};

/// How long the activity pauses where there was nothing to do, in milliseconds.
const PAUSE: u64 = 1;

/// The outcome of the save that has ended, where one has.
fn outcome_of(answer: Saved) -> Option<u8>
    ensures { option_to_list result ≡ outcome_in answer }
{
    match answer {
        Saved::Continue => None,
        Saved::Finished(_, outcome) => Some(outcome),
    }
}

/// Takes the next block, and gives it to the saver. What the saver answered, or nothing where the
/// ring is empty.
fn take_block<P: Keeper, R: Wait>(
    rt: &R,
    alloc: Global,
    keeper: &mut P,
    saver: &mut Saver,
    blocks: &mut Taker<Block>,
) -> Option<Saved>
    requires come { (saves : ℕ) × HasCome saver.old.saving blocks.old.taken saves }
    ensures rate { saver.new.rate ≡ saver.old.rate }
    ensures reads { P.read_faults keeper.new ≡ P.read_faults keeper.old }
    ensures ring { SameTakeRing blocks.old blocks.new }
    ensures takes { Takes P.Keeper saver.old.rate (taking saver.old.saving keeper.old blocks.old)
        (taking saver.new.saving keeper.new blocks.new) result }
{
    match blocks.take(rt) {
        Some(block) => Some(saver.accept(alloc, keeper, &block)),
        None => None,
    }
}

/// Puts the outcome that is held, or takes one block. Tells whether there was nothing to do.
fn one_turn<P: Keeper, R: Wait>(
    rt: &R,
    alloc: Global,
    keeper: &mut P,
    saver: &mut Saver,
    blocks: &mut Taker<Block>,
    releases: &mut Putter<u8>,
    held: &mut Option<u8>,
) -> bool
    requires may { MayServe (serving saver.old.saving keeper.old blocks.old releases.old held.old) }
    ensures rate { saver.new.rate ≡ saver.old.rate }
    ensures reads { P.read_faults keeper.new ≡ P.read_faults keeper.old }
    ensures may { MayServe (serving saver.new.saving keeper.new blocks.new releases.new held.new) }
    ensures did { SaverDid P.Keeper saver.old.rate
        (serving saver.old.saving keeper.old blocks.old releases.old held.old)
        (serving saver.new.saving keeper.new blocks.new releases.new held.new) }
    ensures waited { WaitedWhere result
        (serving saver.old.saving keeper.old blocks.old releases.old held.old)
        (serving saver.new.saving keeper.new blocks.new releases.new held.new) }
{
    match *held {
        Some(outcome) => match releases.put(rt, outcome) {
            Ok(()) => {
                *held = None;
                false
            }
            Err(_) => true,
        },
        None => match take_block(rt, alloc, keeper, saver, blocks) {
            Some(answer) => {
                *held = outcome_of(answer);
                false
            }
            None => true,
        },
    }
}

/// Whether audio is over. It is asked only where there was nothing to do, and where it isn't over
/// there is a pause.
fn is_over<R: Wait + Clock>(rt: &R, waited: bool, over: &mut Taker<u64>) -> bool
    ensures ring { SameTakeRing over.old over.new }
    ensures some { IsTrue result → (waited ≡ true)
        × (length over.new.taken ≡ length over.old.taken + 1) }
    ensures none { IsFalse result → over.new.taken ≡ over.old.taken }
{
    if !waited {
        return false;
    }
    match over.take(rt) {
        Some(_) => true,
        None => {
            thread::sleep(rt, Duration::from_millis(PAUSE));
            false
        }
    }
}

/// Serves the saver until audio is over, and there is nothing to do. Gives the outcome that is held
/// then, which comes behind all that the ring of outcomes was sent.
pub fn serve_saver<P: Keeper, R: Wait + Clock>(
    rt: &R,
    alloc: Global,
    keeper: &mut P,
    saver: &mut Saver,
    blocks: &mut Taker<Block>,
    releases: &mut Putter<u8>,
    over: &mut Taker<u64>,
) -> Option<u8>
    requires may { MayServe (serving saver.old.saving keeper.old blocks.old releases.old None) }
    ensures rate { saver.new.rate ≡ saver.old.rate }
    ensures reads { P.read_faults keeper.new ≡ P.read_faults keeper.old }
    ensures may { MayServe (serving saver.new.saving keeper.new blocks.new releases.new result) }
    ensures did { SaverDid P.Keeper saver.old.rate
        (serving saver.old.saving keeper.old blocks.old releases.old None)
        (serving saver.new.saving keeper.new blocks.new releases.new result) }
    ensures waited { HasWaited result
        (serving saver.old.saving keeper.old blocks.old releases.old None)
        (serving saver.new.saving keeper.new blocks.new releases.new result) }
    ensures over { length over.new.taken ≡ length over.old.taken + 1 }
    ensures ring { SameTakeRing over.old over.new }
{
    let mut held = None;
    'serving: for _ in rt.forever() {
        let waited = one_turn(rt, alloc, keeper, saver, blocks, releases, &mut held);
        if is_over(rt, waited, over) {
            return held;
        }
    }
    unreachable!()
}
