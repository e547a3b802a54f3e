//! Giving blocks to the saver, and the outcomes of their saves to the engine.

ghost use Rattle.std.specs.Prelude.{◌≡◌, ◌∷◌, [], ◌++◌, List, Some};
ghost use Rattle.sl_commands.specs.declared.Block.{Block};
ghost use Rattle.sl_commands.specs.declared.Reply.{Reply};
ghost use Rattle.engine_steps.specs.Engines.{next_block, left, waiting};
ghost use Rattle.settling.specs.Settled.{IsLeft};
ghost use Rattle.settling.specs.Standing.{IsServed, MayFeed};
ghost use Rattle.settling.specs.Steps.{Fed, feeding};

use crate::outcomes::release;
use crate::teller::Teller;
use event_rings::Met;
use loop_saver::{Saved, Saver};
use looper_engine::Engine;
use sl_commands::Block;
use sl_ports::Keeper;
use std::alloc::Global;
use std::sync::Wait;

/// Gives the saver a block, and the engine the outcome where a save ends in it.
fn feed<P: Keeper, T: Teller>(
    alloc: Global,
    keeper: &mut P,
    engine: &mut Engine,
    saver: &mut Saver,
    teller: &mut T,
    block: &Block,
)
    requires may { MayFeed engine.old saver.old.saving block.now }
    ensures rate { saver.new.rate ≡ saver.old.rate }
    ensures reads { P.read_faults keeper.new ≡ P.read_faults keeper.old }
    ensures fed { (told : List Reply) × T.tells teller.old told teller.new
        × Fed P.Keeper saver.old.rate (block.now ∷ []) [] told
        (feeding engine.old saver.old.saving keeper.old)
        (feeding engine.new saver.new.saving keeper.new) }
{
    T::telling_composes();
    match saver.accept(alloc, keeper, block) {
        Saved::Continue => {}
        Saved::Finished(_, outcome) => release(engine, outcome, teller),
    }
}

/// Gives the saver the blocks that are left in their ring.
pub(crate) fn feed_ring<P: Keeper, T: Teller, W: Wait>(
    wait: &W,
    alloc: Global,
    keeper: &mut P,
    engine: &mut Engine,
    saver: &mut Saver,
    teller: &mut T,
    met: &mut Met<Block>,
)
    requires served { IsServed engine.old saver.old.saving met.old.taken met.old.sent }
    ensures rate { saver.new.rate ≡ saver.old.rate }
    ensures reads { P.read_faults keeper.new ≡ P.read_faults keeper.old }
    ensures left { (rest : List Block) × IsLeft met.old rest
        × IsServed engine.new saver.new.saving met.old.sent met.old.sent
        × (told : List Reply) × T.tells teller.old told teller.new
        × Fed P.Keeper saver.old.rate rest [] told
        (feeding engine.old saver.old.saving keeper.old)
        (feeding engine.new saver.new.saving keeper.new) }
{
    T::telling_composes();
    'draining: for _ in wait.forever() {
        let Some(block) = met.drain(wait) else {
            return;
        };
        feed(alloc, keeper, engine, saver, teller, &block);
    }
    unreachable!()
}

/// Gives the saver the block that the engine sends next.
fn feed_next<P: Keeper, T: Teller>(
    alloc: Global,
    keeper: &mut P,
    engine: &mut Engine,
    saver: &mut Saver,
    teller: &mut T,
    block: &Block,
)
    requires next { next_block engine.old ≡ Some block.now }
    requires served { (sent : List Block) × IsServed engine.old saver.old.saving sent sent }
    ensures rate { saver.new.rate ≡ saver.old.rate }
    ensures reads { P.read_faults keeper.new ≡ P.read_faults keeper.old }
    ensures served { (sent : List Block) × IsServed engine.new saver.new.saving sent sent }
    ensures fed { (told : List Reply) × T.tells teller.old told teller.new
        × Fed P.Keeper saver.old.rate (block.now ∷ []) (block.now ∷ []) told
        (feeding engine.old saver.old.saving keeper.old)
        (feeding engine.new saver.new.saving keeper.new) }
{
    engine.block_sent();
    feed(alloc, keeper, engine, saver, teller, block);
}

/// Gives the saver all blocks that the engine has left. Each save is answered then.
pub(crate) fn feed_rest<P: Keeper, T: Teller, W: Wait>(
    wait: &W,
    alloc: Global,
    keeper: &mut P,
    engine: &mut Engine,
    saver: &mut Saver,
    teller: &mut T,
)
    requires served { (sent : List Block) × IsServed engine.old saver.old.saving sent sent }
    ensures rate { saver.new.rate ≡ saver.old.rate }
    ensures reads { P.read_faults keeper.new ≡ P.read_faults keeper.old }
    ensures fed { (blocks : List Block) × (told : List Reply) × T.tells teller.old told teller.new
        × Fed P.Keeper saver.old.rate blocks blocks told
        (feeding engine.old saver.old.saving keeper.old)
        (feeding engine.new saver.new.saving keeper.new) }
    ensures none { left engine.new ≡ [] }
    ensures answered { waiting engine.new ≡ [] }
{
    T::telling_composes();
    'feeding: for _ in wait.forever() {
        match engine.next_block() {
            Some(block) => feed_next(alloc, keeper, engine, saver, teller, &block),
            None => return,
        }
    }
    unreachable!()
}
