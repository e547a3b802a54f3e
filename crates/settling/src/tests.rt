//! What no clause says: that what is left in a full ring comes to replies and files, with ample
//! memory.

ghost use Rattle.std.specs.Prelude.{◌≡◌, ◌≤◌, ◌+◌, [], ℕ, length, IfOk};
ghost use Rattle.looper_rules.specs.Reached.{IsBeginning};
ghost use Rattle.engine_steps.specs.Engines.{Beginning, first_engine};
ghost use Rattle.event_rings.specs.Ends.{SamePutRing};
ghost use Rattle.live_rings.specs.Rings.{SameNames};

use super::*;
use event_rings::Putter;
use live_rings::{Rings, live_rings, meet_rings};
use live_steps::engine_and_rings_begin_in_step;
use loop_saver::Saver;
use looper_engine::{Engine, Setup};
use sl_base::Name;
use sl_commands::{Command, Control, Initial, Reply, Settings, Target};
use sl_ports::MemKeeper;
use std::alloc::Global;
use std::sync::Wait;
use std::test::Fail;

/// Counts what is told.
#[derive(Drop)]
struct Told {
    count: u64,
}

impl Teller for Told {
    ghost use Rattle.std.specs.Prelude.{⊤};

    ghost tells = { λ _ _ _. ⊤ };

    fn tell(&mut self, reply: Reply) {
        let _ = reply;
        self.count = self.count.saturating_add(1);
    }

    fn telling_composes() {}
}

/// An engine with one empty loop, before all frames.
fn begun(alloc: Global) -> Result<Engine, Fail>
    ensures begins { IfOk result (λ e. (b : Beginning)
        × IsBeginning b.settings b.chunks b.initial × (b.quota ≡ 512) × (e ≡ first_engine b)) }
{
    let setup = Setup {
        settings: Settings::with_defaults(48000, 1),
        chunks: 16,
        quota: 512,
    };
    match Engine::new(alloc, &setup, &Initial::new(alloc)) {
        Ok(engine) => Ok(engine),
        Err(_) => Err(Fail::new("no engine")),
    }
}

/// Puts so many questions on a ring. How many it took.
fn fill(rt: &impl Wait, putter: &mut Putter<Command>, count: u64) -> u64
    requires { length putter.old.sent + count ≤ putter.old.limit }
    ensures ring { SamePutRing putter.old putter.new }
    ensures few { length putter.new.sent ≤ length putter.old.sent + count }
{
    for item in 0..count {
        let command = Command::Get(Target::One(0), Control::LoopLen);
        if putter.put(rt, command).is_err() {
            return item;
        }
    }
    count
}

/// Settles a session whose activities took nothing.
fn settle_left<R: Wait>(
    rt: &R,
    alloc: Global,
    engine: &mut Engine,
    rings: Rings,
    keeper: &mut MemKeeper,
    told: &mut Told,
)
    requires begins { (b : Beginning) × IsBeginning b.settings b.chunks b.initial
        × (b.quota ≡ 512) × (engine.old ≡ first_engine b) }
    requires names { SameNames rings }
    requires osc { (rings.osc.taker.taken ≡ []) × (rings.osc.taker.limit ≡ 512) }
    requires midi { (rings.midi.taker.taken ≡ []) × (rings.midi.taker.limit ≡ 512) }
    requires saver { (rings.saver.taker.taken ≡ []) × (rings.saver.putter.sent ≡ []) }
    requires replies { rings.replies.putter.sent ≡ [] }
    requires blocks { (rings.blocks.taker.taken ≡ []) × (rings.blocks.putter.sent ≡ []) }
{
    engine_and_rings_begin_in_step();
    let met = meet_rings(rt, rings);
    let mut saver = Saver::new(48000);
    settle(rt, alloc, met, None, None, engine, keeper, &mut saver, told);
}

#[test]
fn a_full_ring_of_commands_is_answered_and_its_save_is_written(
    rt: HostRuntime,
) -> Result<(), Fail> {
    let mut engine = begun(rt.alloc())?;
    let mut rings = live_rings(rt.alloc(), &rt, 512)?;
    let mut keeper = MemKeeper::new(rt.alloc(), Vec::new(rt.alloc()), Vec::new(rt.alloc()));
    let mut told = Told { count: 0 };
    let name = Name::read(b"set").ok_or("not a name")?;
    let save = Command::SaveSession(Name::read(b"set").ok_or("not a name")?);
    assert!(rt; fill(&rt, &mut rings.osc.putter, 255) == 255);
    assert!(rt; rings.osc.putter.put(&rt, save).is_ok());
    assert!(rt;
        fill(&rt, &mut rings.osc.putter, 1) == 0,
        "the ring is full"
    );
    settle_left(&rt, rt.alloc(), &mut engine, rings, &mut keeper, &mut told);
    assert_eq!(rt; told.count, 256, "each question, and the save");
    assert!(rt; keeper.file(&name).is_some());
    assert_eq!(rt; engine.journal().entries().len(), 257, "and one release");
    Ok(())
}
