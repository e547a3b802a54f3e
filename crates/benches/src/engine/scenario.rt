//! What is timed of an engine.

ghost use Rattle.std.specs.Prelude.{◌≤◌};

use crate::clock::tell;
use crate::engine::session::{FRAMES, STRETCH, Session};
use sl_commands::{Command, Control, Target, Verb};

/// So many layers are laid over the lists that are cut, one behind the other, each in five
/// stretches to and fro.
const CUTS: u32 = 56;

/// All loops play.
pub fn playing(rt: &HostRuntime, loops: u8, period: u32, times: u32) -> Option<()>
    requires some { 1 ≤ loops }
    requires few { loops ≤ 16 }
{
    let mut session = Session::new(rt.alloc(), loops, period)?;
    let mut best = u64::MAX;
    for _ in 0..times {
        best = session.timed(rt, best, FRAMES, loops);
    }
    told(rt, &session, "playing", best)
}

/// The first loop plays or overdubs, the others play, and in the last one a verb waits for the
/// first loop to come round. Nothing is told of a single loop that overdubs: the verb that waits
/// ends the overdub.
pub fn waiting(
    rt: &HostRuntime,
    loops: u8,
    period: u32,
    times: u32,
    name: &str,
    overdubs: bool,
) -> Option<()>
    requires some { 1 ≤ loops }
    requires few { loops ≤ 16 }
    requires period { period ≤ 8192 }
{
    if overdubs && loops < 2 {
        return None;
    }
    let mut session = Session::new(rt.alloc(), loops, period)?;
    if overdubs {
        session.hit(Target::One(0), Verb::Overdub);
        session.play(FRAMES);
    }
    let last = Target::One(loops - 1);
    session.take(Command::Set(last, Control::Quantize, 1));
    session.take(Command::SetGlobal(Control::SyncSource, 1));
    let mut best = u64::MAX;
    for _ in 0..times {
        session.play(period);
        session.hit(last, Verb::Trigger);
        best = session.timed(rt, best, 18 * STRETCH, loops);
        session.play(FRAMES - 18 * STRETCH - period);
    }
    told(rt, &session, name, best)
}

/// All loops play lists of 1,000 seams and more.
pub fn over_seams(rt: &HostRuntime, loops: u8, period: u32, times: u32) -> Option<()>
    requires some { 1 ≤ loops }
    requires few { loops ≤ 16 }
{
    let mut session = Session::new(rt.alloc(), loops, period)?;
    for _ in 0..CUTS {
        session.hit(Target::All, Verb::Overdub);
        for stretch in 1..6 {
            session.play(100 * stretch);
            session.hit(Target::All, Verb::Reverse);
        }
        session.hit(Target::All, Verb::Reverse);
        session.hit(Target::All, Verb::Overdub);
        session.play(FRAMES / CUTS);
    }
    let mut best = u64::MAX;
    for _ in 0..times {
        best = session.timed(rt, best, FRAMES, loops);
    }
    told(rt, &session, "seams", best)
}

/// So many of the loops overdub once round, and then over what they wrote; the others play.
pub fn overdubbing(rt: &HostRuntime, loops: u8, period: u32, times: u32, writing: u8) -> Option<()>
    requires some { 1 ≤ loops }
    requires few { loops ≤ 16 }
{
    let mut session = Session::new(rt.alloc(), loops, period)?;
    let mut first = u64::MAX;
    let mut again = u64::MAX;
    for _ in 0..times {
        hit_first(&mut session, writing, Verb::Overdub);
        first = session.timed(rt, first, FRAMES, loops);
        again = session.timed(rt, again, FRAMES, loops);
        hit_first(&mut session, writing, Verb::Overdub);
        hit_first(&mut session, writing, Verb::Undo);
    }
    tell(rt, "first", first);
    told(rt, &session, "again", again)
}

/// A verb is hit in the first loops.
fn hit_first(session: &mut Session, count: u8, verb: Verb) {
    for index in 0..count {
        session.hit(Target::One(index), verb);
    }
}

/// Tells a time, where nothing was refused.
fn told(rt: &HostRuntime, session: &Session, name: &str, time: u64) -> Option<()> {
    if session.refused() > 0 {
        return None;
    }
    tell(rt, name, time);
    Some(())
}
