//! Each call where it succeeds.

ghost use Rattle.std.specs.Prelude.{◌≤◌, ◌<◌};
ghost use Rattle.loop_tape.specs.Tapes.{Owns};

use crate::{Pool, Tape};
use sl_base::Frame;
use std::test::Fail;

/// Frame number `number` of the tests.
fn frame(number: u32) -> Frame
    requires { number < 8000000 }
{
    Frame {
        left: number as i32,
        right: -(number as i32),
    }
}

/// Pushes so many frames, of these numbers on, and says how many the tape took.
fn push_frames(tape: &mut Tape, pool: &mut Pool, from: u32, count: u32) -> u32
    requires owns { Owns tape.old pool.old }
    requires from { from ≤ 1000000 }
    requires count { count ≤ 1000000 }
    ensures { Owns tape.new pool.new }
{
    let mut taken = 0;
    for k in 0..count {
        if tape.push(pool, frame(from + k)) {
            taken += 1;
        }
    }
    taken
}

#[test]
fn a_tape_over_one_chunk_takes_4096_frames(rt: HostRuntime) -> Result<(), Fail> {
    let alloc = rt.alloc();
    let mut pool = Pool::new(alloc, 1).map_err(|_| "memory")?;
    let mut tape = Tape::new(alloc, 1).map_err(|_| "memory")?;
    assert_eq!(rt; push_frames(&mut tape, &mut pool, 0, 5000), 4096);
    assert_eq!(rt; tape.len(), 4096);
    assert_eq!(rt; pool.free_chunks(), 0);
    tape.cut_to(&mut pool, 0);
    assert_eq!(rt; pool.free_chunks(), 1);
    Ok(())
}

#[test]
fn frames_are_read_back_across_chunks(rt: HostRuntime) -> Result<(), Fail> {
    let alloc = rt.alloc();
    let mut pool = Pool::new(alloc, 4).map_err(|_| "memory")?;
    let mut tape = Tape::new(alloc, 4).map_err(|_| "memory")?;
    assert_eq!(rt; push_frames(&mut tape, &mut pool, 0, 9000), 9000);
    if tape.len() != 9000 {
        return Err("length".into());
    }
    tape.cut_to(&mut pool, 5000);
    assert_eq!(rt; pool.free_chunks(), 2);
    pool.fill();
    assert_eq!(rt; push_frames(&mut tape, &mut pool, 100000, 5000), 5000);
    if tape.len() != 10000 {
        return Err("length".into());
    }
    assert_eq!(rt; tape.get(&pool, 4999), frame(4999));
    assert_eq!(rt; tape.get(&pool, 5000), frame(100000));
    tape.set(&mut pool, 4999, frame(7));
    let mut ahead = vec![in alloc; frame(1), frame(1), frame(1)]?;
    tape.read_forward(&pool, 4998, &mut ahead);
    assert_eq!(rt;
        ahead.as_slice(),
        [frame(4998), frame(7), frame(100000)].as_slice()
    );
    let mut back = vec![in alloc; frame(1), frame(1), frame(1)]?;
    tape.read_backward(&pool, 8193, &mut back);
    assert_eq!(rt;
        back.as_slice(),
        [frame(103193), frame(103192), frame(103191)].as_slice()
    );
    Ok(())
}
