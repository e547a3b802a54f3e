//! The worked runs of layers, as calls.

ghost use Rattle.std.specs.Prelude.{◌≡◌, ◌≤◌, ◌<◌, ◌+◌, false, true, IsTrue, IsFalse, IfSome};
ghost use Rattle.sl_base.specs.Limits.{max_chunks};
ghost use Rattle.loop_tape.specs.Tapes.{Owns};

use crate::{How, Layers, Started};
use loop_tape::Pool;
use sl_base::Frame;
use std::alloc::Global;
use std::test::Fail;

/// The frame with this number on both sides.
fn frame(number: u16) -> Frame {
    Frame {
        left: number as i32,
        right: number as i32,
    }
}

/// A pool of so many chunks, and new layers over it.
fn made(alloc: Global, chunks: u32) -> Option<(Pool, Layers)>
    requires { chunks ≤ max_chunks }
    ensures closed { IfSome result (λ r. IsFalse r.1.writing) }
    ensures owns { IfSome result (λ r. Owns r.1.tape r.0) }
{
    let pool = Pool::new(alloc, chunks).ok()?;
    let layers = Layers::new(alloc, chunks).ok()?;
    Some((pool, layers))
}

/// Puts frames behind the open layer's list, and says whether all fit.
fn append(layers: &mut Layers, pool: &mut Pool, numbers: &[u16]) -> bool
    requires writing { IsTrue layers.old.writing }
    requires owns { Owns layers.old.tape pool.old }
    ensures writing { IsTrue layers.new.writing }
    ensures owns { Owns layers.new.tape pool.new }
{
    let mut all = true;
    for i in 0..numbers.len() {
        layers.break_streak();
        let place = layers.sizes().length;
        if !layers.write(pool, place, frame(numbers[i]), How::Append) {
            all = false;
        }
    }
    all
}

/// Puts frames before the places from one on, and says whether all fit.
fn insert(layers: &mut Layers, pool: &mut Pool, from: u32, numbers: &[u16]) -> bool
    requires writing { IsTrue layers.old.writing }
    requires owns { Owns layers.old.tape pool.old }
    requires from { from ≤ 1000000 }
    ensures writing { IsTrue layers.new.writing }
    ensures owns { Owns layers.new.tape pool.new }
{
    let mut place = from;
    let mut all = true;
    for i in 0..numbers.len() {
        layers.break_streak();
        if place >= layers.sizes().length
            || !layers.write(pool, place, frame(numbers[i]), How::Insert)
        {
            all = false;
        } else {
            place += 1;
        }
    }
    all
}

/// Adds a number to what stands at a place of the open layer's list.
fn add(layers: &mut Layers, pool: &mut Pool, place: u32, number: i32) -> bool
    requires writing { IsTrue layers.old.writing }
    requires owns { Owns layers.old.tape pool.old }
    ensures writing { IsTrue layers.new.writing }
    ensures owns { Owns layers.new.tape pool.new }
{
    layers.break_streak();
    if place >= layers.sizes().length {
        return false;
    }
    let was = layers.read(pool, place);
    let Some(sum) = was.left.checked_add(number) else {
        return false;
    };
    if sum < 0 || sum > 1000 {
        return false;
    }
    layers.write(pool, place, frame(sum as u16), How::Forward)
}

/// The numbers of the list, as far as they fit into `out`.
fn list(layers: &Layers, pool: &Pool, out: &mut [Frame]) -> bool
    requires owns { Owns layers.now.tape pool.now }
{
    if layers.sizes().length as usize != out.len() {
        return false;
    }
    layers.read_span(pool, 0, out);
    true
}

/// The frame at a place of the list, silence past its end.
fn frame_at(layers: &Layers, pool: &Pool, place: u32) -> Frame
    requires owns { Owns layers.now.tape pool.now }
{
    if place >= layers.sizes().length {
        return frame(0);
    }
    layers.read(pool, place)
}

/// Opens a layer, empty or a copy of the current one, and says whether it is open.
fn open(layers: &mut Layers, pool: &mut Pool, empty: bool) -> bool
    requires closed { IsFalse layers.old.writing }
    requires owns { Owns layers.old.tape pool.old }
    ensures writing { layers.new.writing ≡ result }
    ensures owns { Owns layers.new.tape pool.new }
{
    if !empty && layers.sizes().layers == 0 {
        return false;
    }
    match layers.start_layer(pool, empty) {
        Started::Ok => true,
        Started::Layers => false,
        Started::Seams => false,
        Started::Room => false,
    }
}

/// Records these numbers as a layer.
fn record(layers: &mut Layers, pool: &mut Pool, numbers: &[u16]) -> bool
    requires closed { IsFalse layers.old.writing }
    requires owns { Owns layers.old.tape pool.old }
    ensures closed { IsFalse layers.new.writing }
    ensures owns { Owns layers.new.tape pool.new }
{
    if !open(layers, pool, true) {
        return false;
    }
    let all = append(layers, pool, numbers);
    layers.finish(None);
    all
}

/// Goes on over the open layer's list for so many frames, and adds a number to each. At its end
/// comes its base once more.
fn go_over(layers: &mut Layers, pool: &mut Pool, frames: u32, number: i32) -> bool
    requires writing { IsTrue layers.old.writing }
    requires owns { Owns layers.old.tape pool.old }
    ensures writing { IsTrue layers.new.writing }
    ensures owns { Owns layers.new.tape pool.new }
{
    let mut all = true;
    for place in 0..frames {
        let sizes = layers.sizes();
        if place >= sizes.length && sizes.base > 0 {
            layers.extend();
        }
        if !add(layers, pool, place, number) {
            all = false;
        }
    }
    all
}

#[test]
fn two_turns_of_overdub_take_one_chunk_more(rt: HostRuntime) -> Result<(), Fail> {
    let Some((mut pool, mut layers)) = made(rt.alloc(), 16) else {
        return Err("memory".into());
    };
    assert!(rt; record(&mut layers, &mut pool, &[1u16; 4096]));
    assert_eq!(rt; pool.free_chunks() as usize * 4096, 61440);
    if !open(&mut layers, &mut pool, false) {
        return Err("opening".into());
    }
    assert!(rt; go_over(&mut layers, &mut pool, 4096, 1));
    assert!(rt; go_over(&mut layers, &mut pool, 4096, 1));
    assert_eq!(rt; pool.free_chunks() as usize * 4096, 57344);
    layers.finish(None);
    assert_eq!(rt; frame_at(&layers, &pool, 0), frame(3));
    assert_eq!(rt; frame_at(&layers, &pool, 4095), frame(3));
    assert!(rt; layers.undo());
    assert_eq!(rt; frame_at(&layers, &pool, 4095), frame(1));
    assert!(rt; layers.redo());
    assert_eq!(rt; frame_at(&layers, &pool, 4095), frame(3));
    Ok(())
}

#[test]
fn a_multiply_ends_at_once_or_with_its_cycle(rt: HostRuntime) -> Result<(), Fail> {
    let mut heard = [frame(0); 9];
    let Some((mut pool, mut layers)) = made(rt.alloc(), 1) else {
        return Err("memory".into());
    };
    assert!(rt; record(&mut layers, &mut pool, &[1, 2, 3]));
    if !open(&mut layers, &mut pool, false) {
        return Err("opening".into());
    }
    assert!(rt; go_over(&mut layers, &mut pool, 7, 0));
    if layers.sizes().length < 7 {
        return Err("length".into());
    }
    layers.finish(Some(7));
    assert_eq!(rt; layers.sizes().length, 7);
    assert_eq!(rt; layers.sizes().cycle, 3);
    layers.undo();
    if !open(&mut layers, &mut pool, false) {
        return Err("opening".into());
    }
    assert!(rt; go_over(&mut layers, &mut pool, 9, 0));
    layers.finish(None);
    if !open(&mut layers, &mut pool, false) {
        return Err("opening".into());
    }
    assert!(rt; add(&mut layers, &mut pool, 6, 10));
    assert!(rt; add(&mut layers, &mut pool, 7, 10));
    assert!(rt; add(&mut layers, &mut pool, 8, 10));
    assert!(rt; list(&layers, &pool, &mut heard));
    assert_eq!(rt;
        heard.as_slice(),
        [
            frame(1),
            frame(2),
            frame(3),
            frame(1),
            frame(2),
            frame(3),
            frame(11),
            frame(12),
            frame(13)
        ]
        .as_slice()
    );
    Ok(())
}

#[test]
fn an_insert_goes_before_the_first_frame_or_the_last(rt: HostRuntime) -> Result<(), Fail> {
    let mut heard = [frame(0); 6];
    let Some((mut pool, mut layers)) = made(rt.alloc(), 1) else {
        return Err("memory".into());
    };
    assert!(rt; record(&mut layers, &mut pool, &[1, 2, 3, 4]));
    if !open(&mut layers, &mut pool, false) {
        return Err("opening".into());
    }
    assert!(rt; insert(&mut layers, &mut pool, 0, &[8, 9]));
    layers.finish(None);
    assert!(rt; list(&layers, &pool, &mut heard));
    assert_eq!(rt;
        heard.as_slice(),
        [frame(8), frame(9), frame(1), frame(2), frame(3), frame(4)].as_slice()
    );
    layers.undo();
    if !open(&mut layers, &mut pool, false) {
        return Err("opening".into());
    }
    assert!(rt; insert(&mut layers, &mut pool, 3, &[8, 9]));
    layers.finish(None);
    assert!(rt; list(&layers, &pool, &mut heard));
    assert_eq!(rt;
        heard.as_slice(),
        [frame(1), frame(2), frame(3), frame(8), frame(9), frame(4)].as_slice()
    );
    Ok(())
}

#[test]
fn a_loaded_list_is_held_by_its_pin(rt: HostRuntime) -> Result<(), Fail> {
    let mut saved = [frame(0); 2];
    let mut pool = Pool::new(rt.alloc(), 1).map_err(|_| "memory")?;
    let mut layers = Layers::new(rt.alloc(), 1).map_err(|_| "memory")?;
    layers.load(&mut pool, &[frame(5), frame(6), frame(7)], 3);
    assert_eq!(rt; layers.tops(), (3, 3));
    layers.release();
    if layers.sizes().length != 3 {
        return Err("length".into());
    }
    layers.pin();
    layers.seek_saved(1);
    layers.saved_span(&pool, 1, &mut saved);
    assert_eq!(rt; saved.as_slice(), [frame(6), frame(7)].as_slice());
    assert_eq!(rt; layers.saved(&pool, 0), frame(5));
    layers.seek(2);
    assert_eq!(rt; layers.read(&pool, 2), frame(7));
    layers.release();
    if !open(&mut layers, &mut pool, true) {
        return Err("opening".into());
    }
    layers.drop_last();
    assert_eq!(rt; layers.sizes().layers, 1);
    Ok(())
}
