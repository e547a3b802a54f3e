//! A list of frames in chunks of a pool.

ghost use Rattle.std.specs.Prelude.{◌≡◌, ◌≢◌, ◌≤◌, ◌<◌, ◌+◌, ◌-◌, ◌*◌, ◌/◌, ◌%◌, ℕ, [], ◌∷◌, ◌++◌, length, get_or, slice_set, IfOk, IsTrue, IsFalse, ◌↔◌};
ghost use Rattle.std.specs.Vec.{vec_capacity};
ghost use Rattle.sl_base.specs.Limits.{chunk_frames, max_chunks};
ghost use Rattle.sl_base.specs.Sounds.{silence};
ghost use Rattle.loop_tape.specs.Pools.{PoolOf, IsPool, IsTaken};
ghost use Rattle.loop_tape.specs.Tapes.{TapeOf, slot, at, Owns, OthersStay, IsWhole, Pushed, PushedAll, Cut, IsSet, AreSet};

use crate::pool::Pool;
use sl_base::{CHUNK_FRAMES, Frame, Memory};
use std::alloc::Global;
use std::marker::Model;

/// A list of frames in chunks of a pool: the numbers of its chunks in order, and its length.
#[derive(Drop)]
pub struct Tape {
    chunks: Vec<u32>,
    len: u32,
    room: u32,
}

impl Model for Tape {
    ghost use Rattle.std.specs.Prelude.{◌≡◌, ◌≤◌, ◌+◌, ◌/◌, length};
    ghost use Rattle.std.specs.Vec.{vec_capacity};
    ghost use Rattle.sl_base.specs.Limits.{chunk_frames, max_chunks};
    ghost use Rattle.loop_tape.specs.Tapes.{TapeOf};

    ghost Value = { TapeOf };

    ghost view = { λ t. record { chunks = t.chunks.items; len = t.len; room = t.room } };

    ghost invariant = { λ t. (length t.chunks.items ≡ (t.len + 4095) / chunk_frames)
        × (length t.chunks.items ≤ t.room) × (t.room ≤ vec_capacity t.chunks)
        × (t.room ≤ max_chunks) };
}

impl Tape {
    /// An empty tape with room for so many chunks, 32768 at most.
    pub fn new(alloc: Global, chunks: u32) -> Result<Tape, Memory>
        requires { chunks ≤ max_chunks }
        ensures { IfOk result (λ t. t ≡ record { chunks = []; len = 0; room = chunks }) }
    {
        let list = Vec::with_capacity(alloc, chunks as usize)?;
        Ok(Tape {
            chunks: list,
            len: 0,
            room: chunks,
        })
    }

    /// What always holds of a tape.
    pub fn facts(&self)
        ensures whole { IsWhole self.now }
        ensures within { length self.now.chunks ≤ max_chunks }
        ensures short { self.now.len ≤ 134217728 }
    {
        let _length = self.len;
    }

    /// How many frames there are.
    pub fn len(&self) -> u32
        ensures value { result ≡ self.now.len }
        ensures whole { IsWhole self.now }
        ensures within { length self.now.chunks ≤ max_chunks }
        ensures short { self.now.len ≤ 134217728 }
    {
        self.len
    }

    /// Where an address lies in the pool.
    #[tactic(auto, using(crate::proofs::SlotLemmas::slots))]
    pub(crate) fn slot_of(&self, pool: &Pool, address: u32) -> usize
        requires owns { Owns self.now pool.now }
        requires below { address < self.now.len }
        ensures value { result ≡ slot self.now.chunks address }
        ensures taken { IsTaken pool.now (result / chunk_frames) }
        ensures whole { IsWhole self.now }
    {
        self.chunks[(address / CHUNK_FRAMES) as usize] as usize * CHUNK_FRAMES as usize
            + (address % CHUNK_FRAMES) as usize
    }

    /// The frame at an address.
    pub fn get(&self, pool: &Pool, address: u32) -> Frame
        requires owns { Owns self.now pool.now }
        requires below { address < self.now.len }
        ensures { result ≡ at self.now pool.now address }
    {
        let slot = self.slot_of(pool, address);
        pool.read(slot)
    }

    /// Puts a frame in place of that at an address.
    #[tactic(auto, using(crate::proofs::SlotLemmas::sets))]
    pub fn set(&mut self, pool: &mut Pool, address: u32, frame: Frame)
        requires owns { Owns self.old pool.old }
        requires below { address < self.old.len }
        ensures { IsSet self.old self.new pool.old pool.new address frame }
    {
        pool.facts();
        let slot = self.slot_of(pool, address);
        pool.write(slot, frame);
    }

    /// Puts a frame behind the others, within the last chunk.
    #[tactic(auto, using(crate::proofs::SlotLemmas::pushes))]
    fn push_within(&mut self, pool: &mut Pool, frame: Frame)
        requires owns { Owns self.old pool.old }
        requires within { self.old.len % chunk_frames ≢ 0 }
        ensures { Pushed self.old self.new pool.old pool.new frame }
    {
        pool.facts();
        let slot = self.chunks[(self.len / CHUNK_FRAMES) as usize] as usize * CHUNK_FRAMES as usize
            + (self.len % CHUNK_FRAMES) as usize;
        pool.write(slot, frame);
        self.len += 1;
    }

    /// Puts a frame behind the others, at the begin of a chunk that was free. False where none is
    /// free.
    #[tactic(auto, using(crate::proofs::SlotLemmas::pushes))]
    fn push_chunk(&mut self, pool: &mut Pool, frame: Frame) -> bool
        requires owns { Owns self.old pool.old }
        requires whole { self.old.len % chunk_frames ≡ 0 }
        ensures full { IsFalse result → (self.new ≡ self.old) × (pool.new ≡ pool.old) }
        ensures free { IsFalse result ↔ (length pool.old.free ≡ 0) }
        ensures pushed { IsTrue result → Pushed self.old self.new pool.old pool.new frame }
    {
        pool.facts();
        match pool.take() {
            None => false,
            Some(chunk) => {
                self.chunks.push_reserved(chunk);
                pool.write(chunk as usize * CHUNK_FRAMES as usize, frame);
                self.len += 1;
                true
            }
        }
    }

    /// Puts a frame behind the others. False where that needs a chunk and none is free.
    pub fn push(&mut self, pool: &mut Pool, frame: Frame) -> bool
        requires owns { Owns self.old pool.old }
        ensures full { IsFalse result ↔
            ((self.old.len % chunk_frames ≡ 0) × (length pool.old.free ≡ 0)) }
        ensures unchanged { IsFalse result → (self.new ≡ self.old) × (pool.new ≡ pool.old) }
        ensures ok { IsTrue result → Pushed self.old self.new pool.old pool.new frame }
    {
        if self.len % CHUNK_FRAMES == 0 {
            return self.push_chunk(pool, frame);
        }
        self.push_within(pool, frame);
        true
    }

    /// How many frames come before the end of the last chunk, 0 where that is full.
    pub fn rest(&self) -> u32
        ensures within { 1 ≤ result → self.now.len % chunk_frames + result ≤ chunk_frames }
        ensures begun { 1 ≤ result → self.now.len % chunk_frames ≢ 0 }
    {
        let part = self.len % CHUNK_FRAMES;
        if part == 0 { 0 } else { CHUNK_FRAMES - part }
    }

    /// Where the next frame will lie, within the last chunk.
    #[tactic(auto, using(crate::proofs::SlotLemmas::ends))]
    fn end_slot(&self, pool: &Pool) -> usize
        requires owns { Owns self.now pool.now }
        requires begun { self.now.len % chunk_frames ≢ 0 }
        ensures value { result ≡ slot self.now.chunks self.now.len }
        ensures taken { IsTaken pool.now (result / chunk_frames) }
        ensures whole { IsWhole self.now }
    {
        self.chunks[(self.len / CHUNK_FRAMES) as usize] as usize * CHUNK_FRAMES as usize
            + (self.len % CHUNK_FRAMES) as usize
    }

    /// Puts frames behind the others, all of them within the last chunk.
    #[tactic(auto, using(crate::proofs::SlotLemmas::pushes, crate::proofs::PutLemmas::puts))]
    pub fn push_frames(&mut self, pool: &mut Pool, frames: &[Frame])
        requires owns { Owns self.old pool.old }
        requires begun { self.old.len % chunk_frames ≢ 0 }
        requires within { self.old.len % chunk_frames + length frames.now ≤ chunk_frames }
        ensures { PushedAll self.old self.new pool.old pool.new frames.now }
    {
        pool.facts();
        let slot = self.end_slot(pool);
        pool.write_frames(slot, frames);
        self.len += frames.len() as u32;
    }

    /// Puts frames in place of those from an address on, all of them in one chunk.
    #[tactic(auto, using(crate::proofs::SlotLemmas::sets, crate::proofs::PutLemmas::puts))]
    pub fn set_frames(&mut self, pool: &mut Pool, address: u32, frames: &[Frame])
        requires owns { Owns self.old pool.old }
        requires some { 1 ≤ length frames.now }
        requires below { address + length frames.now ≤ self.old.len }
        requires within { address % chunk_frames + length frames.now ≤ chunk_frames }
        ensures { AreSet self.old self.new pool.old pool.new address frames.now }
    {
        pool.facts();
        let slot = self.slot_of(pool, address);
        pool.write_frames(slot, frames);
    }

    /// Gives back the last chunk, and the frames in it.
    #[tactic(auto, using(crate::proofs::CutLemmas::gives))]
    fn give_chunk(&mut self, pool: &mut Pool)
        requires owns { Owns self.old pool.old }
        requires some { 0 < self.old.len }
        ensures len { self.new.len ≡ (self.old.len - 1) / chunk_frames * chunk_frames }
        ensures cut { Cut self.old self.new pool.old pool.new }
    {
        pool.facts();
        match self.chunks.pop() {
            None => {}
            Some(chunk) => {
                pool.give(chunk);
                self.len = (self.len - 1) / CHUNK_FRAMES * CHUNK_FRAMES;
            }
        }
    }

    /// Keeps the first frames, and gives back every chunk past them. `length` is at most the
    /// tape's.
    #[tactic(auto, using(crate::proofs::CutLemmas::cuts))]
    pub fn cut_to(&mut self, pool: &mut Pool, length: u32)
        requires owns { Owns self.old pool.old }
        requires within { length ≤ self.old.len }
        ensures len { self.new.len ≡ length }
        ensures whole { IsWhole self.new }
        ensures cut { Cut self.old self.new pool.old pool.new }
    {
        self.facts();
        while self.len > length && (self.len - 1) / CHUNK_FRAMES * CHUNK_FRAMES >= length {
            self.give_chunk(pool);
        }
        self.len = length;
    }
}
