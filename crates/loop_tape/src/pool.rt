//! The chunks that all tapes of a looper share.

ghost use Rattle.std.specs.Prelude.{◌≡◌, ◌≢◌, ◌≤◌, ◌<◌, ◌+◌, ◌*◌, ◌/◌, ◌%◌, ℕ, [], ◌∷◌, ◌++◌, length, get_or, slice_set, take, drop, replicate, MatchOption, IfSome, IfOk};
ghost use Rattle.std.specs.Vec.{vec_capacity};
ghost use Rattle.sl_base.specs.Limits.{chunk_frames, max_chunks};
ghost use Rattle.sl_base.specs.Sounds.{silence};
ghost use Rattle.loop_tape.specs.Pools.{IsPool, IsTaken, IsOutside, with_frames};

use crate::filling::fill_to;
use sl_base::{CHUNK_FRAMES, Frame, Memory};
use std::alloc::Global;
use std::marker::Model;

/// Chunks of 4096 frames. It owns their frames; tapes have the numbers of those that they took.
#[derive(Drop)]
pub struct Pool {
    store: Vec<Frame>,
    given: Vec<u32>,
    begun: u32,
    all: u32,
}

impl Model for Pool {
    ghost use Rattle.loop_tape.specs.Pools.{PoolOf};

    ghost Value = { PoolOf };

    ghost use Rattle.loop_tape.specs.PoolInside.{pool_of, IsInside};

    ghost view = { pool_of };

    ghost invariant = { IsInside };
}

impl Pool {
    /// So many chunks, 32768 at most, all free and silent. It takes 32 KiB of memory for each, and
    /// touches none of it.
    #[tactic(auto, using(crate::proofs::PoolLemmas::news))]
    pub fn new(alloc: Global, chunks: u32) -> Result<Pool, Memory>
        requires { chunks ≤ max_chunks }
        ensures all { IfOk result (λ p. p.all ≡ chunks) }
        ensures free { IfOk result (λ p. length p.free ≡ chunks) }
        ensures silent { IfOk result (λ p. p.store ≡ replicate (chunks * chunk_frames) silence) }
    {
        let Ok(store) = Vec::with_capacity(alloc, chunks as usize * CHUNK_FRAMES as usize) else {
            return Err(Memory);
        };
        let Ok(given) = Vec::with_capacity(alloc, chunks as usize) else {
            return Err(Memory);
        };
        Ok(Pool {
            store,
            given,
            begun: 0,
            all: chunks,
        })
    }

    /// Touches all memory of the chunks, so that no later call waits for it.
    #[tactic(auto, using(crate::proofs::PoolLemmas::pads))]
    pub fn fill(&mut self)
        ensures { self.new ≡ self.old }
    {
        fill_to(&mut self.store, self.all as usize * CHUNK_FRAMES as usize);
    }

    /// How many chunks are free.
    #[tactic(auto, using(crate::proofs::PoolLemmas::counts))]
    pub fn free_chunks(&self) -> u32
        ensures value { result ≡ length self.now.free }
        ensures within { result ≤ self.now.all }
    {
        self.all - self.begun + self.given.len() as u32
    }

    /// What always holds of a pool.
    #[tactic(auto, using(crate::proofs::PoolLemmas::checks))]
    pub(crate) fn facts(&self)
        ensures pool { IsPool self.now }
        ensures most { self.now.all ≤ max_chunks }
    {
        let _all = self.all;
    }

    /// The frame that lies here, in a chunk that a tape has.
    #[tactic(auto, using(crate::proofs::PoolLemmas::reads))]
    pub(crate) fn read(&self, slot: usize) -> Frame
        requires { IsTaken self.now (slot / chunk_frames) }
        ensures { result ≡ get_or self.now.store slot silence }
    {
        self.store[slot]
    }

    /// So many frames from here on, all in one chunk that a tape has.
    #[tactic(auto, using(crate::proofs::PoolLemmas::reads))]
    pub(crate) fn frames(&self, slot: usize, count: usize) -> &[Frame]
        requires taken { IsTaken self.now (slot / chunk_frames) }
        requires within { slot % chunk_frames + count ≤ chunk_frames }
        ensures length { length result.now ≡ count }
        ensures value { (k : ℕ) → k < count →
            get_or result.now k silence ≡ get_or self.now.store (slot + k) silence }
    {
        &self.store[slot..slot + count]
    }

    /// Puts a frame here, in a chunk that a tape has.
    #[tactic(auto, using(crate::proofs::PoolLemmas::writes))]
    pub(crate) fn write(&mut self, slot: usize, frame: Frame)
        requires { IsTaken self.old (slot / chunk_frames) }
        ensures { self.new ≡ record {
          store = slice_set self.old.store slot frame;
          free =
              self.old.free;
          all = self.old.all;
        } }
    {
        self.store[slot] = frame;
    }

    /// Puts frames from here on, all in one chunk that a tape has.
    #[tactic(auto, using(crate::proofs::PoolLemmas::overwrites))]
    pub(crate) fn write_frames(&mut self, slot: usize, frames: &[Frame])
        requires taken { IsTaken self.old (slot / chunk_frames) }
        requires within { slot % chunk_frames + length frames.now ≤ chunk_frames }
        ensures { self.new ≡ record {
          store = with_frames slot frames.now self.old.store;
          free =
              self.old.free;
          all = self.old.all;
        } }
    {
        self.store[slot..slot + frames.len()].copy_from_slice(frames);
    }

    /// Takes back a chunk that a tape had.
    pub(crate) fn give(&mut self, chunk: u32)
        requires taken { IsTaken self.old chunk }
        requires room { length self.old.free < self.old.all }
        ensures { self.new ≡ record {
          store = self.old.store;
          free = self.old.free ++ chunk ∷ [];
          all = self.old.all;
        } }
    {
        self.given.push_reserved(chunk);
    }

    /// Gives a free chunk away, or None where there is none.
    pub(crate) fn take(&mut self) -> Option<u32>
        ensures store { self.new.store ≡ self.old.store }
        ensures all { self.new.all ≡ self.old.all }
        ensures free { MatchOption result ((self.old.free ≡ []) × (self.new.free ≡ []))
            (λ k. self.old.free ≡ self.new.free ++ k ∷ []) }
        ensures taken { IfSome result (λ k. IsTaken self.new k) }
    {
        if let Some(chunk) = self.given.pop() {
            return Some(chunk);
        }
        if self.begun == self.all {
            return None;
        }
        let chunk = self.begun;
        fill_to(
            &mut self.store,
            (chunk as usize + 1) * CHUNK_FRAMES as usize,
        );
        self.begun = chunk + 1;
        Some(chunk)
    }
}
