//! Many frames of a tape at once.

ghost use Rattle.std.specs.Prelude.{◌≡◌, ◌≤◌, ◌<◌, ◌+◌, ◌-◌, ◌%◌, ℕ, length, get_or};
ghost use Rattle.sl_base.specs.Limits.{chunk_frames};
ghost use Rattle.sl_base.specs.Sounds.{silence};
ghost use Rattle.loop_tape.specs.Tapes.{at, Owns};

use crate::pool::Pool;
use crate::tape::Tape;
use sl_base::{CHUNK_FRAMES, Frame};

impl Tape {
    /// Copies the frames from an address on, all in one chunk.
    #[tactic(auto, using(crate::proofs::SpanLemmas::parts))]
    fn read_part(&self, pool: &Pool, address: u32, out: &mut [Frame])
        requires owns { Owns self.now pool.now }
        requires some { 0 < length out.old }
        requires below { address + length out.old ≤ self.now.len }
        requires within { address % chunk_frames + length out.old ≤ chunk_frames }
        ensures { (k : ℕ) → k < length out.old →
            get_or out.new k silence ≡ at self.now pool.now (address + k) }
    {
        let slot = self.slot_of(pool, address);
        out.copy_from_slice(pool.frames(slot, out.len()));
    }

    /// Copies the frames from an address on, as many as `out` has.
    #[tactic(auto, using(crate::proofs::SpanLemmas::spans))]
    pub fn read_forward(&self, pool: &Pool, address: u32, out: &mut [Frame])
        requires owns { Owns self.now pool.now }
        requires below { address + length out.old ≤ self.now.len }
        ensures { (k : ℕ) → k < length out.old →
            get_or out.new k silence ≡ at self.now pool.now (address + k) }
    {
        self.facts();
        let mut done = 0;
        while done < out.len() {
            let from = address + done as u32;
            let count = (out.len() - done).min((CHUNK_FRAMES - from % CHUNK_FRAMES) as usize);
            self.read_part(pool, from, &mut out[done..done + count]);
            done += count;
        }
    }

    /// Copies the frames from an address down, all in one chunk.
    #[tactic(auto, using(crate::proofs::SpanLemmas::parts))]
    fn read_part_backward(&self, pool: &Pool, address: u32, out: &mut [Frame])
        requires owns { Owns self.now pool.now }
        requires some { 0 < length out.old }
        requires below { address < self.now.len }
        requires within { length out.old ≤ address % chunk_frames + 1 }
        ensures { (k : ℕ) → k < length out.old →
            get_or out.new k silence ≡ at self.now pool.now (address - k) }
    {
        let slot = self.slot_of(pool, address);
        let count = out.len();
        let frames = pool.frames(slot - (count - 1), count);
        for i in 0..count {
            out[i] = frames[count - 1 - i];
        }
    }

    /// Copies the frames from an address down, as many as `out` has: that of `address` first, then
    /// that below it.
    #[tactic(auto, using(crate::proofs::SpanLemmas::spans))]
    pub fn read_backward(&self, pool: &Pool, address: u32, out: &mut [Frame])
        requires owns { Owns self.now pool.now }
        requires below { address < self.now.len }
        requires within { length out.old ≤ address + 1 }
        ensures { (k : ℕ) → k < length out.old →
            get_or out.new k silence ≡ at self.now pool.now (address - k) }
    {
        let mut done = 0;
        while done < out.len() {
            let from = address - done as u32;
            let count = (out.len() - done).min((from % CHUNK_FRAMES) as usize + 1);
            self.read_part_backward(pool, from, &mut out[done..done + count]);
            done += count;
        }
    }
}
