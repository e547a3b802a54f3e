//! Writes in a row.

ghost use Rattle.std.specs.Prelude.{◌≡◌, ◌≢◌, ℕ, ◌≤◌, ◌<◌, ◌+◌, ◌%◌, length, take, true, false, IsTrue, is_some, get_or};
ghost use Rattle.sl_base.specs.Limits.{chunk_frames};
ghost use Rattle.sl_commands.specs.declared.How.TheVariants.{Forward};
ghost use Rattle.looper_rules.specs.Layers.{current_length};
ghost use Rattle.looper_rules.specs.Stack.{streak_broken};
ghost use Rattle.looper_rules.specs.WritePlaces.{Follows};
ghost use Rattle.loop_tape.specs.Tapes.{AreSet, IsWhole, Owns, PushedAll};
ghost use Rattle.layer_memory.specs.Spans.{AreAlone, AreMarked, WritesSpan, newly_written_span};

use crate::layers::Layers;
use loop_tape::Pool;
use sl_base::{CHUNK_FRAMES, Frame};

/// How many frames these are, at most a chunk's.
fn most_of(frames: &[Frame]) -> u32
    ensures within { result ≤ length frames.now }
    ensures some { 1 ≤ length frames.now → 1 ≤ result }
{
    frames.len().min(CHUNK_FRAMES as usize) as u32
}

impl Layers {
    /// How many cells of the open layer from a place on, at most `count`, surely aren't fresh.
    #[tactic(auto, using(crate::proofs::SpanWriteLemmas::marks))]
    fn old_ahead(&self, place: u32, count: u32) -> u32
        requires writing { IsTrue self.now.writing }
        requires place { place < current_length self.now.stack.layers }
        requires some { 1 ≤ count }
        ensures within { result ≤ count }
        ensures old { AreMarked false result place self.now.stack.layers }
    {
        self.fill.old_cells(place, count)
    }

    /// The address of the cell at a place, and how many cells from there on, at most `count`, are
    /// fresh and hold addresses in a row.
    #[tactic(auto, using(crate::proofs::SpanWriteLemmas::marks))]
    fn fresh_ahead(&self, place: u32, count: u32) -> (u32, u32)
        requires writing { IsTrue self.now.writing }
        requires place { place < current_length self.now.stack.layers }
        requires some { 1 ≤ count }
        ensures within { result.1 ≤ count }
        ensures fresh { AreMarked true result.1 place self.now.stack.layers }
        ensures alone { AreAlone result.1 place result.0 self.now.stack }
        ensures below { 1 ≤ result.1 → result.0 + result.1 ≤ self.now.tape.len }
    {
        self.fill.facts();
        let count = self.fill.fresh_cells(place, count);
        let address = self.fill.address(place);
        (address, count)
    }

    /// Writes over fresh cells in a row.
    #[tactic(auto, using(crate::proofs::SpanWriteLemmas::rows))]
    fn rewrite_row(&mut self, pool: &mut Pool, address: u32, frames: &[Frame])
        requires writing { IsTrue self.old.writing }
        requires owns { Owns self.old.tape pool.old }
        requires some { 1 ≤ length frames.now }
        requires below { address + length frames.now ≤ self.old.tape.len }
        requires within { address % chunk_frames + length frames.now ≤ chunk_frames }
        ensures stack { self.new.stack ≡ streak_broken self.old.stack }
        ensures writing { self.new.writing ≡ true }
        ensures tape { self.new.tape ≡ self.old.tape }
        ensures set { AreSet self.old.tape self.old.tape pool.old pool.new address frames.now }
    {
        self.tape.facts();
        self.tape.set_frames(pool, address, frames);
        self.fill.break_streak();
    }

    /// Writes new cells in a row, within the last chunk of the tape, as many as one piece takes in
    /// a streak that goes on. How many.
    #[tactic(auto, using(crate::proofs::SpanWriteLemmas::rows))]
    fn push_row(&mut self, pool: &mut Pool, place: u32, frames: &[Frame]) -> u32
        requires writing { IsTrue self.old.writing }
        requires owns { Owns self.old.tape pool.old }
        requires place { place + length frames.now ≤ current_length self.old.stack.layers }
        requires follows { Follows self.old.stack.streak Forward place }
        requires begun { self.old.tape.len % chunk_frames ≢ 0 }
        requires within { self.old.tape.len % chunk_frames + length frames.now ≤ chunk_frames }
        ensures within { result ≤ length frames.now }
        ensures none { result ≡ 0 → (self.new ≡ self.old) × (pool.new ≡ pool.old) }
        ensures streak { 1 ≤ result → IsTrue (is_some self.old.stack.streak) }
        ensures stack { 1 ≤ result →
            self.new.stack ≡ newly_written_span result place self.old.tape.len self.old.stack }
        ensures writing { self.new.writing ≡ true }
        ensures pushed { 1 ≤ result →
            PushedAll self.old.tape self.new.tape pool.old pool.new (take result frames.now) }
        ensures whole { IsWhole self.new.tape }
    {
        self.tape.facts();
        self.fill.facts();
        let count = self.fill.write_span(place, frames.len() as u32);
        if count == 0 {
            return 0;
        }
        self.tape.push_frames(pool, &frames[..count as usize]);
        self.tape.facts();
        count
    }

    /// Writes over fresh cells in a row, from the first of these frames on, as many as lie in one
    /// chunk in order. How many.
    #[tactic(auto, using(crate::proofs::SpanWriteLemmas::none, crate::proofs::SpanWriteLemmas::answers))]
    fn write_fresh(&mut self, pool: &mut Pool, place: u32, frames: &[Frame]) -> usize
        requires writing { IsTrue self.old.writing }
        requires owns { Owns self.old.tape pool.old }
        requires some { 1 ≤ length frames.now }
        requires place { place + length frames.now ≤ current_length self.old.stack.layers }
        ensures within { result ≤ length frames.now }
        ensures writes { WritesSpan (take result frames.now) place self.old self.new pool.old
            pool.new }
    {
        self.facts();
        let (address, fresh) = self.fresh_ahead(place, most_of(frames));
        let count = fresh.min(CHUNK_FRAMES - address % CHUNK_FRAMES) as usize;
        if count == 0 {
            return 0;
        }
        self.rewrite_row(pool, address, &frames[..count]);
        count
    }

    /// Writes new cells in a row over others, from the first of these frames on, as many as one
    /// piece and one chunk take in a streak that goes on. How many.
    #[tactic(auto, using(crate::proofs::SpanWriteLemmas::none, crate::proofs::SpanWriteLemmas::answers))]
    fn write_old(&mut self, pool: &mut Pool, place: u32, frames: &[Frame]) -> usize
        requires writing { IsTrue self.old.writing }
        requires owns { Owns self.old.tape pool.old }
        requires some { 1 ≤ length frames.now }
        requires place { place + length frames.now ≤ current_length self.old.stack.layers }
        requires follows { Follows self.old.stack.streak Forward place }
        ensures within { result ≤ length frames.now }
        ensures writes { WritesSpan (take result frames.now) place self.old self.new pool.old
            pool.new }
    {
        self.facts();
        let old = self.old_ahead(place, most_of(frames));
        let most = old.min(self.tape.rest()) as usize;
        if most == 0 {
            return 0;
        }
        self.push_row(pool, place, &frames[..most]) as usize
    }

    /// Writes frames in a row, each over the cell at its place, from the first of them on: as many
    /// as can be written at once, and none where the first is to be written alone. How many. A
    /// layer has to be open, and where a streak goes on they have to go on with it.
    pub fn write_span(&mut self, pool: &mut Pool, place: u32, frames: &[Frame]) -> usize
        requires writing { IsTrue self.old.writing }
        requires owns { Owns self.old.tape pool.old }
        requires some { 1 ≤ length frames.now }
        requires place { place + length frames.now ≤ current_length self.old.stack.layers }
        requires follows { Follows self.old.stack.streak Forward place }
        ensures within { result ≤ length frames.now }
        ensures writes { WritesSpan (take result frames.now) place self.old self.new pool.old
            pool.new }
    {
        if self.fill.is_fresh(place) {
            self.write_fresh(pool, place, frames)
        } else {
            self.write_old(pool, place, frames)
        }
    }

    /// How many frames `write_span` writes here at once, at most `count`. It takes no chunk.
    pub fn span_ahead(&self, place: u32, count: u32) -> u32
        requires writing { IsTrue self.now.writing }
        requires some { 1 ≤ count }
        requires place { place < current_length self.now.stack.layers }
        ensures { result ≤ count }
    {
        if self.fill.is_fresh(place) {
            let (address, fresh) = self.fresh_ahead(place, count);
            return fresh.min(CHUNK_FRAMES - address % CHUNK_FRAMES);
        }
        if !self.fill.has_streak() {
            return 0;
        }
        self.fill.old_cells(place, count).min(self.tape.rest())
    }
}
