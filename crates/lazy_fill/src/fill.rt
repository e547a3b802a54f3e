//! The layer that is being written.

ghost use Rattle.std.specs.Prelude.{◌≡◌, ◌≤◌, ◌<◌, ◌+◌, ◌^◌, [], length, is_some, IfOk, IsTrue, IfSome, nat_le, slice_index, get_or, ℕ, false};
ghost use Rattle.sl_base.specs.Limits.{max_list_frames, max_seams};
ghost use Rattle.sl_commands.specs.declared.How.TheVariants.{Forward};
ghost use Rattle.looper_rules.specs.Layers.{fresh_cell};
ghost use Rattle.looper_rules.specs.WritePlaces.{Follows, IsPlace};
ghost use Rattle.looper_rules.specs.Writing.{with_cell};
ghost use Rattle.pieces.specs.Pieces.{Solid, addresses};
ghost use Rattle.pieces.specs.Splitting.{IsHint};
ghost use Rattle.lazy_fill.specs.Addresses.{Below};
ghost use Rattle.lazy_fill.specs.Fills.{IsFill, fill_broken, fill_cut, fill_extended, fill_frozen, fill_started, fill_written, fill_written_span};
ghost use Rattle.lazy_fill.specs.Marks.{marked};
ghost use Rattle.lazy_fill.specs.Streaks.{IsStreakOn, IsShort, MeetsPiece, more_seams};

use crate::write::write_address;
use pieces::{Hint, Piece, PieceList, piece_from};
use sl_base::{MAX_SEAMS, Memory};
use sl_commands::How;
use std::alloc::Global;
use std::marker::Model;

/// The last write of a streak that goes on.
#[derive(Clone, Copy)]
pub(crate) struct Last {
    place: u32,
    how: How,
}

/// The edit of the one layer that is being written.
#[derive(Drop)]
pub struct Fill {
    list: PieceList,
    floor: u32,
    next: u32,
    seams: u32,
    streak: Option<Last>,
}

impl Model for Fill {
    ghost use Rattle.lazy_fill.specs.Fills.{FillOf};
    ghost use Rattle.lazy_fill.specs.Inside.{HoldsFill, fill_of};

    ghost Value = { FillOf };

    ghost view = { fill_of };

    ghost invariant = { HoldsFill };
}

impl Fill {
    /// No cell, and room for all pieces that a layer may have.
    pub fn new(alloc: Global) -> Result<Fill, Memory>
        ensures { IfOk result (λ f. f ≡ fill_started [] 0 0) }
    {
        let list = PieceList::new(alloc, MAX_SEAMS)?;
        Ok(Fill {
            list,
            floor: 0,
            next: 0,
            seams: 0,
            streak: None,
        })
    }

    /// What always holds.
    pub fn facts(&self)
        ensures { IsFill self.now }
    {
        let _next = self.next;
    }

    /// Begins anew with a copy of these pieces, none of them fresh. The first write takes the
    /// address `floor`.
    #[tactic(auto, using(crate::proofs::FillLemmas::drafts))]
    pub fn start(&mut self, pieces: &[Piece], seams: u32, floor: u32)
        requires solid { Solid pieces.now }
        requires few { length pieces.now ≤ seams }
        requires seams { seams ≤ max_seams }
        requires below { Below floor (addresses pieces.now) }
        requires short { length (addresses pieces.now) ≤ max_list_frames }
        ensures { self.new ≡ fill_started pieces.now seams floor }
    {
        self.list.set_to(pieces);
        self.floor = floor;
        self.next = floor;
        self.seams = seams;
        self.streak = None;
    }

    /// Begins anew with no cell. The first write takes the address `floor`.
    pub fn start_empty(&mut self, floor: u32)
        ensures { self.new ≡ fill_started [] 0 floor }
    {
        self.list.clear();
        self.floor = floor;
        self.next = floor;
        self.seams = 0;
        self.streak = None;
    }

    /// The pieces of the layer.
    pub fn pieces(&self) -> &[Piece]
        ensures value { result.now ≡ self.now.pieces }
        ensures addresses { addresses result.now ≡ self.now.cells }
        ensures solid { Solid result.now }
        ensures few { length result.now ≤ self.now.seams }
    {
        self.list.pieces()
    }

    /// Where a search among the pieces for this place, or for the end, begins.
    pub fn near(&self, place: u32) -> Hint
        requires { place ≤ length self.now.cells }
        ensures { IsHint self.now.pieces result.piece result.begin }
    {
        self.list.near(place)
    }

    /// Has searches begin at this place. It changes nothing that is seen.
    pub fn seek(&mut self, place: u32)
        requires { place ≤ length self.old.cells }
        ensures { self.new ≡ self.old }
    {
        self.list.seek(place);
    }

    /// How many cells there are.
    pub fn len(&self) -> u32
        ensures value { result ≡ length self.now.cells }
        ensures within { result ≤ max_list_frames }
    {
        self.list.len()
    }

    /// The seams, at most 65536.
    pub fn seams(&self) -> u32
        ensures { result ≡ self.now.seams }
    {
        self.seams
    }

    /// Whether a streak goes on.
    pub fn has_streak(&self) -> bool
        ensures { result ≡ is_some self.now.streak }
    {
        self.streak.is_some()
    }

    /// What the next write adds to the seams.
    pub fn more(&self) -> u32
        ensures value { result ≡ more_seams self.now.streak }
        ensures within { result ≤ 2 }
    {
        if self.streak.is_some() { 0 } else { 2 }
    }

    /// The address at a place.
    pub fn address(&self, place: u32) -> u32
        requires { place < length self.now.cells }
        ensures { result ≡ slice_index self.now.cells place }
    {
        self.list.address(place)
    }

    /// Whether the cell at a place is fresh.
    pub fn is_fresh(&self, place: u32) -> bool
        requires { place < length self.now.cells }
        ensures { result ≡ nat_le self.now.floor (slice_index self.now.cells place) }
    {
        self.marks(self.list.address(place))
    }

    /// Whether a cell that holds this address is fresh.
    pub fn marks(&self, address: u32) -> bool
        ensures { result ≡ nat_le self.now.floor address }
    {
        self.floor <= address
    }

    /// How many cells from a place on, at most `count`, surely aren't fresh: as far as its piece
    /// goes.
    #[tactic(auto, using(crate::proofs::SpanLemmas::cells))]
    pub fn old_cells(&self, place: u32, count: u32) -> u32
        requires place { place < length self.now.cells }
        requires some { 1 ≤ count }
        ensures within { result ≤ count }
        ensures inside { place + result ≤ length self.now.cells }
        ensures old { (k : ℕ) → k < result →
            nat_le self.now.floor (get_or self.now.cells (place + k) 0) ≡ false }
    {
        let piece = piece_from(self.list.pieces(), self.list.near(place), place, count);
        if piece.start >= self.floor {
            return 0;
        }
        if piece.backward {
            return piece.len();
        }
        piece.len().min(self.floor - piece.start)
    }

    /// How many cells from a place on, at most `count`, are fresh and hold addresses that rise one
    /// by one: as far as its piece goes.
    #[tactic(auto, using(crate::proofs::SpanLemmas::cells))]
    pub fn fresh_cells(&self, place: u32, count: u32) -> u32
        requires place { place < length self.now.cells }
        requires some { 1 ≤ count }
        ensures within { result ≤ count }
        ensures inside { place + result ≤ length self.now.cells }
        ensures row { (k : ℕ) → k < result →
            get_or self.now.cells (place + k) 0 ≡ get_or self.now.cells place 0 + k }
        ensures fresh { 1 ≤ result → self.now.floor ≤ get_or self.now.cells place 0 }
    {
        let piece = piece_from(self.list.pieces(), self.list.near(place), place, count);
        if piece.backward || piece.start < self.floor {
            return 0;
        }
        piece.len()
    }

    /// Ends the streak.
    pub fn break_streak(&mut self)
        ensures { self.new ≡ fill_broken self.old }
    {
        self.streak = None;
    }

    /// Copies more pieces behind, which aren't fresh and count as `more` seams.
    #[tactic(auto, using(crate::proofs::FillLemmas::extends))]
    pub fn extend(&mut self, pieces: &[Piece], more: u32)
        requires solid { Solid pieces.now }
        requires few { length pieces.now ≤ more }
        requires seams { self.old.seams + more ≤ max_seams }
        requires below { Below self.old.floor (addresses pieces.now) }
        requires short { length self.old.cells + length (addresses pieces.now) ≤ max_list_frames }
        ensures { self.new ≡ fill_extended pieces.now more self.old }
    {
        self.list.extend(pieces);
        self.seams += more;
    }

    /// Clears all fresh marks, and ends the streak.
    #[tactic(auto, using(crate::proofs::FillLemmas::drafts))]
    pub fn freeze(&mut self)
        ensures { self.new ≡ fill_frozen self.old }
    {
        self.floor = self.next;
        self.streak = None;
    }

    /// Keeps the first so many cells, or all, and ends the streak.
    #[tactic(auto, using(crate::proofs::FillLemmas::cuts))]
    pub fn cut(&mut self, cut: Option<u32>)
        requires { IfSome cut (λ n. n ≤ length self.old.cells) }
        ensures { self.new ≡ fill_cut cut self.old }
    {
        self.streak = None;
        match cut {
            None => {}
            Some(count) => pieces::cut(&mut self.list, count),
        }
    }

    /// Writes the next address at a place. It makes a fresh cell over the one there, before it, or
    /// at the end.
    #[tactic(auto, using(crate::proofs::FillLemmas::drafts))]
    pub fn write(&mut self, place: u32, how: How)
        requires place { IsPlace how place (length self.old.cells) }
        requires follows { Follows self.old.streak how place }
        requires seams { self.old.seams + more_seams self.old.streak ≤ max_seams }
        requires next { self.old.next + 1 < 2 ^ 32 }
        requires short { IsShort how (length self.old.cells) }
        ensures value { self.new ≡ fill_written how place self.old }
        ensures cells { marked self.new.floor self.new.cells ≡ with_cell how place
            (fresh_cell self.old.next) (marked self.old.floor self.old.cells) }
        ensures within { length self.new.pieces ≤ length self.old.pieces + 2 }
        ensures met { MeetsPiece how place self.old.next self.old.pieces →
            length self.new.pieces ≤ length self.old.pieces }
        ensures continues { IsStreakOn how place self.new.next self.new.pieces }
    {
        let more = self.more();
        write_address(&mut self.list, place, self.next, how);
        self.seams += more;
        self.next += 1;
        self.streak = Some(Last { place, how });
    }

    /// Writes the next addresses in a row, each over the one at its place, as many as one piece
    /// takes in a streak that goes on, but not its last. It says how many, at most `count`; none
    /// where no streak goes on.
    #[tactic(auto, using(crate::proofs::SpanLemmas::spans))]
    pub fn write_span(&mut self, place: u32, count: u32) -> u32
        requires within { place + count ≤ length self.old.cells }
        requires follows { Follows self.old.streak Forward place }
        requires next { self.old.next + count < 2 ^ 32 }
        ensures value { self.new ≡ fill_written_span result place self.old }
        ensures within { result ≤ count }
        ensures streak { 1 ≤ result → IsTrue (is_some self.old.streak) }
    {
        if self.streak.is_none() {
            return 0;
        }
        let done = self.list.overwrite_span(place, self.next, count);
        if done == 0 {
            return 0;
        }
        self.next += done;
        self.streak = Some(Last {
            place: place + done - 1,
            how: How::Forward,
        });
        done
    }
}
