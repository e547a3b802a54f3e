//! A list of pieces with its room.

ghost use Rattle.std.specs.Prelude.{◌≡◌, ◌≤◌, ◌<◌, ◌+◌, ◌^◌, [], ◌∷◌, ◌++◌, length, slice_index, slice_set, IfOk};
ghost use Rattle.std.specs.List.{insert};
ghost use Rattle.sl_base.specs.Limits.{max_seams};
ghost use Rattle.pieces.specs.OneMore.{Continues, ContinuesBackward, inserted, joined, overwritten, overwritten_backward, overwritten_span};
ghost use Rattle.pieces.specs.Pieces.{Solid, addresses, holding, total as total_of};
ghost use Rattle.pieces.specs.Splitting.{IsHint};

use crate::edit::{push_all, total_in};
use crate::find::{Hint, address_from, find_from, nearest};
use crate::piece::Piece;
use crate::replace::{
    append_vec, insert_vec, move_border_by, overwrite_vec, overwrite_vec_backward,
};
use sl_base::Memory;
use std::alloc::Global;
use std::marker::Model;

/// Pieces in order, with room for a number of them.
#[derive(Drop)]
pub struct PieceList {
    pub(crate) pieces: Vec<Piece>,
    pub(crate) room: u32,
    pub(crate) total: u32,
    pub(crate) hint: Hint,
}

impl Model for PieceList {
    ghost use Rattle.pieces.specs.Inside.{IsList, pieces_of};
    ghost use Rattle.pieces.specs.Pieces.{Pieces};

    ghost Value = { Pieces };

    ghost view = { pieces_of };

    ghost invariant = { IsList };
}

impl PieceList {
    /// No pieces, and room for `room` of them, at most 65536.
    pub fn new(alloc: Global, room: u32) -> Result<PieceList, Memory>
        requires { room ≤ max_seams }
        ensures { IfOk result (λ l. l ≡ record { items = []; room = room }) }
    {
        let pieces = Vec::with_capacity(alloc, room as usize + 4)?;
        Ok(PieceList {
            pieces,
            room,
            total: 0,
            hint: Hint::front(),
        })
    }

    /// The pieces, in order.
    pub fn pieces(&self) -> &[Piece]
        ensures value { result.now ≡ self.now.items }
        ensures solid { Solid self.now.items }
        ensures within { length self.now.items ≤ self.now.room }
    {
        &self.pieces
    }

    /// How many addresses there are.
    #[tactic(auto, using(crate::proofs::OneMoreLemmas::lengths))]
    pub fn len(&self) -> u32
        ensures value { result ≡ length (addresses self.now.items) }
        ensures total { result ≡ total_of self.now.items }
    {
        self.total
    }

    /// The address at a place. In order, forward or backward from where the list was worked on
    /// last, nothing is sought.
    #[tactic(auto, using(crate::proofs::OneMoreLemmas::lengths))]
    pub fn address(&self, place: u32) -> u32
        requires { place < length (addresses self.now.items) }
        ensures { result ≡ slice_index (addresses self.now.items) place }
    {
        address_from(&self.pieces, self.near(place), place)
    }

    /// Where a search for this place, or for the end, begins: the nearest of the front, the last
    /// place worked on, and the end.
    #[tactic(auto, using(crate::proofs::OneMoreLemmas::lengths))]
    pub fn near(&self, place: u32) -> Hint
        requires { place ≤ length (addresses self.now.items) }
        ensures { IsHint self.now.items result.piece result.begin }
    {
        nearest(&self.pieces, self.hint, self.total, place)
    }

    /// Has searches begin at this place. It changes nothing that is seen.
    #[tactic(auto, using(crate::proofs::OneMoreLemmas::lengths))]
    pub fn seek(&mut self, place: u32)
        requires { place ≤ length (addresses self.old.items) }
        ensures { self.new ≡ self.old }
    {
        self.hint = find_from(&self.pieces, self.near(place), place);
    }

    /// Drops all pieces.
    pub fn clear(&mut self)
        ensures { self.new ≡ holding [] self.old }
    {
        self.pieces.truncate(0);
        self.total = 0;
        self.hint = Hint::front();
    }

    /// Copies these pieces in place of all that it has.
    #[tactic(auto, using(crate::proofs::OneMoreLemmas::lengths))]
    pub fn set_to(&mut self, pieces: &[Piece])
        requires solid { Solid pieces.now }
        requires room { length pieces.now ≤ self.old.room }
        requires short { length (addresses pieces.now) < 2 ^ 32 }
        ensures { self.new ≡ holding pieces.now self.old }
    {
        let total = total_in(pieces);
        self.pieces.truncate(0);
        push_all(&mut self.pieces, pieces);
        self.total = total;
        self.hint = Hint::front();
    }

    /// Puts an address in place of that at a place.
    #[tactic(auto, using(crate::proofs::OneMoreLemmas::fills))]
    pub fn overwrite(&mut self, place: u32, address: u32)
        requires place { place < length (addresses self.old.items) }
        requires room { length (overwritten place address self.old.items) ≤ self.old.room }
        ensures pieces { self.new ≡ holding (overwritten place address self.old.items) self.old }
        ensures addresses { addresses self.new.items ≡ slice_set (addresses self.old.items) place
            address }
        ensures continues { Continues (place + 1) (address + 1) self.new.items }
    {
        let piece = overwrite_vec(&mut self.pieces, self.hint, place, address);
        self.hint = Hint {
            piece,
            begin: place + 1,
        };
    }

    /// Puts addresses in a row in place of those from a place on, as many as a streak that goes on
    /// takes from one piece, but not the last of them, and at most `count`. It says how many.
    #[tactic(auto, using(crate::proofs::OneMoreLemmas::lengths, crate::proofs::SpanLemmas::spans))]
    pub fn overwrite_span(&mut self, place: u32, address: u32, count: u32) -> u32
        requires within { place + count ≤ length (addresses self.old.items) }
        requires short { address + count < 2 ^ 32 }
        ensures within { result ≤ count }
        ensures pieces { self.new ≡ holding (overwritten_span result place address self.old.items)
            self.old }
    {
        let done = move_border_by(&mut self.pieces, self.hint, place, address, count);
        self.hint.begin += done;
        done
    }

    /// Puts an address in place of that at a place, where the next one comes before it.
    #[tactic(auto, using(crate::proofs::BackwardLemmas::fills))]
    pub fn overwrite_backward(&mut self, place: u32, address: u32)
        requires place { place < length (addresses self.old.items) }
        requires room { length (overwritten_backward place address self.old.items) ≤ self.old.room }
        ensures pieces { self.new ≡ holding (overwritten_backward place address self.old.items)
            self.old }
        ensures addresses { addresses self.new.items ≡ slice_set (addresses self.old.items) place
            address }
        ensures continues { ContinuesBackward place (address + 1) self.new.items }
    {
        let piece = overwrite_vec_backward(&mut self.pieces, self.hint, place, address);
        self.hint = Hint {
            piece,
            begin: place,
        };
    }

    /// Puts an address before that at a place.
    #[tactic(auto, using(crate::proofs::OneMoreLemmas::fills))]
    pub fn insert_here(&mut self, place: u32, address: u32)
        requires place { place < length (addresses self.old.items) }
        requires short { length (addresses self.old.items) + 1 < 2 ^ 32 }
        requires room { length (inserted place address self.old.items) ≤ self.old.room }
        ensures pieces { self.new ≡ holding (inserted place address self.old.items) self.old }
        ensures addresses { addresses self.new.items ≡ insert (addresses self.old.items) place
            address }
        ensures continues { Continues (place + 1) (address + 1) self.new.items }
    {
        let piece = insert_vec(&mut self.pieces, self.hint, place, address);
        self.hint = Hint {
            piece,
            begin: place + 1,
        };
        self.total += 1;
    }

    /// Puts an address behind all others.
    #[tactic(auto, using(crate::proofs::OneMoreLemmas::fills))]
    pub fn append(&mut self, address: u32)
        requires short { length (addresses self.old.items) + 1 < 2 ^ 32 }
        requires room { length (joined address self.old.items) ≤ self.old.room }
        ensures pieces { self.new ≡ holding (joined address self.old.items) self.old }
        ensures addresses { addresses self.new.items ≡ addresses self.old.items ++ address ∷ [] }
        ensures continues { Continues (length (addresses self.old.items) + 1) (address + 1)
            self.new.items }
    {
        let piece = append_vec(&mut self.pieces, address);
        self.total += 1;
        self.hint = Hint {
            piece,
            begin: self.total,
        };
    }

    /// Copies these pieces behind the others.
    #[tactic(auto, using(crate::proofs::OneMoreLemmas::extended))]
    pub fn extend(&mut self, pieces: &[Piece])
        requires solid { Solid pieces.now }
        requires room { length self.old.items + length pieces.now ≤ self.old.room }
        requires short { length (addresses self.old.items) + length
            (addresses pieces.now) < 2 ^ 32 }
        ensures pieces { self.new ≡ holding (self.old.items ++ pieces.now) self.old }
        ensures addresses { addresses self.new.items ≡ addresses self.old.items
            ++ addresses pieces.now }
    {
        let more = total_in(pieces);
        push_all(&mut self.pieces, pieces);
        self.total += more;
    }
}
