//! A list of pieces split, spliced, cut and repeated.

ghost use Rattle.std.specs.Prelude.{◌≡◌, ◌≤◌, ◌<◌, ◌+◌, ◌^◌, ◌++◌, drop, length, take};
ghost use Rattle.pieces.specs.Pieces.{addresses, holding, piece_addresses, total as total_of};
ghost use Rattle.pieces.specs.Splitting.{before, repeated, replaced, split, spliced};

use crate::edit::{push_again, splice_vec, split_vec, total_in};
use crate::find::Hint;
use crate::list::PieceList;
use crate::piece::Piece;

/// Has a piece begin at the place, and gives its index: at the end of the list the number of
/// pieces.
#[tactic(auto, using(crate::proofs::OneMoreLemmas::lengths, crate::proofs::SplicingLemmas::calls))]
pub fn split_at(list: &mut PieceList, place: u32) -> usize
    requires place { place ≤ total_of list.old.items }
    requires room { length (split place list.old.items) ≤ list.old.room }
    ensures value { result ≡ length (before place list.old.items) }
    ensures begins { total_of (take result list.new.items) ≡ place }
    ensures pieces { list.new ≡ holding (split place list.old.items) list.old }
    ensures addresses { addresses list.new.items ≡ addresses list.old.items }
{
    let piece = split_vec(&mut list.pieces, list.hint, place);
    list.hint = Hint {
        piece,
        begin: place,
    };
    piece
}

/// Puts the addresses of a piece in place of `count` addresses from a place on.
#[tactic(auto, using(crate::proofs::SplicingLemmas::calls))]
pub fn splice(list: &mut PieceList, place: u32, count: u32, piece: Piece)
    requires within { place + count ≤ total_of list.old.items }
    requires short { total_of list.old.items + piece.len < 2 ^ 32 + count }
    requires room { length (spliced place count piece list.old.items) ≤ list.old.room }
    ensures pieces { list.new ≡ holding (spliced place count piece list.old.items) list.old }
    ensures addresses { addresses list.new.items ≡ replaced place count (piece_addresses piece)
        (addresses list.old.items) }
{
    let index = splice_vec(&mut list.pieces, list.hint, place, count, piece);
    list.total = list.total - count + piece.len();
    list.hint = Hint {
        piece: index,
        begin: place,
    };
}

/// Keeps the first `length` addresses.
#[tactic(auto, using(crate::proofs::OneMoreLemmas::lengths))]
pub fn cut(list: &mut PieceList, length: u32)
    requires { length ≤ total_of list.old.items }
    ensures pieces { list.new ≡ holding (before length list.old.items) list.old }
    ensures addresses { addresses list.new.items ≡ take length (addresses list.old.items) }
{
    let index = split_vec(&mut list.pieces, list.hint, length);
    list.pieces.truncate(index);
    list.total = length;
    list.hint = Hint::front();
}

/// Puts a copy of `count` pieces, from the index `first` on, behind the others.
#[tactic(auto, using(crate::proofs::OneMoreLemmas::extended, crate::proofs::RepeatLemmas::repeats))]
pub fn repeat(list: &mut PieceList, first: usize, count: usize)
    requires within { first + count ≤ length list.old.items }
    requires room { length list.old.items + count ≤ list.old.room }
    requires short { total_of (repeated first count list.old.items) < 2 ^ 32 }
    ensures pieces { list.new ≡ holding (repeated first count list.old.items) list.old }
    ensures addresses { addresses list.new.items ≡ addresses list.old.items
        ++ addresses (take count (drop first list.old.items)) }
{
    let more = total_in(&list.pieces[first..first + count]);
    push_again(&mut list.pieces, first, count);
    list.total += more;
}
