//! Pieces in a vector: put, taken out, split, pushed.

ghost use Rattle.std.specs.Prelude.{◌≡◌, ◌≤◌, ◌<◌, ◌+◌, ◌++◌, ◌^◌, drop, length, take};
ghost use Rattle.std.specs.List.{insert};
ghost use Rattle.std.specs.Vec.{vec_capacity, vec_len};
ghost use Rattle.pieces.specs.Pieces.{Solid, total as total_of};
ghost use Rattle.pieces.specs.Splitting.{IsHint, before, behind, split, spliced};

use crate::find::{Hint, find_from};
use crate::piece::Piece;

/// How many addresses there are in these pieces.
pub fn total_in(list: &[Piece]) -> u32
    requires { total_of list.now < 2 ^ 32 }
    ensures { result ≡ total_of list.now }
{
    let mut total = 0;
    for i in 0..list.len() {
        total += list[i].len();
    }
    total
}

/// Pushes all these pieces, into room that is there.
pub fn push_all(pieces: &mut Vec<Piece>, list: &[Piece])
    requires room { length pieces.old.items + length list.now ≤ vec_capacity pieces.old }
    ensures items { pieces.new.items ≡ pieces.old.items ++ list.now }
    ensures capacity { vec_capacity pieces.old ≤ vec_capacity pieces.new }
{
    for i in 0..list.len() {
        pieces.push_reserved(list[i]);
    }
}

/// Pushes a copy of some pieces, into room that is there.
#[tactic(auto, using(crate::proofs::RepeatLemmas::repeats))]
pub(crate) fn push_again(pieces: &mut Vec<Piece>, first: usize, count: usize)
    requires within { first + count ≤ length pieces.old.items }
    requires room { length pieces.old.items + count ≤ vec_capacity pieces.old }
    ensures items { pieces.new.items ≡ pieces.old.items
        ++ take count (drop first pieces.old.items) }
    ensures capacity { vec_capacity pieces.old ≤ vec_capacity pieces.new }
{
    for i in 0..count {
        let piece = pieces[first + i];
        pieces.push_reserved(piece);
    }
}

/// Puts a piece before an index.
pub(crate) fn put(pieces: &mut Vec<Piece>, index: usize, piece: Piece)
    requires index { index ≤ length pieces.old.items }
    requires room { vec_len pieces.old < vec_capacity pieces.old }
    ensures items { pieces.new.items ≡ insert pieces.old.items index piece }
    ensures capacity { vec_capacity pieces.old ≤ vec_capacity pieces.new }
{
    let _ = pieces.insert(index, piece);
}

/// Has a piece begin at the place, and gives its index.
#[tactic(auto, using(crate::proofs::SplittingLemmas::splits))]
pub(crate) fn split_vec(pieces: &mut Vec<Piece>, hint: Hint, place: u32) -> usize
    requires hint { IsHint pieces.old.items hint.piece hint.begin }
    requires place { place ≤ total_of pieces.old.items }
    requires room { vec_len pieces.old < vec_capacity pieces.old }
    ensures items { pieces.new.items ≡ split place pieces.old.items }
    ensures index { result ≡ length (before place pieces.old.items) }
    ensures longer { vec_len pieces.new ≤ vec_len pieces.old + 1 }
    ensures capacity { vec_capacity pieces.old ≤ vec_capacity pieces.new }
{
    let spot = find_from(pieces, hint, place);
    let into = place - spot.begin;
    if into == 0 {
        return spot.piece;
    }
    let piece = pieces[spot.piece];
    pieces[spot.piece] = piece.back(into);
    put(pieces, spot.piece, piece.front(into));
    spot.piece + 1
}

/// Takes out the pieces from one index up to another.
#[tactic(auto, using(crate::proofs::AddressLemmas::removed))]
fn remove_between(pieces: &mut Vec<Piece>, from: usize, to: usize)
    requires order { from ≤ to }
    requires within { to ≤ length pieces.old.items }
    ensures items { pieces.new.items ≡ take from pieces.old.items ++ drop to pieces.old.items }
    ensures shorter { vec_len pieces.new ≤ vec_len pieces.old }
    ensures begin { from ≤ length pieces.new.items }
    ensures capacity { vec_capacity pieces.old ≤ vec_capacity pieces.new }
{
    let n = pieces.len();
    pieces.copy_within(to..n, from);
    pieces.truncate(from + (n - to));
}

/// Puts a piece in place of so many addresses, and gives its index.
#[tactic(auto, using(crate::proofs::SplittingLemmas::splits, crate::proofs::AddressLemmas::twice))]
pub(crate) fn splice_vec(
    pieces: &mut Vec<Piece>,
    hint: Hint,
    place: u32,
    count: u32,
    piece: Piece,
) -> usize
    requires hint { IsHint pieces.old.items hint.piece hint.begin }
    requires within { place + count ≤ total_of pieces.old.items }
    requires long { total_of pieces.old.items < 2 ^ 32 }
    requires room { vec_len pieces.old + 2 < vec_capacity pieces.old }
    ensures items { pieces.new.items ≡ spliced place count piece pieces.old.items }
    ensures index { result ≡ length (before place pieces.old.items) }
    ensures capacity { vec_capacity pieces.old ≤ vec_capacity pieces.new }
{
    let from = split_vec(pieces, hint, place);
    let to = split_vec(
        pieces,
        Hint {
            piece: from,
            begin: place,
        },
        place + count,
    );
    remove_between(pieces, from, to);
    put(pieces, from, piece);
    from
}
