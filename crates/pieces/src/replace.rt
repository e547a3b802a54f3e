//! Pieces in a vector: one address more.

ghost use Rattle.std.specs.Prelude.{◌≡◌, ◌≤◌, ◌<◌, ◌+◌, ◌++◌, ◌^◌, drop, length, take, IsTrue, IsFalse};
ghost use Rattle.std.specs.Vec.{vec_capacity, vec_len};
ghost use Rattle.pieces.specs.OneMore.{inserted, joined, joined_before, overwritten, overwritten_backward, overwritten_span};
ghost use Rattle.pieces.specs.Pieces.{Solid, total as total_of};
ghost use Rattle.pieces.specs.Splitting.{IsHint, before, behind};

use crate::edit::{put, split_vec};
use crate::find::{Hint, find_from};
use crate::piece::Piece;

/// Takes the first address of a piece out.
#[tactic(auto, using(crate::proofs::OneMoreLemmas::shortens))]
fn shorten(pieces: &mut Vec<Piece>, index: usize)
    requires index { index < length pieces.old.items }
    requires solid { Solid (drop index pieces.old.items) }
    ensures items { pieces.new.items ≡ take index pieces.old.items
        ++ behind 1 (drop index pieces.old.items) }
    ensures capacity { vec_capacity pieces.old ≤ vec_capacity pieces.new }
    ensures shorter { vec_len pieces.new ≤ vec_len pieces.old }
{
    let piece = pieces[index];
    if piece.len() == 1 {
        let _ = pieces.remove(index);
    } else {
        pieces[index] = piece.back(1);
    }
}

/// Takes the address at a place out, and gives the number of pieces before it. The last address of
/// a piece is taken with no move of the pieces behind it.
#[tactic(auto, using(crate::proofs::SplittingLemmas::splits, crate::proofs::OneMoreLemmas::overs))]
fn take_out(pieces: &mut Vec<Piece>, hint: Hint, place: u32) -> usize
    requires hint { IsHint pieces.old.items hint.piece hint.begin }
    requires place { place < total_of pieces.old.items }
    requires solid { Solid pieces.old.items }
    requires room { vec_len pieces.old < vec_capacity pieces.old }
    ensures items { pieces.new.items ≡ before place pieces.old.items
        ++ behind 1 (behind place pieces.old.items) }
    ensures index { result ≡ length (before place pieces.old.items) }
    ensures longer { vec_len pieces.new ≤ vec_len pieces.old + 1 }
    ensures capacity { vec_capacity pieces.old ≤ vec_capacity pieces.new }
{
    let spot = find_from(pieces, hint, place);
    let into = place - spot.begin;
    if into == 0 {
        shorten(pieces, spot.piece);
        return spot.piece;
    }
    let piece = pieces[spot.piece];
    if into == piece.len() - 1 {
        pieces[spot.piece] = piece.front(into);
        return spot.piece + 1;
    }
    let index = split_vec(pieces, spot, place);
    shorten(pieces, index);
    index
}

/// Puts an address behind the first pieces, and gives the number of pieces up to it.
#[tactic(auto, using(crate::proofs::OneMoreLemmas::joins))]
fn join(pieces: &mut Vec<Piece>, index: usize, address: u32) -> usize
    requires index { index ≤ length pieces.old.items }
    requires room { vec_len pieces.old < vec_capacity pieces.old }
    requires short { total_of pieces.old.items + 1 < 2 ^ 32 }
    ensures items { pieces.new.items ≡ joined address (take index pieces.old.items)
        ++ drop index pieces.old.items }
    ensures index { result ≡ length (joined address (take index pieces.old.items)) }
    ensures capacity { vec_capacity pieces.old ≤ vec_capacity pieces.new }
{
    if index > 0 {
        let last = pieces[index - 1];
        if last.grows(address) {
            pieces[index - 1] = last.grown();
            return index;
        }
    }
    put(pieces, index, Piece::one(address));
    index + 1
}

/// Where the piece before an index goes on to an address, that piece grows. Else nothing changes.
#[tactic(auto, using(crate::proofs::OneMoreLemmas::joins, crate::proofs::BorderLemmas::grows_on))]
fn grow(pieces: &mut Vec<Piece>, index: usize, address: u32) -> bool
    requires index { index ≤ length pieces.old.items }
    requires short { total_of pieces.old.items + 1 < 2 ^ 32 }
    ensures unchanged { IsFalse result → pieces.new ≡ pieces.old }
    ensures items { IsTrue result → pieces.new.items ≡ joined address (take index pieces.old.items)
        ++ drop index pieces.old.items }
    ensures index { IsTrue result → index ≡ length (joined address (take index pieces.old.items)) }
    ensures capacity { vec_capacity pieces.old ≤ vec_capacity pieces.new }
{
    if index == 0 {
        return false;
    }
    let last = pieces[index - 1];
    if !last.grows(address) {
        return false;
    }
    pieces[index - 1] = last.grown();
    true
}

/// Puts an address before the pieces from an index on.
#[tactic(auto, using(crate::proofs::BackwardLemmas::joins))]
fn join_before(pieces: &mut Vec<Piece>, index: usize, address: u32)
    requires index { index ≤ length pieces.old.items }
    requires room { vec_len pieces.old < vec_capacity pieces.old }
    requires short { total_of pieces.old.items + 1 < 2 ^ 32 }
    ensures items { pieces.new.items ≡ take index pieces.old.items
        ++ joined_before address (drop index pieces.old.items) }
    ensures capacity { vec_capacity pieces.old ≤ vec_capacity pieces.new }
{
    if index < pieces.len() {
        let next = pieces[index];
        if next.grows_down(address) {
            pieces[index] = next.grown_down();
            return;
        }
    }
    put(pieces, index, Piece::one(address));
}

/// Where the piece that begins at a place has more addresses than that there, and the one before it
/// goes on to the address: moves the border between them by one. Else nothing changes.
#[tactic(auto, using(crate::proofs::BorderLemmas::over))]
fn move_border(pieces: &mut Vec<Piece>, hint: Hint, place: u32, address: u32) -> bool
    requires hint { IsHint pieces.old.items hint.piece hint.begin }
    requires begin { hint.begin ≡ place }
    requires short { total_of pieces.old.items < 2 ^ 32 }
    requires solid { Solid pieces.old.items }
    ensures unchanged { IsFalse result → pieces.new ≡ pieces.old }
    ensures items { IsTrue result → pieces.new.items ≡ overwritten place address pieces.old.items }
    ensures index { IsTrue result →
        hint.piece ≡ length (joined address (before place pieces.old.items)) }
    ensures capacity { vec_capacity pieces.old ≤ vec_capacity pieces.new }
{
    let index = hint.piece;
    if index == 0 || index == pieces.len() {
        return false;
    }
    let last = pieces[index - 1];
    let next = pieces[index];
    if next.len() == 1 || !last.grows(address) {
        return false;
    }
    pieces[index - 1] = last.grown();
    pieces[index] = next.back(1);
    true
}

/// Where the piece before a place goes on to the address, and the one that begins there has more
/// addresses than one: moves the border between them by as many as it can, at most `count`, and
/// says by how many.
#[tactic(auto, using(crate::proofs::SpanLemmas::spans))]
pub(crate) fn move_border_by(
    pieces: &mut Vec<Piece>,
    hint: Hint,
    place: u32,
    address: u32,
    count: u32,
) -> u32
    requires hint { IsHint pieces.old.items hint.piece hint.begin }
    requires place { place + count ≤ total_of pieces.old.items }
    requires short { total_of pieces.old.items < 2 ^ 32 }
    requires addresses { address + count < 2 ^ 32 }
    requires solid { Solid pieces.old.items }
    ensures within { result ≤ count }
    ensures items { pieces.new.items ≡ overwritten_span result place address pieces.old.items }
    ensures hint { IsHint pieces.new.items hint.piece (hint.begin + result) }
    ensures short { hint.begin + result < 2 ^ 32 }
    ensures length { length pieces.new.items ≡ length pieces.old.items }
    ensures capacity { vec_capacity pieces.old ≤ vec_capacity pieces.new }
{
    let index = hint.piece;
    if hint.begin != place || index == 0 || index == pieces.len() {
        return 0;
    }
    let last = pieces[index - 1];
    let next = pieces[index];
    let most = count.min(next.len() - 1);
    if most == 0 || !last.grows(address) {
        return 0;
    }
    pieces[index - 1] = last.grown_by(most);
    pieces[index] = next.back(most);
    most
}

/// The same backward: the piece that ends at a place loses that address, and the one behind it
/// grows in front.
#[tactic(auto, using(crate::proofs::BorderLemmas::down))]
fn move_border_down(pieces: &mut Vec<Piece>, hint: Hint, place: u32, address: u32) -> bool
    requires hint { IsHint pieces.old.items hint.piece hint.begin }
    requires begin { hint.begin ≡ place + 1 }
    requires short { total_of pieces.old.items < 2 ^ 32 }
    requires solid { Solid pieces.old.items }
    ensures unchanged { IsFalse result → pieces.new ≡ pieces.old }
    ensures items { IsTrue result →
        pieces.new.items ≡ overwritten_backward place address pieces.old.items }
    ensures index { IsTrue result → hint.piece ≡ length (before place pieces.old.items) }
    ensures capacity { vec_capacity pieces.old ≤ vec_capacity pieces.new }
{
    let index = hint.piece;
    if index == 0 || index == pieces.len() {
        return false;
    }
    let last = pieces[index - 1];
    let next = pieces[index];
    if last.len() == 1 || !next.grows_down(address) {
        return false;
    }
    pieces[index - 1] = last.front(last.len() - 1);
    pieces[index] = next.grown_down();
    true
}

/// Puts an address in place of that at a place, and gives the number of pieces up to it.
#[tactic(auto, using(crate::proofs::SplittingLemmas::splits, crate::proofs::OneMoreLemmas::overs))]
fn replace_one(pieces: &mut Vec<Piece>, hint: Hint, place: u32, address: u32) -> usize
    requires hint { IsHint pieces.old.items hint.piece hint.begin }
    requires place { place < total_of pieces.old.items }
    requires short { total_of pieces.old.items < 2 ^ 32 }
    requires solid { Solid pieces.old.items }
    requires room { vec_len pieces.old + 2 < vec_capacity pieces.old }
    ensures items { pieces.new.items ≡ overwritten place address pieces.old.items }
    ensures index { result ≡ length (joined address (before place pieces.old.items)) }
    ensures capacity { vec_capacity pieces.old ≤ vec_capacity pieces.new }
{
    let index = take_out(pieces, hint, place);
    join(pieces, index, address)
}

/// The same. In a streak that goes on, a border moves and nothing is sought.
pub(crate) fn overwrite_vec(pieces: &mut Vec<Piece>, hint: Hint, place: u32, address: u32) -> usize
    requires hint { IsHint pieces.old.items hint.piece hint.begin }
    requires place { place < total_of pieces.old.items }
    requires short { total_of pieces.old.items < 2 ^ 32 }
    requires solid { Solid pieces.old.items }
    requires room { vec_len pieces.old + 2 < vec_capacity pieces.old }
    ensures items { pieces.new.items ≡ overwritten place address pieces.old.items }
    ensures index { result ≡ length (joined address (before place pieces.old.items)) }
    ensures capacity { vec_capacity pieces.old ≤ vec_capacity pieces.new }
{
    if hint.begin != place {
        return replace_one(pieces, hint, place, address);
    }
    if move_border(pieces, hint, place, address) {
        return hint.piece;
    }
    replace_one(pieces, hint, place, address)
}

/// Puts an address in place of that at a place, backward, and gives the number of pieces before it.
#[tactic(auto, using(crate::proofs::SplittingLemmas::splits, crate::proofs::BackwardLemmas::steps))]
fn replace_one_backward(pieces: &mut Vec<Piece>, hint: Hint, place: u32, address: u32) -> usize
    requires hint { IsHint pieces.old.items hint.piece hint.begin }
    requires place { place < total_of pieces.old.items }
    requires short { total_of pieces.old.items < 2 ^ 32 }
    requires solid { Solid pieces.old.items }
    requires room { vec_len pieces.old + 2 < vec_capacity pieces.old }
    ensures items { pieces.new.items ≡ overwritten_backward place address pieces.old.items }
    ensures index { result ≡ length (before place pieces.old.items) }
    ensures capacity { vec_capacity pieces.old ≤ vec_capacity pieces.new }
{
    let index = take_out(pieces, hint, place);
    join_before(pieces, index, address);
    index
}

/// The same. In a streak that goes on, a border moves and nothing is sought.
pub(crate) fn overwrite_vec_backward(
    pieces: &mut Vec<Piece>,
    hint: Hint,
    place: u32,
    address: u32,
) -> usize
    requires hint { IsHint pieces.old.items hint.piece hint.begin }
    requires place { place < total_of pieces.old.items }
    requires short { total_of pieces.old.items < 2 ^ 32 }
    requires solid { Solid pieces.old.items }
    requires room { vec_len pieces.old + 2 < vec_capacity pieces.old }
    ensures items { pieces.new.items ≡ overwritten_backward place address pieces.old.items }
    ensures index { result ≡ length (before place pieces.old.items) }
    ensures capacity { vec_capacity pieces.old ≤ vec_capacity pieces.new }
{
    if hint.begin != place + 1 {
        return replace_one_backward(pieces, hint, place, address);
    }
    if move_border_down(pieces, hint, place, address) {
        return hint.piece;
    }
    replace_one_backward(pieces, hint, place, address)
}

/// Puts an address before that at a place, and gives the number of pieces up to it.
#[tactic(auto, using(crate::proofs::SplittingLemmas::splits, crate::proofs::OneMoreLemmas::overs))]
fn insert_one(pieces: &mut Vec<Piece>, hint: Hint, place: u32, address: u32) -> usize
    requires hint { IsHint pieces.old.items hint.piece hint.begin }
    requires place { place ≤ total_of pieces.old.items }
    requires short { total_of pieces.old.items + 1 < 2 ^ 32 }
    requires room { vec_len pieces.old + 2 < vec_capacity pieces.old }
    ensures items { pieces.new.items ≡ inserted place address pieces.old.items }
    ensures index { result ≡ length (joined address (before place pieces.old.items)) }
    ensures capacity { vec_capacity pieces.old ≤ vec_capacity pieces.new }
{
    let index = split_vec(pieces, hint, place);
    join(pieces, index, address)
}

/// The same. In a streak that goes on, a piece grows and nothing is sought.
#[tactic(auto, using(crate::proofs::BorderLemmas::grown_at))]
pub(crate) fn insert_vec(pieces: &mut Vec<Piece>, hint: Hint, place: u32, address: u32) -> usize
    requires hint { IsHint pieces.old.items hint.piece hint.begin }
    requires place { place ≤ total_of pieces.old.items }
    requires short { total_of pieces.old.items + 1 < 2 ^ 32 }
    requires solid { Solid pieces.old.items }
    requires room { vec_len pieces.old + 2 < vec_capacity pieces.old }
    ensures items { pieces.new.items ≡ inserted place address pieces.old.items }
    ensures index { result ≡ length (joined address (before place pieces.old.items)) }
    ensures capacity { vec_capacity pieces.old ≤ vec_capacity pieces.new }
{
    if hint.begin != place {
        return insert_one(pieces, hint, place, address);
    }
    if grow(pieces, hint.piece, address) {
        return hint.piece;
    }
    insert_one(pieces, hint, place, address)
}

/// Puts an address behind all others, and gives the number of pieces.
#[tactic(auto, using(crate::proofs::OneMoreLemmas::overs, crate::proofs::BorderLemmas::grown_at))]
pub(crate) fn append_vec(pieces: &mut Vec<Piece>, address: u32) -> usize
    requires short { total_of pieces.old.items + 1 < 2 ^ 32 }
    requires room { vec_len pieces.old + 2 < vec_capacity pieces.old }
    ensures items { pieces.new.items ≡ joined address pieces.old.items }
    ensures index { result ≡ length (joined address pieces.old.items) }
    ensures capacity { vec_capacity pieces.old ≤ vec_capacity pieces.new }
{
    let index = pieces.len();
    if grow(pieces, index, address) {
        return index;
    }
    join(pieces, index, address)
}
