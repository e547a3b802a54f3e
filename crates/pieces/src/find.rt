//! The piece in which a place lies, sought from a hint on.

ghost use Rattle.std.specs.Prelude.{◌≡◌, ◌≤◌, ◌<◌, ◌+◌, ◌-◌, drop, length, slice_index, take};
ghost use Rattle.pieces.specs.Pieces.{addresses, piece_addresses, total as total_of};
ghost use Rattle.pieces.specs.Splitting.{IsHint, IsInside, offset, pieces_before};

use crate::piece::Piece;

/// Where some piece of a list begins: its index, and the place of its first address. At the end of
/// the list both are the numbers of pieces and of addresses.
#[derive(Clone, Copy)]
pub struct Hint {
    pub piece: usize,
    pub begin: u32,
}

impl Hint {
    /// Where the first piece begins.
    pub fn front() -> Hint
        ensures piece { result.piece ≡ 0 }
        ensures begin { result.begin ≡ 0 }
    {
        Hint { piece: 0, begin: 0 }
    }
}

/// The nearest to a place of the front, the hint and the end. `total` is the number of addresses.
#[tactic(auto, using(crate::proofs::SplittingLemmas::hints))]
pub fn nearest(list: &[Piece], hint: Hint, total: u32, place: u32) -> Hint
    requires hint { IsHint list.now hint.piece hint.begin }
    requires total { total ≡ total_of list.now }
    requires place { place ≤ total }
    ensures { IsHint list.now result.piece result.begin }
{
    if place >= hint.begin {
        if total - place < place - hint.begin {
            return Hint {
                piece: list.len(),
                begin: total,
            };
        }
        return hint;
    }
    if place < hint.begin - place {
        return Hint::front();
    }
    hint
}

/// From a hint back to a piece that begins at the place or before it.
#[tactic(auto, using(crate::proofs::SplittingLemmas::hints))]
fn walk_back(list: &[Piece], hint: Hint, place: u32) -> Hint
    requires hint { IsHint list.now hint.piece hint.begin }
    ensures hint { IsHint list.now result.piece result.begin }
    ensures reached { result.begin ≤ place }
{
    let mut piece = hint.piece;
    let mut begin = hint.begin;
    while begin > place {
        piece -= 1;
        begin -= list[piece].len();
    }
    Hint { piece, begin }
}

/// From a hint at the place or before it on to the piece in which the place lies.
#[tactic(auto, using(crate::proofs::SplittingLemmas::hints))]
fn walk_on(list: &[Piece], hint: Hint, place: u32) -> Hint
    requires hint { IsHint list.now hint.piece hint.begin }
    requires reached { hint.begin ≤ place }
    requires place { place ≤ total_of list.now }
    ensures hint { IsHint list.now result.piece result.begin }
    ensures piece { result.piece ≡ pieces_before place list.now }
    ensures into { place - result.begin ≡ offset place list.now }
    ensures reached { result.begin ≤ place }
    ensures end { result.piece ≡ length list.now → place ≡ total_of list.now }
    ensures last { result.begin < place → result.piece < length list.now }
    ensures inside { result.piece < length list.now →
        IsInside list.now result.piece (place - result.begin) }
{
    let mut at = place - hint.begin;
    let mut i = hint.piece;
    while i < list.len() && at >= list[i].len() {
        at -= list[i].len();
        i += 1;
    }
    Hint {
        piece: i,
        begin: place - at,
    }
}

/// The piece in which a place lies, sought from a hint on or back: a place near the hint costs the
/// pieces between. At the end of the list it is the end.
pub fn find_from(list: &[Piece], hint: Hint, place: u32) -> Hint
    requires hint { IsHint list.now hint.piece hint.begin }
    requires place { place ≤ total_of list.now }
    ensures hint { IsHint list.now result.piece result.begin }
    ensures piece { result.piece ≡ pieces_before place list.now }
    ensures into { place - result.begin ≡ offset place list.now }
    ensures reached { result.begin ≤ place }
    ensures end { result.piece ≡ length list.now → place ≡ total_of list.now }
    ensures last { result.begin < place → result.piece < length list.now }
    ensures inside { result.piece < length list.now →
        IsInside list.now result.piece (place - result.begin) }
{
    walk_on(list, walk_back(list, hint, place), place)
}

/// The address at a place, sought from a hint on or back.
#[tactic(auto, using(crate::proofs::SplittingLemmas::splits))]
pub fn address_from(list: &[Piece], hint: Hint, place: u32) -> u32
    requires hint { IsHint list.now hint.piece hint.begin }
    requires place { place < total_of list.now }
    ensures { result ≡ slice_index (addresses list.now) place }
{
    let spot = find_from(list, hint, place);
    list[spot.piece].at(place - spot.begin)
}

/// The address at a place, sought from the front.
#[tactic(auto, using(crate::proofs::SplittingLemmas::hints))]
pub fn address_of(list: &[Piece], place: u32) -> u32
    requires { place < total_of list.now }
    ensures { result ≡ slice_index (addresses list.now) place }
{
    address_from(list, Hint::front(), place)
}

/// The piece from a place on, at most `count` of them, and no further than its piece
/// goes.
#[tactic(auto, using(crate::proofs::PieceFromLemmas::from_a_place))]
pub fn piece_from(list: &[Piece], hint: Hint, place: u32, count: u32) -> Piece
    requires hint { IsHint list.now hint.piece hint.begin }
    requires place { place < total_of list.now }
    requires some { 1 ≤ count }
    ensures addresses { piece_addresses result ≡ take result.len (drop place (addresses list.now)) }
    ensures some { 1 ≤ result.len }
    ensures within { result.len ≤ count }
    ensures inside { place + result.len ≤ total_of list.now }
{
    let spot = find_from(list, hint, place);
    let rest = list[spot.piece].back(place - spot.begin);
    if rest.len() <= count {
        return rest;
    }
    rest.front(count)
}
