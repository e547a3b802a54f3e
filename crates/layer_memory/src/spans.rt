//! Frames copied piece by piece.

ghost use Rattle.std.specs.Prelude.{◌≡◌, ◌≤◌, ◌<◌, ◌+◌, ◌^◌, ℕ, map, length, take, drop};
ghost use Rattle.pieces.specs.Pieces.{addresses, total as total_of, piece_addresses};
ghost use Rattle.pieces.specs.Splitting.{IsHint};
ghost use Rattle.loop_tape.specs.Tapes.{Owns, at};
ghost use Rattle.lazy_fill.specs.Addresses.{Below};

use loop_tape::{Pool, Tape};
use pieces::{Hint, Piece, find_from, piece_from};
use sl_base::Frame;

/// Copies the frames at the addresses of one piece, as many as `out` has.
#[tactic(auto, using(crate::proofs::SpanLemmas::pieces))]
fn read_piece(tape: &Tape, pool: &Pool, piece: Piece, out: &mut [Frame])
    requires owns { Owns tape.now pool.now }
    requires below { Below tape.now.len (piece_addresses piece) }
    requires length { length out.old ≡ piece.len }
    ensures { out.new ≡ map (at tape.now pool.now) (piece_addresses piece) }
{
    if piece.backward {
        tape.read_backward(pool, piece.start, out);
    } else {
        tape.read_forward(pool, piece.start, out);
    }
}

/// Copies the frames at the addresses of pieces from a place on, as many as `out` has. The hint
/// says where the search begins.
#[tactic(auto, using(crate::proofs::SpanLemmas::spans))]
pub(crate) fn read_pieces(
    tape: &Tape,
    pool: &Pool,
    list: &[Piece],
    hint: Hint,
    place: u32,
    out: &mut [Frame],
)
    requires owns { Owns tape.now pool.now }
    requires below { Below tape.now.len (addresses list.now) }
    requires hint { IsHint list.now hint.piece hint.begin }
    requires place { place + length out.old ≤ total_of list.now }
    requires short { place + length out.old < 2 ^ 32 }
    ensures { out.new ≡ map (at tape.now pool.now)
        (take (length out.old) (drop place (addresses list.now))) }
{
    let mut found = hint;
    let mut done = 0;
    while done < out.len() {
        let from = place + done as u32;
        found = find_from(list, found, from);
        let piece = piece_from(list, found, from, (out.len() - done) as u32);
        let count = piece.len as usize;
        read_piece(tape, pool, piece, &mut out[done..done + count]);
        done += count;
    }
}
