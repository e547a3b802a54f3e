//! An address written into a list of pieces.

ghost use Rattle.std.specs.Prelude.{◌≡◌, ◌≤◌, ◌<◌, ◌+◌, length};
ghost use Rattle.looper_rules.specs.WritePlaces.{IsPlace};
ghost use Rattle.lazy_fill.specs.Streaks.{IsStreakOn, IsShort, pieces_written, with_address};
ghost use Rattle.pieces.specs.Pieces.{addresses, holding};

use pieces::PieceList;
use sl_commands::How;

/// Writes an address into the list.
pub(crate) fn write_address(list: &mut PieceList, place: u32, address: u32, how: How)
    requires place { IsPlace how place (length (addresses list.old.items)) }
    requires short { IsShort how (length (addresses list.old.items)) }
    requires room { length (pieces_written how place address list.old.items) ≤ list.old.room }
    ensures pieces { list.new ≡ holding (pieces_written how place address list.old.items) list.old }
    ensures addresses { addresses list.new.items ≡ with_address how place address
        (addresses list.old.items) }
    ensures streak { IsStreakOn how place (address + 1) list.new.items }
{
    match how {
        How::Forward => list.overwrite(place, address),
        How::Backward => list.overwrite_backward(place, address),
        How::Insert => list.insert_here(place, address),
        How::Append => list.append(address),
    }
}
