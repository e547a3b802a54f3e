//! The worked list of pieces.

use super::*;
use std::alloc::{AllocError, Global};
use std::test::Fail;

/// The list's addresses, read from the last to the first.
fn read_backward(alloc: Global, list: &PieceList) -> Result<Vec<u32>, AllocError> {
    let mut out = Vec::new(alloc);
    let count = list.len();
    for i in 0..count {
        out.push(list.address(count - 1 - i))?;
    }
    Ok(out)
}

/// 10 11 12 13 30 29 28, in two pieces.
const TWO_PIECES: [Piece; 2] = [
    Piece {
        start: 10,
        len: 4,
        backward: false,
    },
    Piece {
        start: 30,
        len: 3,
        backward: true,
    },
];

#[test]
fn the_worked_list_is_spliced_and_cut(rt: HostRuntime) -> Result<(), Fail> {
    let mut list = PieceList::new(rt.alloc(), 8).ok().ok_or("no memory")?;
    list.extend(&TWO_PIECES);
    assert_eq!(rt;
        read_backward(rt.alloc(), &list)?.as_slice(),
        [28, 29, 30, 13, 12, 11, 10].as_slice()
    );
    splice(
        &mut list,
        2,
        3,
        Piece {
            start: 50,
            len: 1,
            backward: false,
        },
    );
    assert_eq!(rt;
        read_backward(rt.alloc(), &list)?.as_slice(),
        [28, 29, 50, 11, 10].as_slice()
    );
    cut(&mut list, 3);
    assert_eq!(rt;
        read_backward(rt.alloc(), &list)?.as_slice(),
        [50, 11, 10].as_slice()
    );
    Ok(())
}

#[test]
fn pieces_are_repeated(rt: HostRuntime) -> Result<(), Fail> {
    let mut list = PieceList::new(rt.alloc(), 8).ok().ok_or("no memory")?;
    list.extend(&[
        Piece {
            start: 10,
            len: 2,
            backward: false,
        },
        Piece::one(50),
    ]);
    repeat(&mut list, 0, 2);
    assert_eq!(rt;
        read_backward(rt.alloc(), &list)?.as_slice(),
        [50, 11, 10, 50, 11, 10].as_slice()
    );
    Ok(())
}

#[test]
fn a_streak_of_writes_adds_no_piece_after_its_first(rt: HostRuntime) -> Result<(), Fail> {
    let mut list = PieceList::new(rt.alloc(), 8).ok().ok_or("no memory")?;
    list.extend(&TWO_PIECES);
    list.overwrite(1, 40);
    list.overwrite(2, 41);
    list.insert_here(3, 42);
    assert!(rt; list.pieces().len() == 4);
    assert_eq!(rt;
        read_backward(rt.alloc(), &list)?.as_slice(),
        [28, 29, 30, 13, 42, 41, 40, 10].as_slice()
    );
    Ok(())
}

#[test]
fn a_streak_backward_adds_no_piece_after_its_first(rt: HostRuntime) -> Result<(), Fail> {
    let mut list = PieceList::new(rt.alloc(), 8).ok().ok_or("no memory")?;
    list.extend(&TWO_PIECES);
    list.seek(5);
    list.overwrite_backward(5, 40);
    list.overwrite_backward(4, 41);
    assert!(rt; list.pieces().len() == 3);
    assert_eq!(rt;
        read_backward(rt.alloc(), &list)?.as_slice(),
        [28, 40, 41, 13, 12, 11, 10].as_slice()
    );
    Ok(())
}
