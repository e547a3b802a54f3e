//! Three layers added, undone and redone.

use super::*;
use pieces::Piece;
use std::test::Fail;

/// A layer of four frames, and one over it whose second frame is new.
const FIRST: [Piece; 1] = [Piece {
    start: 0,
    len: 4,
    backward: false,
}];

const SECOND: [Piece; 3] = [
    Piece {
        start: 0,
        len: 1,
        backward: false,
    },
    Piece {
        start: 4,
        len: 1,
        backward: false,
    },
    Piece {
        start: 2,
        len: 2,
        backward: false,
    },
];

#[test]
fn undo_and_redo_go_through_the_layers(rt: HostRuntime) -> Result<(), Fail> {
    let mut stack = LayerStack::new(rt.alloc()).ok().ok_or("no memory")?;
    assert!(rt; !stack.undo() && !stack.redo() && stack.current().len() == 0);
    stack.add(&FIRST, 4, 4, 2);
    stack.add(&SECOND, 4, 5, 4);
    assert!(rt; stack.len() == 4 && stack.end() == 5 && stack.seams() == 4 && stack.cycle() == 4);
    stack.seek(3);
    assert!(rt; stack.current() == SECOND.as_slice());
    assert!(rt; stack.undo() && stack.counts() == (1, 1) && stack.redo_seams() == 4);
    assert!(rt; stack.current() == FIRST.as_slice() && stack.layer(1) == SECOND.as_slice());
    assert!(rt; stack.redo() && stack.current() == SECOND.as_slice());
    assert!(rt; stack.undo() && stack.undo() && stack.counts() == (0, 2));
    stack.drop_redo();
    assert!(rt; stack.counts() == (0, 0) && !stack.redo());
    Ok(())
}
