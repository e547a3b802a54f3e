//! A layer over another, written forward, backward and in between.

use super::*;
use pieces::Piece;
use sl_commands::How;
use std::test::Fail;

/// Ten addresses of the layer below.
const BELOW: [Piece; 1] = [Piece {
    start: 0,
    len: 10,
    backward: false,
}];

#[test]
fn a_write_makes_a_fresh_cell_in_its_place(rt: HostRuntime) -> Result<(), Fail> {
    let mut fill = Fill::new(rt.alloc()).ok().ok_or("no memory")?;
    fill.start(&BELOW, 2, 10);
    fill.write(3, How::Forward);
    fill.write(4, How::Forward);
    assert!(rt; fill.len() == 10 && fill.seams() == 4 && fill.pieces().len() == 3);
    assert!(rt; fill.address(3) == 10 && fill.address(4) == 11 && fill.address(5) == 5);
    assert!(rt; fill.is_fresh(3) && fill.is_fresh(4) && !fill.is_fresh(5));
    fill.freeze();
    assert!(rt; !fill.is_fresh(3) && !fill.has_streak());
    fill.cut(Some(4));
    assert!(rt; fill.len() == 4 && fill.address(3) == 10);
    Ok(())
}

#[test]
fn an_empty_layer_is_written_at_its_end(rt: HostRuntime) -> Result<(), Fail> {
    let mut fill = Fill::new(rt.alloc()).ok().ok_or("no memory")?;
    fill.start_empty(10);
    fill.write(0, How::Append);
    fill.write(1, How::Append);
    assert!(rt; fill.len() == 2 && fill.pieces().len() == 1 && fill.address(1) == 11);
    fill.extend(&BELOW, 2);
    assert!(rt; fill.len() == 12 && fill.address(2) == 0 && !fill.is_fresh(2));
    Ok(())
}
