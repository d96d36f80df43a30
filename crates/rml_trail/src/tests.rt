//! A variable that is set, and unset again.

use crate::Trail;
use rml_heap::{Cell, Heap, INT, LVAR, UNSET};
use std::test::Fail;

const UNSET_CELL: Cell = Cell {
    kind: UNSET,
    number: 0,
};

const SEVEN: Cell = Cell {
    kind: INT,
    number: 7,
};

#[test]
fn a_set_variable_is_unset_after_undoing(rt: HostRuntime) -> Result<(), Fail> {
    let mut heap = Heap::begin(rt.alloc(), 8)?;
    let mut trail = Trail::begin(rt.alloc(), 8)?;
    heap.add(Cell {
        kind: LVAR,
        number: 0,
    });
    heap.add(UNSET_CELL);
    assert_eq!(rt; trail.mark(), 0);
    trail.set(&mut heap, 1, SEVEN);
    assert_eq!(rt; (trail.mark(), heap.get(1)), (1, SEVEN));
    trail.undo_to(&mut heap, 1);
    assert_eq!(rt; (trail.mark(), heap.get(1)), (1, SEVEN));
    trail.undo_to(&mut heap, 0);
    assert_eq!(rt; (trail.mark(), heap.get(1)), (0, UNSET_CELL));
    Ok(())
}
