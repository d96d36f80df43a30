//! Rows over integers by literal numbers, and calls that answer with ample memory.

use crate::comparisons::compared;
use crate::integers::{calculated, turned};
use crate::words::{block, con, int};
use crate::*;
use rml_builtin::Row;
use rml_heap::{CONS_BLOCK, Cell, Full, Heap, TEXT};
use rml_trail::Trail;
use std::test::Fail;

#[test]
fn integers(rt: HostRuntime) {
    let rows = [
        (Row::IntAdd, 2, 3, Some(5)),
        (Row::IntAdd, 1_073_741_823, 1, None),
        (Row::IntSub, -1_073_741_824, 1, None),
        (Row::IntMul, 32_768, 32_768, None),
        (Row::IntMul, -32_768, 32_768, Some(-1_073_741_824)),
        (Row::IntDiv, -7, 2, Some(-3)),
        (Row::IntDiv, 7, 0, None),
        (Row::IntDiv, -1_073_741_824, -1, None),
        (Row::IntMod, -7, 2, Some(-1)),
        (Row::IntMod, 7, -2, Some(1)),
        (Row::IntMod, i64::MIN, -1, Some(0)),
        (Row::IntMax, -2, -3, Some(-2)),
        (Row::IntMin, 2, 3, Some(2)),
    ];
    for (row, m, n, expected) in rows {
        assert_eq!(rt; calculated(row, m, n), expected, "{row:?} {m} {n}");
    }
    let rows = [
        (Row::IntNeg, 4, Some(-4)),
        (Row::IntNeg, -1_073_741_824, None),
        (Row::IntAbs, -4, Some(4)),
        (Row::IntAbs, i64::MIN, None),
    ];
    for (row, n, expected) in rows {
        assert_eq!(rt; turned(row, n), expected, "{row:?} {n}");
    }
}

#[test]
fn comparisons(rt: HostRuntime) {
    // at 1 and 2, at 2 and 2, at 2 and 1
    let rows = [
        (Row::IntLt, [true, false, false]),
        (Row::IntLe, [true, true, false]),
        (Row::IntGt, [false, false, true]),
        (Row::IntGe, [false, true, true]),
        (Row::IntEq, [false, true, false]),
        (Row::IntNe, [true, false, true]),
    ];
    for (row, holds) in rows {
        let got = [
            compared(row, 1, 2),
            compared(row, 2, 2),
            compared(row, 2, 1),
        ];
        assert_eq!(rt; got, holds, "{row:?}");
    }
}

#[test]
fn texts_and_lists_are_placed(rt: HostRuntime) -> Result<(), Fail> {
    let mut heap = Heap::begin(rt.alloc(), 6)?;
    // a text of nine bytes takes three cells, and a `::` three more
    assert_eq!(rt; place_text(&mut heap, b"abcdefghi"), Ok(block(0)));
    assert_eq!(rt; place_cons(&mut heap, block(0), con(0)), Ok(block(3)));
    assert_eq!(rt;
        place_cons(&mut heap, block(0), con(0)),
        Err(Full { used: 6, need: 3 })
    );
    assert_eq!(rt; place_text(&mut heap, b""), Err(Full { used: 6, need: 1 }));
    assert_eq!(rt; heap.top(), 6);
    Ok(())
}

#[test]
fn a_sum_is_run(rt: HostRuntime) -> Result<(), Fail> {
    let mut heap = Heap::begin(rt.alloc(), 4)?;
    let mut trail = Trail::begin(rt.alloc(), 4)?;
    let mut outputs = [int(0)];
    let end = prim(0, &mut heap, &mut trail, &[int(2), int(3)], &mut outputs);
    assert_eq!(rt; (end, outputs[0]), (PrimEnd::Done, int(5)));
    Ok(())
}
