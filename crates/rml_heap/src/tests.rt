//! Rows of calls, and pseudo-random programs of calls against a plain model: a cell for each address, and two counts.

use crate::*;
use rml_base::Memory;
use std::alloc::Global;
use std::process::Abort;
use std::test::Fail;

fn int(number: i64) -> Cell {
    Cell { kind: INT, number }
}

#[test]
fn values_fill_a_heap(rt: HostRuntime) -> Result<(), Fail> {
    let mut heap = Heap::begin(rt.alloc(), 8)?;
    assert_eq!(rt; heap.alloc(5), Ok(0));
    assert_eq!(rt; heap.alloc(4), Err(Full { used: 5, need: 4 }));
    assert_eq!(rt; heap.alloc(3), Ok(5));
    assert_eq!(rt; heap.room(1), Err(Full { used: 8, need: 1 }));
    assert_eq!(rt; heap.alloc(0), Ok(8));
    Ok(())
}

#[test]
fn frames_meet_values(rt: HostRuntime) -> Result<(), Fail> {
    let mut heap = Heap::begin(rt.alloc(), 8)?;
    assert_eq!(rt; heap.push(3), Ok(5));
    assert_eq!(rt; heap.alloc(2), Ok(0));
    assert_eq!(rt; heap.push(4), Err(Full { used: 5, need: 4 }));
    assert_eq!(rt; heap.push(3), Ok(2));
    assert_eq!(rt; heap.alloc(1), Err(Full { used: 8, need: 1 }));
    assert_eq!(rt; (heap.top(), heap.bottom(), heap.used()), (2, 2, 8));
    Ok(())
}

/// What a heap should hold: the cell of each address, how many are values, and where the frames begin.
#[derive(Drop)]
struct Plain {
    cells: Vec<Cell>,
    top: u32,
    bottom: u32,
}

fn next(seed: u64) -> u64 {
    seed.wrapping_mul(6_364_136_223_846_793_005)
        .wrapping_add(1_442_695_040_888_963_407)
}

fn free(plain: &mut Plain, from: u32, to: u32) {
    for (at, cell) in plain.cells.iter_mut().enumerate() {
        if from as usize <= at && at < to as usize {
            *cell = int(0);
        }
    }
}

fn write(plain: &mut Plain, at: u32, cell: Cell) {
    if (at as usize) < plain.cells.len() {
        plain.cells[at as usize] = cell;
    }
}

/// One call of some kind, by a number, on the heap and on the model.
fn step(rt: &impl Abort, heap: &mut Heap, plain: &mut Plain, which: u64, size: u32) {
    let top = heap.top();
    let bottom = heap.bottom();
    let frames = heap.used() - top;
    let fits = u64::from(top) + u64::from(size) <= u64::from(bottom);
    let full = Full {
        used: heap.used(),
        need: size,
    };
    if which == 0 {
        let got = heap.alloc(size);
        assert_eq!(rt; got, if fits { Ok(top) } else { Err(full) });
        plain.top = heap.top();
        free(plain, top, heap.top());
    } else if which == 1 {
        let got = heap.push(size);
        assert_eq!(rt; got, if fits { Ok(heap.bottom()) } else { Err(full) });
        plain.bottom = heap.bottom();
        free(plain, heap.bottom(), bottom);
    } else if which == 2 && size <= top {
        heap.reset(size);
        plain.top = size;
    } else if which == 3 && size <= frames {
        heap.cut(bottom + size);
        plain.bottom = bottom + size;
    }
}

/// A write, or a cell added to values or to frames, on the heap and on the model.
fn write_step(heap: &mut Heap, plain: &mut Plain, which: u64, at: u32, cell: Cell) {
    let top = heap.top();
    let bottom = heap.bottom();
    let frames = heap.used() - top;
    if which == 4 && (at < top || (bottom <= at && at - bottom < frames)) {
        heap.put(at, cell);
        write(plain, at, cell);
    } else if which == 5 && heap.room(1).is_ok() {
        heap.add(cell);
        plain.top = heap.top();
        write(plain, top, cell);
    } else if which == 6 && heap.room(1).is_ok() {
        heap.stack(cell);
        plain.bottom = heap.bottom();
        write(plain, heap.bottom(), cell);
    }
}

fn compare(rt: &impl Abort, heap: &Heap, plain: &Plain) {
    let top = heap.top();
    let bottom = heap.bottom();
    let frames = heap.used() - top;
    assert_eq!(rt; (top, bottom), (plain.top, plain.bottom));
    for (at, cell) in plain.cells.iter().enumerate() {
        let at = at as u64;
        if at < u64::from(top)
            || (u64::from(bottom) <= at && at < u64::from(bottom) + u64::from(frames))
        {
            assert_eq!(rt; heap.get(at as u32), *cell, "{at}");
        }
    }
}

fn plain_of(alloc: Global, limit: u32) -> Result<Plain, Memory> {
    Ok(Plain {
        cells: vec![in alloc; int(0); limit as usize]?,
        top: 0,
        bottom: limit,
    })
}

#[test]
fn programs_of_calls(rt: HostRuntime) -> Result<(), Fail> {
    let mut heap = Heap::begin(rt.alloc(), 40)?;
    let mut plain = plain_of(rt.alloc(), 40)?;
    let mut seed = 1;
    for number in 0..3000i64 {
        seed = next(seed);
        let which = (seed >> 40) % 7;
        let size = ((seed >> 50) % 12) as u32;
        step(&rt, &mut heap, &mut plain, which, size);
        write_step(
            &mut heap,
            &mut plain,
            which,
            ((seed >> 33) % 40) as u32,
            int(number),
        );
        compare(&rt, &heap, &plain);
    }
    Ok(())
}

/// The cells that a text of these bytes takes: how many, the second and the last.
fn packed(
    rt: &impl Abort,
    alloc: Global,
    bytes: &[u8],
) -> Result<(u32, Option<Cell>, Option<Cell>), Memory> {
    let mut heap = Heap::begin(alloc, 64)?;
    let fits = bytes.len() < 400 && heap.room(1 + (bytes.len() as u32 + 7) / 8).is_ok();
    assert!(rt; fits);
    add_text(&mut heap, bytes);
    let top = heap.top();
    let head = if top > 0 { Some(heap.get(0)) } else { None };
    let size = bytes.len() as i64;
    assert_eq!(rt;
        head,
        Some(Cell {
            kind: TEXT,
            number: size
        })
    );
    let second = if top > 1 { Some(heap.get(1)) } else { None };
    let last = if top > 1 {
        Some(heap.get(top - 1))
    } else {
        None
    };
    Ok((top, second, last))
}

#[test]
fn texts_take_a_cell_for_eight_bytes(rt: HostRuntime) -> Result<(), Fail> {
    let alloc = rt.alloc();
    let one = |first: i64| Some(int(first));
    assert_eq!(rt; packed(&rt, alloc, b"")?, (1, None, None));
    assert_eq!(rt; packed(&rt, alloc, b"a")?, (2, one(97), one(97)));
    let seven = 29_104_508_263_162_465;
    assert_eq!(rt;
        packed(&rt, alloc, b"abcdefg")?,
        (2, one(seven), one(seven))
    );
    let eight = 7_523_094_288_207_667_809;
    assert_eq!(rt;
        packed(&rt, alloc, b"abcdefgh")?,
        (2, one(eight), one(eight))
    );
    assert_eq!(rt;
        packed(&rt, alloc, b"abcdefghi")?,
        (3, one(eight), one(105))
    );
    assert_eq!(rt; packed(&rt, alloc, &[255; 8])?, (2, one(-1), one(-1)));
    let ones = [1u8; 255];
    let rest = 282_578_800_148_737;
    assert_eq!(rt;
        packed(&rt, alloc, &ones)?,
        (33, one(72_340_172_838_076_673), one(rest))
    );
    Ok(())
}
