//! The calls that are measured.

ghost use Rattle.std.specs.Prelude.{◌≡◌, ◌<◌, ◌≤◌, ◌^◌, IsSomeAnd, slice_get};
ghost use Rattle.rml_builtin.specs.declared.row.TheConstants.{ROWS};
ghost use Rattle.rml_heap.specs.Compared.{AreValues};
ghost use Rattle.rml_trail.specs.TrailState.{Fits};
ghost use Rattle.rml_cell_bench.specs.Held.{CanRepeat, HasStore, TakesTwoInts};

use crate::placing::{int, list_below, two_lists, two_texts};
use rml_base::Memory;
use rml_heap::{Cell, Heap};
use rml_prims::{PrimEnd, prim};
use rml_trail::Trail;
use std::alloc::Global;

/// The cells of a run, as many as it has where nothing else is asked for.
const CELLS: u32 = 16_777_216;

/// The numbers of rows.
const STRING_APPEND: u16 = 21;

const LIST_VECTOR: u16 = 28;

/// Runs a row over two integers so many times.
fn run_ints(number: u16, heap: &mut Heap, trail: &mut Trail, times: u32) -> u32
    requires row { IsSomeAnd (slice_get ROWS number) TakesTwoInts }
    requires store { HasStore heap.old.values }
    requires fits { Fits trail.old heap.old }
    ensures { result ≤ times }
{
    let mut outputs = [int(0)];
    let mut done = 0;
    for k in 0..times {
        let inputs = [int(i64::from(k)), int(1)];
        if prim(number, heap, trail, &inputs, &mut outputs) == PrimEnd::Done {
            done += 1;
        }
    }
    done
}

/// Runs a row on the same cells so many times, and takes back what it made each time.
fn run_row(number: u16, heap: &mut Heap, trail: &mut Trail, inputs: &[Cell], times: u32) -> u32
    requires row { IsSomeAnd (slice_get ROWS number) (λ row. CanRepeat row heap.old.values inputs.now) }
    requires fits { Fits trail.old heap.old }
    ensures done { result ≤ times }
    ensures heap { heap.new ≡ heap.old }
{
    let top = heap.top();
    let mut outputs = [int(0)];
    let mut done = 0;
    for _k in 0..times {
        if prim(number, heap, trail, inputs, &mut outputs) == PrimEnd::Done {
            done += 1;
        }
        heap.reset(top);
    }
    done
}

/// Compares two cells so many times.
fn compare(heap: &mut Heap, a: Cell, b: Cell, times: u32) -> u32
    requires { AreValues heap.old.values a b }
    ensures { result ≤ times }
{
    let mut same = 0;
    for _k in 0..times {
        if heap.equal(a, b) {
            same += 1;
        }
    }
    same
}

/// Runs a row over two integers. Answers how many times it gave an answer.
pub fn ints(alloc: Global, number: u16, times: u32) -> Result<u32, Memory>
    requires { IsSomeAnd (slice_get ROWS number) TakesTwoInts }
{
    let mut heap = Heap::begin(alloc, CELLS)?;
    let mut trail = Trail::begin(alloc, CELLS)?;
    Ok(run_ints(number, &mut heap, &mut trail, times))
}

/// Joins a text of so many bytes, less a few, and one of so many.
pub fn texts_joined(alloc: Global, size: usize, fewer: usize, times: u32) -> Result<u32, Memory>
    requires within { fewer ≤ size }
    requires small { size < 2 ^ 31 }
{
    let mut heap = Heap::begin(alloc, CELLS)?;
    let bytes = vec![in alloc; b'a'; size]?;
    match two_texts(&mut heap, &bytes[fewer..], &bytes) {
        Ok(texts) => {
            let mut trail = Trail::begin(alloc, CELLS)?;
            Ok(run_row(
                STRING_APPEND,
                &mut heap,
                &mut trail,
                &[texts.0, texts.1],
                times,
            ))
        }
        Err(_) => Ok(0),
    }
}

/// Compares two equal texts of so many bytes.
pub fn texts_compared(alloc: Global, size: usize, times: u32) -> Result<u32, Memory>
    requires { size < 2 ^ 31 }
{
    let mut heap = Heap::begin(alloc, CELLS)?;
    let bytes = vec![in alloc; b'a'; size]?;
    match two_texts(&mut heap, &bytes, &bytes) {
        Ok(pair) => Ok(compare(&mut heap, pair.0, pair.1, times)),
        Err(_) => Ok(0),
    }
}

/// Makes the vector of a list of so many items.
pub fn vectors(alloc: Global, items: u32, times: u32) -> Result<u32, Memory> {
    let mut heap = Heap::begin(alloc, CELLS)?;
    match list_below(&mut heap, items) {
        Ok(list) => {
            let mut trail = Trail::begin(alloc, CELLS)?;
            Ok(run_row(LIST_VECTOR, &mut heap, &mut trail, &[list], times))
        }
        Err(_) => Ok(0),
    }
}

/// Compares two equal lists of so many items.
pub fn lists_compared(alloc: Global, items: u32, times: u32) -> Result<u32, Memory> {
    let mut heap = Heap::begin(alloc, CELLS)?;
    match two_lists(&mut heap, items) {
        Ok(pair) => Ok(compare(&mut heap, pair.0, pair.1, times)),
        Err(_) => Ok(0),
    }
}
