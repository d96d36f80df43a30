//! A built-in by its number.

ghost use Rattle.std.specs.Prelude.{IsSomeAnd, IfSome, slice_get};
ghost use Rattle.rml_builtin.specs.declared.row.TheConstants.{ROWS};
ghost use Rattle.rml_trail.specs.TrailState.{Fits, TrailState};
ghost use Rattle.rml_prims.specs.Found.{IsFinding, IsMaking};
ghost use Rattle.rml_prims.specs.Exact.{CanRun, Runs};

use crate::finding::find;
use crate::lvars;
use crate::making::make;
use rml_builtin::{Row, row_at};
use rml_heap::{Cell, Heap};
use rml_trail::Trail;

/// How a built-in ends.
#[derive(Clone, Copy, PartialEq, Eq, Debug)]
pub enum PrimEnd {
    /// The results are in their places.
    Done,
    /// There is no answer.
    No,
    /// The cells that the answer needs do not fit: so many are in use, and so many more are needed.
    Full { used: u32, need: u32 },
}

/// Runs a row that takes no cells.
fn run_found(row: Row, heap: &Heap, inputs: &[Cell], outputs: &mut [Cell]) -> PrimEnd
    requires row { IsFinding row }
    requires runs { CanRun row heap.now.values inputs.now outputs.old }
    ensures { (trail : TrailState) → Runs row inputs.now (record { heap = heap.now; trail = trail; outputs = outputs.old }) (record { heap = heap.now; trail = trail; outputs = outputs.new }) result }
{
    let _used = heap.used();
    match find(row, heap, inputs) {
        Some(cell) => {
            outputs[0] = cell;
            PrimEnd::Done
        }
        None => PrimEnd::No,
    }
}

/// Makes a logical variable.
fn run_new(heap: &mut Heap, inputs: &[Cell], outputs: &mut [Cell]) -> PrimEnd
    requires { CanRun Row.LvarNew heap.old.values inputs.now outputs.old }
    ensures fits { (trail : TrailState) → Fits trail heap.old → Fits trail heap.new }
    ensures runs { (trail : TrailState) → Runs Row.LvarNew inputs.now (record { heap = heap.old; trail = trail; outputs = outputs.old }) (record { heap = heap.new; trail = trail; outputs = outputs.new }) result }
{
    match lvars::new(heap) {
        Ok(cell) => {
            outputs[0] = cell;
            PrimEnd::Done
        }
        Err(full) => PrimEnd::Full {
            used: full.used,
            need: full.need,
        },
    }
}

/// Runs a row that makes a block.
fn run_made(row: Row, heap: &mut Heap, inputs: &[Cell], outputs: &mut [Cell]) -> PrimEnd
    requires row { IsMaking row }
    requires runs { CanRun row heap.old.values inputs.now outputs.old }
    ensures fits { (trail : TrailState) → Fits trail heap.old → Fits trail heap.new }
    ensures runs { (trail : TrailState) → Runs row inputs.now (record { heap = heap.old; trail = trail; outputs = outputs.old }) (record { heap = heap.new; trail = trail; outputs = outputs.new }) result }
{
    match make(row, heap, inputs) {
        Ok(cell) => {
            outputs[0] = cell;
            PrimEnd::Done
        }
        Err(full) => PrimEnd::Full {
            used: full.used,
            need: full.need,
        },
    }
}

/// Sets a logical variable. There is no result to put anywhere.
fn run_set(heap: &mut Heap, trail: &mut Trail, inputs: &[Cell], outputs: &[Cell]) -> PrimEnd
    requires fits { Fits trail.old heap.old }
    requires runs { CanRun Row.LvarSet heap.old.values inputs.now outputs.now }
    ensures fits { Fits trail.new heap.new }
    ensures runs { Runs Row.LvarSet inputs.now (record { heap = heap.old; trail = trail.old; outputs = outputs.now }) (record { heap = heap.new; trail = trail.new; outputs = outputs.now }) result }
{
    let _used = heap.used();
    if lvars::set(heap, trail, inputs[0], inputs[1]) {
        PrimEnd::Done
    } else {
        PrimEnd::No
    }
}

/// Runs the built-in of a number, other than `print`, on the cells of its arguments, and puts the cells of its results into their places.
/// All cells that it needs are taken at once. Where it has no answer, or they do not fit, nothing is changed.
pub fn prim(
    number: u16,
    heap: &mut Heap,
    trail: &mut Trail,
    inputs: &[Cell],
    outputs: &mut [Cell],
) -> PrimEnd
    requires fits { Fits trail.old heap.old }
    requires row { IsSomeAnd (slice_get ROWS number) (λ row. CanRun row heap.old.values inputs.now outputs.old) }
    ensures fits { Fits trail.new heap.new }
    ensures exact { IfSome (slice_get ROWS number) (λ row. Runs row inputs.now (record { heap = heap.old; trail = trail.old; outputs = outputs.old }) (record { heap = heap.new; trail = trail.new; outputs = outputs.new }) result) }
{
    match row_at(number).unwrap() {
        Row::LvarNew => run_new(heap, inputs, outputs),
        Row::LvarGet => run_made(Row::LvarGet, heap, inputs, outputs),
        Row::IntString => run_made(Row::IntString, heap, inputs, outputs),
        Row::StringAppend => run_made(Row::StringAppend, heap, inputs, outputs),
        Row::StringList => run_made(Row::StringList, heap, inputs, outputs),
        Row::ListString => run_made(Row::ListString, heap, inputs, outputs),
        Row::ListVector => run_made(Row::ListVector, heap, inputs, outputs),
        Row::VectorList => run_made(Row::VectorList, heap, inputs, outputs),
        Row::LvarSet => run_set(heap, trail, inputs, outputs),
        row => run_found(row, heap, inputs, outputs),
    }
}
