//! The rows over logical variables: a head, and the content, which is unset or a value.

ghost use Rattle.std.specs.Prelude.{◌≡◌, ◌↔◌, ◌+◌, ◌∷◌, [], ◌++◌, IsTrue, false, IfOk, IfErr, OnErr, OnOk, length, suc, slice_set};
ghost use Rattle.rml_heap.specs.HeapState.{HasRoom, lvar_head, unset_cell};
ghost use Rattle.rml_heap.specs.Form.{IsWord, form_of, address};
ghost use Rattle.rml_heap.specs.Reading.{cell_at};
ghost use Rattle.rml_trail.specs.TrailState.{Fits};
ghost use Rattle.rml_prims.specs.Shapes.{block_cell, IsVariable};
ghost use Rattle.rml_prims.specs.Found.{DoNotFit, IsOption};

use crate::words::{LVAR_HEAD, SOME_HEAD, UNSET_CELL, block, con};
use rml_heap::{Cell, Full, Heap, UNSET, address_of};
use rml_trail::Trail;
use rml_value::NONE;

/// A new logical variable, which is unset. Full names its two cells.
pub fn new(heap: &mut Heap) -> Result<Cell, Full>
    ensures room { OnOk result (HasRoom heap.old 2) }
    ensures made { OnOk result (heap.new ≡ record heap.old { values = heap.old.values ++ lvar_head ∷ unset_cell ∷ [] }) }
    ensures cell { IfOk result (λ c. c ≡ block_cell (length heap.old.values)) }
    ensures full { IfErr result (DoNotFit heap.old 2) }
    ensures err { OnErr result (heap.new ≡ heap.old) }
{
    let at = heap.room(2)?;
    heap.add(LVAR_HEAD);
    heap.add(UNSET_CELL);
    Ok(block(at))
}

/// What a logical variable holds: `NONE`, or `SOME` of it, of which Full names the two cells.
pub fn get(heap: &mut Heap, lvar: Cell) -> Result<Cell, Full>
    requires { IsVariable heap.old.values lvar }
    ensures { IsOption heap.old (cell_at heap.old.values (suc (address lvar.number))) heap.new result }
{
    let _used = heap.used();
    let content = heap.get(address_of(lvar) + 1);
    if content.kind == UNSET {
        return Ok(con(NONE));
    }
    let at = heap.room(2)?;
    heap.add(SOME_HEAD);
    heap.add(content);
    Ok(block(at))
}

/// Sets a logical variable that is unset, and remembers it. Answers false where it is set.
pub fn set(heap: &mut Heap, trail: &mut Trail, lvar: Cell, value: Cell) -> bool
    requires fits { Fits trail.old heap.old }
    requires lvar { IsVariable heap.old.values lvar }
    requires value { IsWord (form_of value) }
    ensures unset { IsTrue result ↔ (cell_at heap.old.values (suc (address lvar.number)) ≡ unset_cell) }
    ensures heap { IsTrue result → heap.new ≡ record heap.old { values = slice_set heap.old.values (suc (address lvar.number)) value } }
    ensures trail { IsTrue result → trail.new ≡ record trail.old { entries = trail.old.entries ++ suc (address lvar.number) ∷ [] } }
    ensures same { result ≡ false → (heap.new ≡ heap.old) × (trail.new ≡ trail.old) }
    ensures fits { Fits trail.new heap.new }
{
    let _used = heap.used();
    let at = address_of(lvar) + 1;
    if heap.get(at).kind != UNSET {
        return false;
    }
    trail.set(heap, at, value);
    true
}
