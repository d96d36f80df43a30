//! What a `switch` sees of a cell.

ghost use Rattle.std.specs.Prelude.{◌≡◌, Some};
ghost use Rattle.rml_code.specs.Seen.{Seen, seen_in, seen_at};
ghost use Rattle.rml_heap.specs.Form.{form_of};
ghost use Rattle.rml_heap.specs.Reading.{cell_at};
ghost use Rattle.rml_acts.specs.Sees.{Sees};

use rml_heap::{CHAR, CON, CON_BLOCK, Cell, Heap, INT, TEXT, address_of, count_of};
use rml_value::CONS;

/// What a `switch` sees of a cell.
#[derive(Clone, Copy)]
pub enum Sight {
    Int(i64),
    Char(u8),
    /// A constructor, with or without arguments.
    Con(u64),
    /// A text, by the address of its head.
    Text(u32),
}

/// Of a block, by its head.
fn see_block(heap: &Heap, at: u32) -> Sight
    requires { (seen : Seen) × (seen_at heap.now.values at (form_of (cell_at heap.now.values at)) ≡ Some seen) }
    ensures { (seen : Seen) → seen_at heap.now.values at (form_of (cell_at heap.now.values at)) ≡ Some seen → Sees heap.now.values result seen }
{
    let head = heap.get(at);
    match head.kind {
        TEXT => Sight::Text(at),
        CON_BLOCK => Sight::Con(count_of(head) / 1_048_576),
        _ => Sight::Con(u64::from(CONS)),
    }
}

/// What a `switch` sees of a cell.
pub fn see(heap: &Heap, cell: Cell) -> Sight
    requires { (seen : Seen) × (seen_in heap.now.values cell ≡ Some seen) }
    ensures { (seen : Seen) → seen_in heap.now.values cell ≡ Some seen → Sees heap.now.values result seen }
{
    let _used = heap.used();
    match cell.kind {
        INT => Sight::Int(cell.number),
        CHAR => Sight::Char(count_of(cell) as u8),
        CON => Sight::Con(count_of(cell)),
        _ => see_block(heap, address_of(cell)),
    }
}
