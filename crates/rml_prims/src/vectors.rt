//! The rows over vectors: a head with the count, and the items.

ghost use Rattle.std.specs.Prelude.{ℕ, ◌≡◌, ◌<◌, ◌+◌, ◌∷◌, [], List, Ok, suc, length};
ghost use Rattle.rml_heap.specs.HeapState.{HasRoom};
ghost use Rattle.rml_heap.specs.Reading.{look};
ghost use Rattle.rml_heap.specs.declared.cell.Cell.{Cell};
ghost use Rattle.rml_prims.specs.Shapes.{IsList, IsVector};
ghost use Rattle.rml_prims.specs.Found.{Grows, Makes};

use crate::lists::{item_of, list_size, tail_of};
use crate::words::{block, room_for, vector_head};
use rml_builtin::Row;
use rml_heap::{Cell, Full, Heap, address_of, count_of};

/// A vector in cells: the address of its head, and how many items it has.
#[derive(Clone, Copy)]
pub struct VectorBlock {
    pub at: u32,
    pub size: u32,
}

/// The vector that a cell stands for.
pub fn vector_of(heap: &Heap, cell: Cell) -> VectorBlock
    requires { (at size : ℕ) × IsVector heap.now.values cell at size }
    ensures { IsVector heap.now.values cell result.at result.size }
{
    let _used = heap.used();
    let at = address_of(cell);
    let size = count_of(heap.get(at)) as u32;
    VectorBlock { at, size }
}

/// An item of a vector.
pub fn item_at(heap: &Heap, vector: VectorBlock, i: u32) -> Cell
    requires vector { (c : Cell) × IsVector heap.now.values c vector.at vector.size }
    requires inside { i < vector.size }
    ensures { result ≡ look heap.now.values (suc (vector.at + i)) }
{
    let _used = heap.used();
    heap.get(vector.at + 1 + i)
}

/// The vector of so many items of a list, for which there is room.
fn add_vector(heap: &mut Heap, list: Cell, size: u32) -> Cell
    requires list { (items : List Cell) × IsList heap.old.values (length heap.old.values) list items × (length items ≡ size) }
    requires room { HasRoom heap.old (1 + size) }
    ensures makes { (items : List Cell) → IsList heap.old.values (length heap.old.values) list items → length items ≡ size → Makes Row.ListVector heap.old (list ∷ []) heap.new (Ok result) }
    ensures grows { Grows heap.old heap.new }
{
    let _used = heap.used();
    let at = heap.top();
    heap.add(vector_head(size));
    let mut rest = list;
    for _i in 0..size {
        let item = item_of(heap, rest);
        rest = tail_of(heap, rest);
        heap.add(item);
    }
    block(at)
}

/// The vector of the items of a list.
pub fn vector_of_list(heap: &mut Heap, list: Cell) -> Result<Cell, Full>
    requires { (items : List Cell) × IsList heap.old.values (length heap.old.values) list items }
    ensures makes { (items : List Cell) → IsList heap.old.values (length heap.old.values) list items → Makes Row.ListVector heap.old (list ∷ []) heap.new result }
    ensures grows { Grows heap.old heap.new }
{
    let _used = heap.used();
    let size = list_size(heap, list);
    match room_for(heap, 1 + size) {
        Ok(_) => Ok(add_vector(heap, list, size)),
        Err(full) => Err(full),
    }
}
