//! Lists in cells: `[]` is a constructor without arguments, a `::` is a head and two parts. Of a list that is made here the last `::`
//! has the lowest address.

ghost use Rattle.std.specs.Prelude.{ℕ, suc, ◌≡◌, ◌*◌, ◌≤◌, ◌++◌, ◌∷◌, [], List, Ok, length};
ghost use Rattle.rml_heap.specs.declared.cell.Cell.{Cell};
ghost use Rattle.rml_heap.specs.HeapState.{HasRoom};
ghost use Rattle.rml_heap.specs.Form.{address};
ghost use Rattle.rml_heap.specs.Reading.{cell_at};
ghost use Rattle.rml_prims.specs.Shapes.{AtCons, IsList, IsText, IsVector, block_cell, cons_head};
ghost use Rattle.rml_prims.specs.Found.{Grows, Makes};

use crate::texts::{TextBlock, byte_at};
use crate::vectors::{VectorBlock, item_at};
use crate::words::{CONS_HEAD, block, char, con, room_for};
use rml_builtin::Row;
use rml_heap::{BLOCK, Cell, Full, Heap, address_of};
use rml_value::NIL;

/// The item of a `::`.
pub fn item_of(heap: &Heap, list: Cell) -> Cell
    requires { AtCons heap.now.values list }
    ensures { result ≡ cell_at heap.now.values (suc (address list.number)) }
{
    let _used = heap.used();
    heap.get(address_of(list) + 1)
}

/// What follows the item of a `::`.
pub fn tail_of(heap: &Heap, list: Cell) -> Cell
    requires { AtCons heap.now.values list }
    ensures { result ≡ cell_at heap.now.values (suc (suc (address list.number))) }
{
    let _used = heap.used();
    heap.get(address_of(list) + 2)
}

/// How many items a list has.
pub fn list_size(heap: &Heap, list: Cell) -> u32
    requires { (items : List Cell) × IsList heap.now.values (length heap.now.values) list items }
    ensures size { (items : List Cell) → IsList heap.now.values (length heap.now.values) list items → result ≡ length items }
    ensures small { 3 * result ≤ length heap.now.values }
{
    let _used = heap.used();
    let mut size = 0;
    let mut rest = list;
    'items: while rest.kind == BLOCK {
        rest = tail_of(heap, rest);
        size += 1;
    }
    size
}

/// A `::` of a head and a tail, for which there is room.
pub fn add_cons(heap: &mut Heap, head: Cell, tail: Cell) -> Cell
    requires { HasRoom heap.old 3 }
    ensures made { heap.new ≡ record heap.old { values = heap.old.values ++ cons_head ∷ head ∷ tail ∷ [] } }
    ensures cell { result ≡ block_cell (length heap.old.values) }
{
    let at = heap.top();
    heap.add(CONS_HEAD);
    heap.add(head);
    heap.add(tail);
    block(at)
}

/// The list of the items of a vector, for which there is room.
fn add_items(heap: &mut Heap, vector: VectorBlock) -> Cell
    requires vector { (c : Cell) × IsVector heap.old.values c vector.at vector.size }
    requires room { HasRoom heap.old (3 * vector.size) }
    ensures makes { (c : Cell) → IsVector heap.old.values c vector.at vector.size → Makes Row.VectorList heap.old (c ∷ []) heap.new (Ok result) }
    ensures grows { Grows heap.old heap.new }
{
    let mut list = con(NIL);
    for i in 0..vector.size {
        let item = item_at(heap, vector, vector.size - 1 - i);
        list = add_cons(heap, item, list);
    }
    list
}

/// The list of the items of a vector.
pub fn list_of_vector(heap: &mut Heap, vector: VectorBlock) -> Result<Cell, Full>
    requires { (c : Cell) × IsVector heap.old.values c vector.at vector.size }
    ensures makes { (c : Cell) → IsVector heap.old.values c vector.at vector.size → Makes Row.VectorList heap.old (c ∷ []) heap.new result }
    ensures grows { Grows heap.old heap.new }
{
    let _used = heap.used();
    match room_for(heap, 3 * vector.size) {
        Ok(_) => Ok(add_items(heap, vector)),
        Err(full) => Err(full),
    }
}

/// The list of the characters of a text, for which there is room.
fn add_characters(heap: &mut Heap, text: TextBlock) -> Cell
    requires text { (c : Cell) × (bytes : List ℕ) × IsText heap.old.values c text.at text.size bytes }
    requires room { HasRoom heap.old (3 * text.size) }
    ensures makes { (c : Cell) (bytes : List ℕ) → IsText heap.old.values c text.at text.size bytes → Makes Row.StringList heap.old (c ∷ []) heap.new (Ok result) }
    ensures grows { Grows heap.old heap.new }
{
    let mut list = con(NIL);
    for i in 0..text.size {
        let item = char(byte_at(heap, text, text.size - 1 - i));
        list = add_cons(heap, item, list);
    }
    list
}

/// The list of the characters of a text.
pub fn list_of_text(heap: &mut Heap, text: TextBlock) -> Result<Cell, Full>
    requires { (c : Cell) × (bytes : List ℕ) × IsText heap.old.values c text.at text.size bytes }
    ensures makes { (c : Cell) (bytes : List ℕ) → IsText heap.old.values c text.at text.size bytes → Makes Row.StringList heap.old (c ∷ []) heap.new result }
    ensures grows { Grows heap.old heap.new }
{
    let _used = heap.used();
    match room_for(heap, 3 * text.size) {
        Ok(_) => Ok(add_characters(heap, text)),
        Err(full) => Err(full),
    }
}
