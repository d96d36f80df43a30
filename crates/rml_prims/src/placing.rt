//! Texts and lists that are placed at the end of the values, as an opening does with arguments and constants.

ghost use Rattle.std.specs.Prelude.{◌≡◌, ◌+◌, ◌^◌, ◌<◌, ◌++◌, ◌∷◌, [], IfOk, IfErr, OnOk, OnErr, length};
ghost use Rattle.rml_heap.specs.HeapState.{HasRoom};
ghost use Rattle.rml_heap.specs.Text.{words_for as words_for_bytes, text_cells};
ghost use Rattle.rml_prims.specs.Shapes.{block_cell, cons_head};
ghost use Rattle.rml_prims.specs.Found.{DoNotFit};

use crate::lists::add_cons;
use crate::texts::words_for;
use crate::words::block;
use rml_heap::{Cell, Full, Heap, add_text};

/// Places a text. Full names its cells.
pub fn place_text(heap: &mut Heap, bytes: &[u8]) -> Result<Cell, Full>
    requires { length bytes.now < 2 ^ 31 }
    ensures room { OnOk result (HasRoom heap.old (1 + words_for_bytes (length bytes.now))) }
    ensures made { OnOk result (heap.new ≡ record heap.old { values = heap.old.values ++ text_cells bytes.now }) }
    ensures cell { IfOk result (λ c. c ≡ block_cell (length heap.old.values)) }
    ensures full { IfErr result (DoNotFit heap.old (1 + words_for_bytes (length bytes.now))) }
    ensures err { OnErr result (heap.new ≡ heap.old) }
{
    let at = heap.room(1 + words_for(bytes.len() as u32))?;
    add_text(heap, bytes);
    Ok(block(at))
}

/// Places a `::` of a head and a tail. Full names its three cells.
pub fn place_cons(heap: &mut Heap, head: Cell, tail: Cell) -> Result<Cell, Full>
    ensures room { OnOk result (HasRoom heap.old 3) }
    ensures made { OnOk result (heap.new ≡ record heap.old { values = heap.old.values ++ cons_head ∷ head ∷ tail ∷ [] }) }
    ensures cell { IfOk result (λ c. c ≡ block_cell (length heap.old.values)) }
    ensures full { IfErr result (DoNotFit heap.old 3) }
    ensures err { OnErr result (heap.new ≡ heap.old) }
{
    heap.room(3)?;
    Ok(add_cons(heap, head, tail))
}
