//! Texts and lists in cells, for the calls that are measured.

ghost use Rattle.std.specs.Prelude.{◌≡◌, ◌<◌, ◌^◌, ◌∷◌, [], IfOk, OnOk, length, pos};
ghost use Rattle.rml_value.specs.declared.value.Value.TheVariants as value;
ghost use Rattle.rml_value.specs.Lists.{list_of};
ghost use Rattle.rml_heap.specs.Reading.{Stands};
ghost use Rattle.rml_prims.specs.Binds.{Binds};
ghost use Rattle.rml_prims.specs.Found.{Grows};
ghost use Rattle.rml_prims.specs.Shapes.{int_cell};
ghost use Rattle.rml_cell_bench.specs.Held.{Holds, below};

use rml_heap::{CON, Cell, Full, Heap, INT};
use rml_prims::{place_cons, place_text};
use rml_value::NIL;

/// An integer.
pub fn int(number: i64) -> Cell
    ensures { result ≡ int_cell number }
{
    Cell { kind: INT, number }
}

/// Two texts, the first that there is in the cells.
pub fn two_texts(heap: &mut Heap, left: &[u8], right: &[u8]) -> Result<(Cell, Cell), Full>
    requires empty { heap.old.values ≡ [] }
    requires left { length left.now < 2 ^ 31 }
    requires right { length right.now < 2 ^ 31 }
    ensures texts { IfOk result (λ p. Holds heap.new.values (p.0 ∷ p.1 ∷ []) (value.Text left.now ∷ value.Text right.now ∷ [])) }
    ensures limit { OnOk result (heap.new.limit ≡ heap.old.limit) }
{
    let first = place_text(heap, left)?;
    let second = place_text(heap, right)?;
    Ok((first, second))
}

/// The list of the integers below a number, the greatest first, among cells without logical variables.
pub fn list_below(heap: &mut Heap, n: u32) -> Result<Cell, Full>
    requires { Binds heap.old.values [] [] }
    ensures list { IfOk result (λ c. Stands heap.new.values [] (length heap.new.values) c (list_of (below n))) }
    ensures binds { OnOk result (Binds heap.new.values [] []) }
    ensures grows { OnOk result (Grows heap.old heap.new) }
{
    let mut list = Cell {
        kind: CON,
        number: i64::from(NIL),
    };
    for i in 0..n {
        list = place_cons(heap, int(i64::from(i)), list)?;
    }
    Ok(list)
}

/// Two such lists, the first that there is in the cells.
pub fn two_lists(heap: &mut Heap, n: u32) -> Result<(Cell, Cell), Full>
    requires { heap.old.values ≡ [] }
    ensures { IfOk result (λ p. Holds heap.new.values (p.0 ∷ p.1 ∷ []) (list_of (below n) ∷ list_of (below n) ∷ [])) }
{
    let first = list_below(heap, n)?;
    let second = list_below(heap, n)?;
    Ok((first, second))
}
