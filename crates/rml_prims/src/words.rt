//! Cells that are made here.

ghost use Rattle.std.specs.Prelude.{◌≡◌, pos, OnOk, IfOk, IfErr, length};
ghost use Rattle.rml_heap.specs.HeapState.{HasRoom};
ghost use Rattle.rml_prims.specs.Found.{DoNotFit};

use rml_heap::{
    BLOCK, CHAR, CON, CON_BLOCK, CONS_BLOCK, Cell, Full, Heap, INT, LVAR, TEXT, UNSET, VECTOR,
};
use rml_value::SOME;

/// The head of a `::`.
pub const CONS_HEAD: Cell = Cell {
    kind: CONS_BLOCK,
    number: 0,
};

/// The head of a logical variable.
pub const LVAR_HEAD: Cell = Cell {
    kind: LVAR,
    number: 0,
};

/// The content of a logical variable that is not set.
pub const UNSET_CELL: Cell = Cell {
    kind: UNSET,
    number: 0,
};

/// The head of a `SOME`, which has one argument.
pub const SOME_HEAD: Cell = Cell {
    kind: CON_BLOCK,
    number: 1_048_576 * SOME as i64 + 1,
};

/// An integer, or a word of a text.
pub fn int(number: i64) -> Cell
    ensures { result ≡ record { kind = INT; number = number } }
{
    Cell { kind: INT, number }
}

/// A character.
pub fn char(byte: u8) -> Cell
    ensures { result ≡ record { kind = CHAR; number = pos byte } }
{
    Cell {
        kind: CHAR,
        number: i64::from(byte),
    }
}

/// A constructor without arguments.
pub fn con(number: u32) -> Cell
    ensures { result ≡ record { kind = CON; number = pos number } }
{
    Cell {
        kind: CON,
        number: i64::from(number),
    }
}

/// The block whose head is at this address.
pub fn block(at: u32) -> Cell
    ensures { result ≡ record { kind = BLOCK; number = pos at } }
{
    Cell {
        kind: BLOCK,
        number: i64::from(at),
    }
}

/// Where the next value begins, if so many cells fit.
pub fn room_for(heap: &Heap, n: u32) -> Result<u32, Full>
    ensures room { OnOk result (HasRoom heap.now n) }
    ensures at { IfOk result (λ at. at ≡ length heap.now.values) }
    ensures full { IfErr result (DoNotFit heap.now n) }
{
    heap.room(n)
}

/// The head of a text of so many bytes.
pub fn text_head(bytes: u32) -> Cell
    ensures { result ≡ record { kind = TEXT; number = pos bytes } }
{
    Cell {
        kind: TEXT,
        number: i64::from(bytes),
    }
}

/// The head of a vector of so many items.
pub fn vector_head(items: u32) -> Cell
    ensures { result ≡ record { kind = VECTOR; number = pos items } }
{
    Cell {
        kind: VECTOR,
        number: i64::from(items),
    }
}
