//! One cell of a run.

ghost use Rattle.std.specs.Prelude.{◌≡◌};
ghost use Rattle.rml_heap.specs.Form.{address, or_zero};

/// A number of the language, or a label, an address or a length that a frame saves: any number.
pub const INT: u8 = 0;

/// A character: its byte.
pub const CHAR: u8 = 1;

/// A relation: the number of its entry block, which is 2 more than the relation's. Blocks 0 and 1 are the ends of a run.
pub const REL: u8 = 2;

/// A block of cells: the address of its head.
pub const BLOCK: u8 = 3;

/// A constructor without arguments: its number.
pub const CON: u8 = 4;

/// The head of a text: how many bytes it has. They follow, eight in a cell of the kind Int, the first byte the lowest; what is left
/// of the last cell is 0.
pub const TEXT: u8 = 5;

/// The head of a constructor with arguments, other than `::`: 1,048,576 times its number, plus how many arguments follow.
pub const CON_BLOCK: u8 = 6;

/// The head of a tuple: how many parts follow.
pub const TUPLE: u8 = 7;

/// The head of a `::`, with number 0: its head and its tail follow.
pub const CONS_BLOCK: u8 = 8;

/// The head of a logical variable, with number 0: its content follows.
pub const LVAR: u8 = 9;

/// The content of a logical variable that is not set, with number 0.
pub const UNSET: u8 = 10;

/// The head of a vector: how many items follow.
pub const VECTOR: u8 = 11;

/// A cell: what kind of thing it is, by the constants of this module, and its number.
#[derive(Clone, Copy, PartialEq, Eq, Debug)]
pub struct Cell {
    pub kind: u8,
    pub number: i64,
}

/// The number of a cell as an address. A number that is none becomes the last one, which no heap has.
pub fn address_of(cell: Cell) -> u32
    ensures { result ≡ address cell.number }
{
    if cell.number < 0 || cell.number > 4_294_967_295 {
        u32::MAX
    } else {
        cell.number as u32
    }
}

/// The number of a cell as a count. A number below 0 becomes 0.
pub fn count_of(cell: Cell) -> u64
    ensures { result ≡ or_zero cell.number }
{
    if cell.number < 0 {
        0
    } else {
        cell.number as u64
    }
}
