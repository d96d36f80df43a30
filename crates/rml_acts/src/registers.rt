//! Registers: copied, and handed on to new cells.

ghost use Rattle.std.specs.Prelude.{◌≡◌, ◌<◌, ◌^◌, ◌++◌, length, map};
ghost use Rattle.rml_heap.specs.HeapState.{HasRoom};
ghost use Rattle.rml_code.specs.Frames.{register, constant, put, with_frame};
ghost use Rattle.rml_code.specs.Effects.{word_cell};
ghost use Rattle.rml_acts.specs.Fine.{held, AreBelow, IsFineWord};

use rml_code::{Cells, State, Word};
use rml_heap::{CHAR, CON, Cell, Heap, INT, REL};

/// Copies a register.
pub fn copy(state: &mut State, a: u64, b: u64)
    requires to { a < length state.old.registers }
    requires from { b < length state.old.registers }
    ensures { state.new ≡ put a (register state.old b) state.old }
{
    let cell = state.registers.get(b);
    state.registers.put(a, cell);
}

/// The cell of a word.
fn cell_of(word: Word) -> Cell
    requires { IsFineWord word }
    ensures { result ≡ word_cell word }
{
    match word {
        Word::Int(number) => Cell { kind: INT, number },
        Word::Char(byte) => Cell {
            kind: CHAR,
            number: i64::from(byte),
        },
        Word::Rel(block) => Cell {
            kind: REL,
            number: block as i64,
        },
        Word::Con(constructor) => Cell {
            kind: CON,
            number: i64::from(constructor),
        },
    }
}

/// A register gets a word.
pub fn put_word(state: &mut State, a: u64, word: Word)
    requires to { a < length state.old.registers }
    requires fine { IsFineWord word }
    ensures { state.new ≡ put a (word_cell word) state.old }
{
    state.registers.put(a, cell_of(word));
}

/// A register gets a constant.
pub fn put_constant(state: &mut State, a: u64, i: u64)
    requires to { a < length state.old.registers }
    requires from { i < length state.old.constants }
    ensures { state.new ≡ put a (constant state.old i) state.old }
{
    let cell = state.constants.get(i);
    state.registers.put(a, cell);
}

/// Adds the cells of registers behind the values.
pub fn add_registers(heap: &mut Heap, registers: &Cells, rs: &[u64])
    requires room { HasRoom heap.old (length rs.now) }
    requires below { AreBelow (length registers.now) rs.now }
    ensures { heap.new ≡ record heap.old { values = heap.old.values ++ map (held registers.now) rs.now } }
{
    for r in rs {
        heap.add(registers.get(*r));
    }
}

/// Pushes the cells of registers below the frames, the last one first.
pub fn stack_registers(heap: &mut Heap, registers: &Cells, rs: &[u64])
    requires room { HasRoom heap.old (length rs.now) }
    requires below { AreBelow (length registers.now) rs.now }
    ensures { heap.new ≡ with_frame (map (held registers.now) rs.now) heap.old }
{
    for i in 0..rs.len() {
        let r = rs[rs.len() - 1 - i];
        heap.stack(registers.get(r));
    }
}
