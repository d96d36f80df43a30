//! Blocks that an instruction makes.

ghost use Rattle.std.specs.Prelude.{◌≡◌, ◌<◌, length, ◌∷◌};
ghost use Rattle.rml_code.specs.declared.limits.TheConstants.{LENGTH};
ghost use Rattle.rml_code.specs.Frames.{registers_of};
ghost use Rattle.rml_code.specs.Effects.{builds, con_head as head_of_con, tuple_head as head_of_tuple};
ghost use Rattle.rml_acts.specs.Fine.{AreBelow};
ghost use Rattle.rml_acts.specs.Did.{next_of};

use crate::registers::add_registers;
use crate::step::{End, Step};
use rml_code::State;
use rml_heap::{BLOCK, CON_BLOCK, CONS_BLOCK, Cell, TUPLE};

/// The head of a `::`.
pub const CONS_HEAD: Cell = Cell {
    kind: CONS_BLOCK,
    number: 0,
};

/// The head of a constructor with so many arguments.
pub fn con_head(constructor: u32, count: u32) -> Cell
    ensures { result ≡ head_of_con constructor count }
{
    Cell {
        kind: CON_BLOCK,
        number: i64::from(constructor) * 1_048_576 + i64::from(count),
    }
}

/// The head of a tuple of so many parts.
pub fn tuple_head(count: u32) -> Cell
    ensures { result ≡ head_of_tuple count }
{
    Cell {
        kind: TUPLE,
        number: i64::from(count),
    }
}

/// A register gets a new block of a head and what registers hold.
pub fn build(state: &mut State, a: u64, head: Cell, rs: &[u64]) -> Step
    requires to { a < length state.old.registers }
    requires few { length rs.now < LENGTH }
    requires below { AreBelow (length state.old.registers) rs.now }
    ensures next { next_of result ≡ (builds a (head ∷ registers_of rs.now state.old) state.old).next }
    ensures state { state.new ≡ (builds a (head ∷ registers_of rs.now state.old) state.old).state }
{
    match state.heap.room(1 + rs.len() as u32) {
        Ok(at) => {
            state.heap.add(head);
            add_registers(&mut state.heap, &state.registers, rs);
            state.registers.put(
                a,
                Cell {
                    kind: BLOCK,
                    number: i64::from(at),
                },
            );
            Step::Behind
        }
        Err(full) => Step::Stop(End::Full {
            used: full.used,
            need: full.need,
        }),
    }
}
