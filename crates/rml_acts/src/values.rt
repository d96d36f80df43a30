//! Instructions that look at values.

ghost use Rattle.std.specs.Prelude.{◌≡◌, ◌<◌, length};
ghost use Rattle.rml_code.specs.declared.instructions.Instr.TheVariants as instr;
ghost use Rattle.rml_code.specs.Effects.{behind, effect};
ghost use Rattle.rml_acts.specs.Did.{next_of, IsRight};

use crate::leaving::leave;
use crate::step::Step;
use rml_code::{Else, State};
use rml_heap::address_of;

/// A register gets a part of the block in another.
pub fn take_part(state: &mut State, a: u64, b: u64, i: u64)
    requires to { a < length state.old.registers }
    requires from { b < length state.old.registers }
    requires right { IsRight (effect (instr.Field a b i) state.old) }
    ensures { behind state.new ≡ effect (instr.Field a b i) state.old }
{
    let _used = state.heap.used();
    let block = state.registers.get(b);
    let part = state.heap.get(address_of(block) + i as u32);
    state.registers.put(a, part);
}

/// Goes on behind where two registers hold equal values.
pub fn compare(state: &mut State, a: u64, b: u64, otherwise: Else) -> Step
    requires left { a < length state.old.registers }
    requires right { b < length state.old.registers }
    requires meaning { IsRight (effect (instr.Equal a b otherwise) state.old) }
    ensures next { next_of result ≡ (effect (instr.Equal a b otherwise) state.old).next }
    ensures state { state.new ≡ (effect (instr.Equal a b otherwise) state.old).state }
{
    let left = state.registers.get(a);
    let right = state.registers.get(b);
    if state.heap.equal(left, right) {
        Step::Behind
    } else {
        leave(state, otherwise)
    }
}
