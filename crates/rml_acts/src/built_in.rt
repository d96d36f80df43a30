//! A built-in other than `print`.

ghost use Rattle.std.specs.Prelude.{◌≡◌, ◌≤◌, length, map, slice_get};
ghost use Rattle.rml_builtin.specs.declared.row.TheConstants.{ROWS};
ghost use Rattle.rml_trail.specs.TrailState.{Fits};
ghost use Rattle.rml_code.specs.declared.instructions.Instr.TheVariants as instr;
ghost use Rattle.rml_code.specs.Frames.{loaded};
ghost use Rattle.rml_code.specs.Effects.{effect};
ghost use Rattle.rml_acts.specs.Fine.{held, AreBelow, IsFineRow};
ghost use Rattle.rml_acts.specs.Did.{next_of, IsRight};

use crate::leaving::leave;
use crate::step::{End, Step};
use rml_code::{Cells, Else, State};
use rml_heap::{Cell, INT};
use rml_prims::{PrimEnd, prim};

/// The cell of a place that nothing is in.
const FREE: Cell = Cell {
    kind: INT,
    number: 0,
};

/// Reads registers into places, one each.
fn gather(registers: &Cells, rs: &[u64], places: &mut [Cell])
    requires long { length places.old ≡ length rs.now }
    requires below { AreBelow (length registers.now) rs.now }
    ensures { places.new ≡ map (held registers.now) rs.now }
{
    for i in 0..rs.len() {
        places[i] = registers.get(rs[i]);
    }
}

/// Registers get what is in places, one each.
fn scatter(registers: &mut Cells, ys: &[u64], places: &[Cell])
    requires long { length places.now ≡ length ys.now }
    requires below { AreBelow (length registers.old) ys.now }
    ensures { registers.new ≡ loaded ys.now places.now registers.old }
{
    for i in 0..ys.len() {
        registers.put(ys[i], places[i]);
    }
}

/// The built-in of a number, by way of places for the cells of its arguments and results.
fn run_at(
    state: &mut State,
    number: u16,
    rs: &[u64],
    ys: &[u64],
    otherwise: Else,
    inputs: &mut [Cell],
    outputs: &mut [Cell],
) -> Step
    requires fits { Fits state.old.trail state.old.heap }
    requires row { IsFineRow (length rs.now) (length ys.now) (slice_get ROWS number) }
    requires from { AreBelow (length state.old.registers) rs.now }
    requires to { AreBelow (length state.old.registers) ys.now }
    requires arguments { length inputs.old ≡ length rs.now }
    requires results { length outputs.old ≡ length ys.now }
    requires right { IsRight (effect (instr.Builtin number rs.now ys.now otherwise) state.old) }
    ensures next { next_of result ≡ (effect (instr.Builtin number rs.now ys.now otherwise) state.old).next }
    ensures state { state.new ≡ (effect (instr.Builtin number rs.now ys.now otherwise) state.old).state }
    ensures fits { Fits state.new.trail state.new.heap }
{
    gather(&state.registers, rs, inputs);
    match prim(number, &mut state.heap, &mut state.trail, inputs, outputs) {
        PrimEnd::Done => {
            scatter(&mut state.registers, ys, outputs);
            Step::Behind
        }
        PrimEnd::No => leave(state, otherwise),
        PrimEnd::Full { used, need } => Step::Stop(End::Full { used, need }),
    }
}

/// The built-in of a number on registers, and its results in others. It goes on otherwise where the built-in has no answer.
pub fn run(state: &mut State, number: u16, rs: &[u64], ys: &[u64], otherwise: Else) -> Step
    requires fits { Fits state.old.trail state.old.heap }
    requires row { IsFineRow (length rs.now) (length ys.now) (slice_get ROWS number) }
    requires from { AreBelow (length state.old.registers) rs.now }
    requires to { AreBelow (length state.old.registers) ys.now }
    requires right { IsRight (effect (instr.Builtin number rs.now ys.now otherwise) state.old) }
    ensures next { next_of result ≡ (effect (instr.Builtin number rs.now ys.now otherwise) state.old).next }
    ensures state { state.new ≡ (effect (instr.Builtin number rs.now ys.now otherwise) state.old).state }
    ensures fits { Fits state.new.trail state.new.heap }
{
    let mut inputs = [FREE; 2];
    let mut outputs = [FREE; 1];
    run_at(
        state,
        number,
        rs,
        ys,
        otherwise,
        &mut inputs[..rs.len()],
        &mut outputs[..ys.len()],
    )
}
