//! Frames: pushed, taken up, and gone back to.

ghost use Rattle.std.specs.Prelude.{◌≡◌, ◌<◌, ◌≤◌, ◌+◌, ◌-◌, length, drop, slice_index_or};
ghost use Rattle.rml_heap.specs.HeapState.{bottom_of, IsInFrames, unset_cell};
ghost use Rattle.rml_trail.specs.TrailState.{Fits};
ghost use Rattle.rml_code.specs.declared.limits.TheConstants.{LENGTH};
ghost use Rattle.rml_code.specs.declared.instructions.Instr.TheVariants as instr;
ghost use Rattle.rml_code.specs.Frames.{loaded, number_cell};
ghost use Rattle.rml_code.specs.Effects.{behind, effect, to_label};
ghost use Rattle.rml_acts.specs.Fine.{AreBelow, IsLabel};
ghost use Rattle.rml_acts.specs.Did.{next_of, IsRight};

use crate::registers::stack_registers;
use crate::step::{End, Step};
use rml_code::{Cells, State};
use rml_heap::{Cell, Heap, INT, address_of, count_of};

/// A number that a frame keeps.
fn number(n: u64) -> Cell
    requires { IsLabel n }
    ensures { result ≡ number_cell n }
{
    Cell {
        kind: INT,
        number: n as i64,
    }
}

/// Pushes a success frame.
pub fn save(state: &mut State, label: u64, rs: &[u64]) -> Step
    requires label { IsLabel label }
    requires few { length rs.now < LENGTH }
    requires below { AreBelow (length state.old.registers) rs.now }
    ensures next { next_of result ≡ (effect (instr.Save label rs.now) state.old).next }
    ensures state { state.new ≡ (effect (instr.Save label rs.now) state.old).state }
{
    match state.heap.room(3 + rs.len() as u32) {
        Ok(_) => {
            stack_registers(&mut state.heap, &state.registers, rs);
            state.heap.stack(number(u64::from(state.failure)));
            state.heap.stack(number(u64::from(state.success)));
            state.heap.stack(number(label));
            state.success = state.heap.bottom();
            Step::Behind
        }
        Err(full) => Step::Stop(End::Full {
            used: full.used,
            need: full.need,
        }),
    }
}

/// Pushes a failure frame.
pub fn guard(state: &mut State, label: u64, rs: &[u64]) -> Step
    requires label { IsLabel label }
    requires few { length rs.now < LENGTH }
    requires below { AreBelow (length state.old.registers) rs.now }
    ensures next { next_of result ≡ (effect (instr.Guard label rs.now) state.old).next }
    ensures state { state.new ≡ (effect (instr.Guard label rs.now) state.old).state }
{
    match state.heap.room(5 + rs.len() as u32) {
        Ok(top) => {
            stack_registers(&mut state.heap, &state.registers, rs);
            state.heap.stack(number(u64::from(state.failure)));
            state.heap.stack(number(u64::from(state.success)));
            state.heap.stack(number(u64::from(top)));
            state.heap.stack(number(u64::from(state.trail.mark())));
            state.heap.stack(number(label));
            state.failure = state.heap.bottom();
            Step::Behind
        }
        Err(full) => Step::Stop(End::Full {
            used: full.used,
            need: full.need,
        }),
    }
}

/// A cell of frames, so many behind an address.
fn frame_cell(heap: &Heap, at: u32, i: u32) -> Cell
    requires { IsInFrames heap.now (at + i) }
    ensures { result ≡ slice_index_or heap.now.frames (at + i - bottom_of heap.now) unset_cell }
{
    let _used = heap.used();
    heap.get(at + i)
}

/// Registers get cells of frames, from this address on.
fn load(heap: &Heap, registers: &mut Cells, from: u32, rs: &[u64])
    requires low { bottom_of heap.now ≤ from }
    requires high { from + length rs.now ≤ heap.now.limit }
    requires below { AreBelow (length registers.old) rs.now }
    ensures { registers.new ≡ loaded rs.now (drop (from - bottom_of heap.now) heap.now.frames) registers.old }
{
    let _bottom = heap.bottom();
    let _used = heap.used();
    let mut at = from;
    for r in rs {
        registers.put(*r, heap.get(at));
        at += 1;
    }
}

/// Takes up the last success frame.
pub fn resume(state: &mut State, rs: &[u64])
    requires below { AreBelow (length state.old.registers) rs.now }
    requires right { IsRight (effect (instr.Resume rs.now) state.old) }
    ensures { behind state.new ≡ effect (instr.Resume rs.now) state.old }
{
    let _bottom = state.heap.bottom();
    let _used = state.heap.used();
    let at = state.success;
    let success = address_of(frame_cell(&state.heap, at, 1));
    let failure = address_of(frame_cell(&state.heap, at, 2));
    load(&state.heap, &mut state.registers, at + 3, rs);
    state.heap.cut(at + 3 + rs.len() as u32);
    state.success = success;
    state.failure = failure;
}

/// Takes up the last failure frame: the trail is undone, and cells of values are taken back.
pub fn retry(state: &mut State, rs: &[u64])
    requires fits { Fits state.old.trail state.old.heap }
    requires below { AreBelow (length state.old.registers) rs.now }
    requires right { IsRight (effect (instr.Retry rs.now) state.old) }
    ensures did { behind state.new ≡ effect (instr.Retry rs.now) state.old }
    ensures fits { Fits state.new.trail state.new.heap }
{
    let _bottom = state.heap.bottom();
    let _used = state.heap.used();
    let at = state.failure;
    let mark = address_of(frame_cell(&state.heap, at, 1));
    let top = address_of(frame_cell(&state.heap, at, 2));
    let success = address_of(frame_cell(&state.heap, at, 3));
    let failure = address_of(frame_cell(&state.heap, at, 4));
    state.trail.undo_to(&mut state.heap, mark);
    state.heap.reset(top);
    load(&state.heap, &mut state.registers, at + 5, rs);
    state.heap.cut(at + 5 + rs.len() as u32);
    state.success = success;
    state.failure = failure;
}

/// Forgets the last failure frame.
pub fn forget(state: &mut State)
    requires right { IsRight (effect instr.Drop state.old) }
    ensures { behind state.new ≡ effect instr.Drop state.old }
{
    let _bottom = state.heap.bottom();
    state.failure = address_of(frame_cell(&state.heap, state.failure, 4));
}

/// By a turn, where the frame at this address says.
pub fn enter(state: &State, at: u32) -> Step
    requires right { IsRight (to_label at state.now) }
    ensures { next_of result ≡ (to_label at state.now).next }
{
    let _bottom = state.heap.bottom();
    Step::Turn(count_of(frame_cell(&state.heap, at, 0)))
}
