//! How a block is left: for another block, by a turn, or for good.

ghost use Rattle.std.specs.Prelude.{◌≡◌, ◌<◌, length};
ghost use Rattle.rml_code.specs.declared.instructions.Instr.TheVariants as instr;
ghost use Rattle.rml_code.specs.Effects.{effect, otherwise as goes_otherwise};
ghost use Rattle.rml_acts.specs.Fine.{IsFineHalt};
ghost use Rattle.rml_acts.specs.Did.{next_of, IsRight};

use crate::frames::enter;
use crate::step::{End, Step};
use rml_code::{Else, Halt, State};
use rml_heap::count_of;

/// Where an instruction goes on that does not go on behind itself.
pub fn leave(state: &State, otherwise: Else) -> Step
    requires right { IsRight (goes_otherwise otherwise state.now) }
    ensures { next_of result ≡ (goes_otherwise otherwise state.now).next }
{
    match otherwise {
        Else::Fail => enter(state, state.failure),
        Else::Block(b) => Step::Jump(b),
    }
}

/// By a turn to the relation in a register.
pub fn call(state: &State, a: u64) -> Step
    requires register { a < length state.now.registers }
    requires right { IsRight (effect (instr.CallRegister a) state.now) }
    ensures { next_of result ≡ (effect (instr.CallRegister a) state.now).next }
{
    Step::Turn(count_of(state.registers.get(a)))
}

/// The end of a run.
pub fn halt(state: &State, halt: Halt) -> Step
    requires fine { IsFineHalt (length state.now.registers) halt }
    requires right { IsRight (effect (instr.Halt halt) state.now) }
    ensures { next_of result ≡ (effect (instr.Halt halt) state.now).next }
{
    match halt {
        Halt::Yes => Step::Stop(End::Answer(None)),
        Halt::Integer => Step::Stop(End::Answer(Some(state.registers.get(0).number))),
        Halt::No => Step::Stop(End::Failure),
    }
}
