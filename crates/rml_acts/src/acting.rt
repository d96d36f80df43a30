//! One instruction.

ghost use Rattle.std.specs.Prelude.{◌≡◌, length};
ghost use Rattle.rml_trail.specs.TrailState.{Fits};
ghost use Rattle.rml_code.specs.Effects.{effect};
ghost use Rattle.rml_acts.specs.Fine.{IsFine};
ghost use Rattle.rml_acts.specs.Did.{next_of, IsRight};
ghost use Rattle.rml_acts.specs.Kept.{IsQuiet};

use crate::built_in::run;
use crate::frames::{enter, forget, guard, resume, retry, save};
use crate::leaving::{call, halt};
use crate::making::{CONS_HEAD, build, con_head, tuple_head};
use crate::registers::{copy, put_constant, put_word};
use crate::step::Step;
use crate::switch::choose;
use crate::values::{compare, take_part};
use rml_code::{Instr, State};

/// One instruction that does not print. It takes no memory, and tests nothing that its effect rules out.
pub fn act(instr: &Instr, state: &mut State) -> Step
    requires fits { Fits state.old.trail state.old.heap }
    requires fine { IsFine (length state.old.registers) (length state.old.constants) instr.now }
    requires right { IsRight (effect instr.now state.old) }
    ensures next { next_of result ≡ (effect instr.now state.old).next }
    ensures state { state.new ≡ (effect instr.now state.old).state }
    ensures fits { Fits state.new.trail state.new.heap }
{
    match instr {
        Instr::Builtin(number, rs, ys, otherwise) => {
            run(state, *number, rs.as_slice(), ys.as_slice(), *otherwise)
        }
        _ => act_quietly(instr, state),
    }
}

/// One instruction that is no built-in.
fn act_quietly(instr: &Instr, state: &mut State) -> Step
    requires quiet { IsQuiet instr.now }
    requires fits { Fits state.old.trail state.old.heap }
    requires fine { IsFine (length state.old.registers) (length state.old.constants) instr.now }
    requires right { IsRight (effect instr.now state.old) }
    ensures next { next_of result ≡ (effect instr.now state.old).next }
    ensures state { state.new ≡ (effect instr.now state.old).state }
{
    match instr {
        Instr::Move(a, b) => {
            copy(state, *a, *b);
            Step::Behind
        }
        Instr::Word(a, word) => {
            put_word(state, *a, *word);
            Step::Behind
        }
        Instr::Const(a, i) => {
            put_constant(state, *a, *i);
            Step::Behind
        }
        Instr::Field(a, b, i) => {
            take_part(state, *a, *b, *i);
            Step::Behind
        }
        Instr::Con(a, c, rs) => build(state, *a, con_head(*c, rs.len() as u32), rs.as_slice()),
        Instr::Tuple(a, rs) => build(state, *a, tuple_head(rs.len() as u32), rs.as_slice()),
        Instr::Cons(a, b, c) => {
            let parts = [*b, *c];
            build(state, *a, CONS_HEAD, &parts)
        }
        Instr::Save(b, rs) => save(state, *b, rs.as_slice()),
        Instr::Guard(b, rs) => guard(state, *b, rs.as_slice()),
        Instr::Resume(rs) => {
            resume(state, rs.as_slice());
            Step::Behind
        }
        Instr::Retry(rs) => {
            retry(state, rs.as_slice());
            Step::Behind
        }
        Instr::Drop => {
            forget(state);
            Step::Behind
        }
        Instr::Equal(a, b, otherwise) => compare(state, *a, *b, *otherwise),
        Instr::Goto(b) => Step::Jump(*b),
        Instr::Call(b) => Step::Turn(*b),
        Instr::CallRegister(a) => call(state, *a),
        Instr::Answer => enter(state, state.success),
        Instr::Fail => enter(state, state.failure),
        Instr::Halt(end) => halt(state, *end),
        Instr::Builtin(_, _, _, _) => Step::Behind,
        Instr::Switch(a, cases, otherwise) => choose(state, *a, cases.as_slice(), *otherwise),
    }
}
