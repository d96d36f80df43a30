//! The search for `main`.

ghost use Rattle.std.specs.Prelude.{◌≡◌, IfOk};
ghost use Rattle.rml_base.specs.Run.{seen};
ghost use Rattle.rml_search.specs.Runs.{main_called, run_from, run_of};

use crate::plain::search_from;
use crate::tables::tables_of;
use rml_base::{Bytes, Memory, Outcome};
use rml_builtin::Answer;
use rml_evaluation::{argument, integer, trace};
use rml_resolved::Program;
use rml_simulation::Partial;
use std::alloc::Global;

/// What the plain search gives: the run of a program, after so many steps at most, as a caller sees it.
#[derive(Debug, Drop)]
pub struct PlainRun {
    pub outcome: Outcome,
    /// What it printed.
    pub text: Vec<u8>,
    /// The cells of the texts, lists and vectors that its built-ins made.
    pub made: u64,
    /// The weight of its steps.
    pub weighed: u64,
}

fn call_main(
    alloc: Global,
    program: &Program,
    args: &[Bytes],
    n: u32,
) -> Result<Partial<Answer>, Memory>
    ensures { IfOk result (λ w. w ≡ main_called program.now args.now n) }
{
    let argument = [argument(alloc, args)?];
    let tables = tables_of(program);
    search_from(alloc, &tables, program.main, &argument, n)
}

fn outcome(part: &Partial<Answer>) -> Outcome
    ensures { result ≡ seen (run_from part.now).outcome }
{
    match part {
        Partial::Yes(answer, _, _) => Outcome::Answer(integer(answer.values.as_slice())),
        Partial::No(_, _) => Outcome::Failure,
        Partial::CutOff(_) => Outcome::Cut,
        Partial::GoneWrong(_) => Outcome::Failure,
    }
}

/// The search for `main` with the list of the arguments, in at most `n` steps: how it ends, what it prints, the cells that its
/// built-ins make, and the weight of its steps. A program that is not typed may come to what has no meaning, which is a failure
/// here. The only error is want of memory; cells or weights that no 64 bits hold are answered as that. The search goes as
/// deep as calls and values do, so it is for small programs and few steps.
pub fn search(alloc: Global, program: &Program, args: &[Bytes], n: u32) -> Result<PlainRun, Memory>
    ensures outcome { IfOk result (λ r. r.outcome ≡ seen (run_of program.now args.now n).outcome) }
    ensures text { IfOk result (λ r. r.text.items ≡ (run_of program.now args.now n).text) }
    ensures made { IfOk result (λ r. r.made ≡ (run_of program.now args.now n).made) }
    ensures weighed { IfOk result (λ r. r.weighed ≡ (run_of program.now args.now n).weighed) }
{
    let part = call_main(alloc, program, args, n)?;
    let outcome = outcome(&part);
    let trace = trace(&part);
    let text = Vec::from_slice(alloc, trace.text.as_slice())?;
    Ok(PlainRun {
        outcome,
        text,
        made: trace.made,
        weighed: trace.weighed,
    })
}
