//! The run of `main`.

ghost use Rattle.std.specs.Prelude.{◌≡◌, IfOk};
ghost use Rattle.rml_base.specs.Run.{seen};
ghost use Rattle.rml_fol.specs.Expressions.{values_of_vals};
ghost use Rattle.rml_fol.specs.Runs.{main_called, runs_of};
ghost use Rattle.rml_fol_plain.specs.Ended.{ended};

use crate::blocks::called_from;
use crate::state::Tables;
use rml_base::{Bytes, Memory, Outcome};
use rml_builtin::Answer;
use rml_evaluation::{argument, integer, trace};
use rml_fol::Parts;
use rml_simulation::Partial;
use std::alloc::Global;

/// What a plain run gives, after so many steps at most, as a caller sees it.
#[derive(Debug, Drop)]
pub struct PlainRun {
    pub outcome: Outcome,
    /// What it printed.
    pub text: Vec<u8>,
    /// The cells of the texts, lists and vectors that its built-ins made.
    pub made: u64,
    /// The weights that it met.
    pub weighed: u64,
}

fn outcome(part: &Partial<Answer>) -> Outcome
    ensures { result ≡ ended part.now }
{
    match part {
        Partial::Yes(answer, _, _) => Outcome::Answer(integer(answer.values.as_slice())),
        Partial::No(_, 0) => Outcome::Cut,
        Partial::No(_, _) => Outcome::Failure,
        Partial::CutOff(_) => Outcome::Cut,
        Partial::GoneWrong(_) => Outcome::Failure,
    }
}

fn call_main(
    alloc: Global,
    parts: &Parts,
    args: &[Bytes],
    n: u32,
) -> Result<Partial<Answer>, Memory>
    ensures { IfOk result (λ w. w ≡ main_called (values_of_vals parts.now.vals) parts.now.rels parts.now.main args.now n) }
{
    let argument = [argument(alloc, args)?];
    let tables = Tables {
        vals: parts.vals.as_slice(),
        rels: parts.rels.as_slice(),
    };
    called_from(alloc, &tables, parts.main, &argument, n)
}

/// The run of `main` with the list of the arguments, in at most `n` steps: how it ends, what it prints, the cells that its built-ins
/// make, and the weights that it meets. Tables that are no program may come to what has no meaning, which is a failure here. The
/// only error is want of memory; cells or weights that no 64 bits hold are answered as that. It goes as deep as calls, blocks and
/// values do, so it is for small programs and few steps.
pub fn run(alloc: Global, parts: &Parts, args: &[Bytes], n: u32) -> Result<PlainRun, Memory>
    ensures outcome { IfOk result (λ r. r.outcome ≡ seen (runs_of parts.now args.now 0 n).outcome) }
    ensures text { IfOk result (λ r. r.text.items ≡ (runs_of parts.now args.now 0 n).text) }
    ensures made { IfOk result (λ r. r.made ≡ (runs_of parts.now args.now 0 n).made) }
    ensures weighed { IfOk result (λ r. r.weighed ≡ (runs_of parts.now args.now 0 n).weighed) }
{
    let part = call_main(alloc, parts, args, n)?;
    let outcome = outcome(&part);
    let trace = trace(&part);
    let text = Vec::from_slice(alloc, trace.text.as_slice())?;
    Ok(PlainRun {
        outcome,
        text,
        made: trace.made,
        weighed: trace.weighed,
    })
}
