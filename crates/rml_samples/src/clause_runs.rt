//! Small programs in clause form, run as they stand, each compared with its search.

ghost use Rattle.std.specs.Prelude.{IsTrue};
ghost use Rattle.rml_clauses.specs.Agrees.{counts_agree};

use crate::programs::{
    A_VAL, ARGUMENTS, BUILT_IN_AS_A_VALUE, BY_A_VAL, BY_A_VARIABLE, ECHO, EVALUATOR, FAILURE,
    FIRST_ANSWER, HELLO, INTEGER_CALLED, INTEGER_CALLED_BY_A_VAL, LISTS, NO_MEANING, NO_RULE_LEFT,
    NOT, NOT_NOT, OUTSIDE, PRINTING_PREMISE, RANGE, TEXTS, UNDONE_SETTINGS, VECTOR,
    VECTOR_EQUALITY, WITHOUT_END,
};
use crate::sample::program;
use crate::spelled::Part;
use rml_base::{Bytes, Memory, Outcome};
use rml_clauses::{do_counts_agree, tables_of};
use rml_fol_plain::{PlainRun, run};
use rml_resolved::Program;
use rml_search::search;
use std::alloc::Global;
use std::test::Fail;

fn run_clauses(alloc: Global, program: &Program, args: &[Bytes], n: u32) -> Result<PlainRun, Memory>
    requires { IsTrue (counts_agree program.now) }
{
    let tables = tables_of(alloc, program)?;
    run(alloc, &tables, args, n)
}

/// A program, whether it gives an integer, and its arguments.
const PROGRAMS: [(&[&[Part]], bool, &[&str]); 28] = [
    (HELLO, false, &[]),
    (FIRST_ANSWER, false, &[]),
    (FAILURE, false, &[]),
    (WITHOUT_END, false, &[]),
    (PRINTING_PREMISE, true, &[]),
    (RANGE, true, &[]),
    (UNDONE_SETTINGS, false, &[]),
    (NOT, false, &[]),
    (NOT_NOT, false, &[]),
    (EVALUATOR, true, &[]),
    (NO_RULE_LEFT, true, &[]),
    (TEXTS, false, &[]),
    (VECTOR, true, &[]),
    (OUTSIDE, true, &[]),
    (VECTOR_EQUALITY, false, &[]),
    (LISTS, true, &[]),
    (A_VAL, true, &[]),
    (BY_A_VARIABLE, true, &[]),
    (BY_A_VAL, false, &[]),
    (BUILT_IN_AS_A_VALUE, true, &[]),
    (NO_MEANING, false, &[]),
    (INTEGER_CALLED, false, &[]),
    (INTEGER_CALLED_BY_A_VAL, false, &[]),
    (ARGUMENTS, true, &["bc"]),
    (ARGUMENTS, true, &[]),
    (ARGUMENTS, true, &["b", "c"]),
    (ECHO, false, &["a", "bc"]),
    (ECHO, false, &[]),
];

fn words(alloc: Global, args: &[&str]) -> Result<Vec<Bytes>, Memory> {
    let mut words = Vec::new(alloc);
    for word in args {
        words.push(Bytes::of(Vec::from_slice(alloc, word.as_bytes())?))?;
    }
    Ok(words)
}

/// Where a search ends after so many steps at most, its clauses end in as many, and alike; what they weigh is no more.
#[test]
fn clauses_end_as_their_search(rt: HostRuntime) -> Result<(), Fail> {
    let alloc = rt.alloc();
    for (i, (spelled, gives, args)) in PROGRAMS.iter().enumerate() {
        let program = program(alloc, spelled, *gives)?;
        assert!(rt; do_counts_agree(&program));
        let args = words(alloc, *args)?;
        for n in 0..25_u32 {
            let searched = search(alloc, &program, &args, n)?;
            if searched.outcome != Outcome::Cut {
                let ended = run_clauses(alloc, &program, &args, n)?;
                assert_eq!(rt; ended.outcome, searched.outcome, "row {i} after {n}");
                assert_eq!(rt;
                    ended.text.as_slice(),
                    searched.text.as_slice(),
                    "row {i} after {n}"
                );
                assert_eq!(rt; ended.made, searched.made, "row {i} after {n}");
                assert!(rt; ended.weighed <= searched.weighed, "row {i} after {n}");
            }
        }
    }
    Ok(())
}
