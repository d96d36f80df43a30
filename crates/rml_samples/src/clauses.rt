//! Small programs in clause form, as text, each against text that is written by hand.

ghost use Rattle.std.specs.Prelude.{IsTrue};
ghost use Rattle.rml_clauses.specs.Agrees.{counts_agree};

use crate::programs::{
    BY_A_VAL, BY_A_VARIABLE, EVALUATOR, FAILURE, FEWER_PATTERNS, FIRST_ANSWER, HELLO, LISTS,
    MORE_PATTERNS, NOT, PATTERN_WITHOUT_RESULT, RESULT_WITHOUT_PATTERN, UNDONE_SETTINGS,
};
use crate::sample::program;
use crate::spelled::Part;
use rml_base::Memory;
use rml_clauses::{do_counts_agree, tables_of};
use rml_fol::print_parts;
use rml_resolved::Program;
use std::alloc::Global;
use std::test::Fail;

/// The vals, and the prelude's relations, whose one rule does nothing here.
const BEFORE: &str = "val 0 3
val 1 m.main
relation 0 rml.bool_and() -> 0
  or
  alt
    give()
relation 1 rml.bool_or() -> 0
  or
  alt
    give()
relation 2 rml.bool_not() -> 0
  or
  alt
    give()
relation 3 rml.list_append() -> 0
  or
  alt
    give()
relation 4 rml.list_reverse() -> 0
  or
  alt
    give()
relation 5 rml.list_length() -> 0
  or
  alt
    give()
relation 6 rml.list_member() -> 0
  or
  alt
    give()
relation 7 rml.list_nth() -> 0
  or
  alt
    give()
relation 8 rml.list_delete() -> 0
  or
  alt
    give()
relation 9 rml.list_turn() -> 0
  or
  alt
    give()
";

const HELLO_CLAUSES: &str = r#"relation 10 m.main(v0) -> 0
  or
  alt
    match v0 _
    set v1 "hi\n"
    builtin print(v1) => ()
    give()
"#;

// a relation without parameters, and results that are set
const FIRST_ANSWER_CLAUSES: &str = r#"relation 10 m.main(v0) -> 0
  or
  alt
    match v0 _
    call m.main() => (v2)
    match v2 v1
    set v3 2
    equal v1 v3
    give()
relation 11 m.main() -> 1
  or
  alt
    set v0 1
    give(v0)
  alt
    set v0 2
    give(v0)
"#;

const FAILURE_CLAUSES: &str = r#"relation 10 m.main(v0) -> 0
  or
  alt
    match v0 _
    set v1 "a"
    builtin print(v1) => ()
    set v2 2
    set v3 1
    builtin int_lt(v2, v3) => (v4)
    match v4 rml.true
    give()
"#;

// each rule begins its numbers anew
const UNDONE_SETTINGS_CLAUSES: &str = r#"relation 10 m.main(v0) -> 0
  or
  alt
    match v0 _
    builtin lvar_new() => (v2)
    match v2 v1
    call m.main(v1) => ()
    give()
relation 11 m.main(v0) -> 0
  or
  alt
    match v0 v1
    set v2 1
    builtin lvar_set(v1, v2) => ()
    set v3 "a"
    builtin print(v3) => ()
    set v4 2
    set v5 1
    builtin int_lt(v4, v5) => (v6)
    match v6 rml.true
    give()
  alt
    match v0 v1
    builtin lvar_get(v1) => (v2)
    match v2 rml.NONE
    set v3 "b"
    builtin print(v3) => ()
    give()
"#;

// the block of a `not` gives nothing, and goals in brackets are premises in order
const NOT_CLAUSES: &str = r#"relation 10 m.main(v0) -> 0
  or
  alt
    match v0 _
    builtin lvar_new() => (v2)
    match v2 v1
    not
      call m.main(v1) => ()
      set v3 2
      set v4 1
      builtin int_lt(v3, v4) => (v5)
      match v5 rml.true
      give()
    builtin lvar_get(v1) => (v6)
    match v6 rml.NONE
    set v7 "b"
    builtin print(v7) => ()
    give()
relation 11 m.main(v0) -> 0
  or
  alt
    match v0 v1
    set v2 1
    builtin lvar_set(v1, v2) => ()
    set v3 "a"
    builtin print(v3) => ()
    give()
"#;

// an expression that is a variable is not set
const EVALUATOR_CLAUSES: &str = r#"relation 10 m.main(v0) -> 1
  or
  alt
    match v0 _
    set v3 m.MUL(m.INT(6), m.ADD(m.INT(3), m.INT(4)))
    call m.main(v3) => (v4)
    match v4 v1
    builtin int_string(v1) => (v5)
    match v5 v2
    builtin print(v2) => ()
    set v6 "\n"
    builtin print(v6) => ()
    give(v1)
relation 11 m.main(v0) -> 1
  or
  alt
    match v0 m.INT(v1)
    give(v1)
  alt
    match v0 m.ADD(v1, v2)
    call m.main(v1) => (v6)
    match v6 v3
    call m.main(v2) => (v7)
    match v7 v4
    builtin int_add(v3, v4) => (v8)
    match v8 v5
    give(v5)
  alt
    match v0 m.SUB(v1, v2)
    call m.main(v1) => (v6)
    match v6 v3
    call m.main(v2) => (v7)
    match v7 v4
    builtin int_sub(v3, v4) => (v8)
    match v8 v5
    give(v5)
  alt
    match v0 m.MUL(v1, v2)
    call m.main(v1) => (v6)
    match v6 v3
    call m.main(v2) => (v7)
    match v7 v4
    builtin int_mul(v3, v4) => (v8)
    match v8 v5
    give(v5)
  alt
    match v0 m.DIV(v1, v2)
    call m.main(v1) => (v6)
    match v6 v3
    call m.main(v2) => (v7)
    match v7 v4
    builtin int_div(v3, v4) => (v8)
    match v8 v5
    give(v5)
"#;

// a `let` has no statement of its own
const BY_A_VARIABLE_CLAUSES: &str = r#"relation 10 m.main(v0) -> 1
  or
  alt
    match v0 _
    set v3 m.main
    match v3 v1
    set v4 4
    call *v1(v4) => (v5)
    match v5 v2
    give(v2)
relation 11 m.main(v0) -> 1
  or
  alt
    match v0 v1
    set v2 "a"
    builtin print(v2) => ()
    give(v1)
"#;

// a val that is called is set behind the arguments
const BY_A_VAL_CLAUSES: &str = r#"relation 10 m.main(v0) -> 0
  or
  alt
    match v0 _ :: _
    set v1 "a"
    builtin print(v1) => ()
    give()
  alt
    match v0 _
    set v1 ["x"]
    set v2 m.q
    call *v2(v1) => ()
    set v3 "b"
    builtin print(v3) => ()
    give()
"#;

const LISTS_CLAUSES: &str = r#"relation 10 m.main(v0) -> 1
  or
  alt
    match v0 _
    set v2 [4, 6]
    call m.main(v2) => (v3)
    match v3 v1
    give(v1)
relation 11 m.main(v0) -> 1
  or
  alt
    match v0 [_]
    set v1 1
    give(v1)
  alt
    match v0 [_, _, _]
    set v1 3
    give(v1)
  alt
    match v0 v1 as [v2, v3]
    set v5 [4, 6]
    equal v1 v5
    builtin int_sub(v3, v2) => (v6)
    match v6 v4
    give(v4)
"#;

/// A program, whether it gives an integer, and its own relations in clause form.
const CLAUSES: [(&[&[Part]], bool, &str); 9] = [
    (HELLO, false, HELLO_CLAUSES),
    (FIRST_ANSWER, false, FIRST_ANSWER_CLAUSES),
    (FAILURE, false, FAILURE_CLAUSES),
    (UNDONE_SETTINGS, false, UNDONE_SETTINGS_CLAUSES),
    (NOT, false, NOT_CLAUSES),
    (EVALUATOR, true, EVALUATOR_CLAUSES),
    (BY_A_VARIABLE, true, BY_A_VARIABLE_CLAUSES),
    (BY_A_VAL, false, BY_A_VAL_CLAUSES),
    (LISTS, true, LISTS_CLAUSES),
];

fn text_of(alloc: Global, program: &Program) -> Result<Vec<u8>, Memory>
    requires { IsTrue (counts_agree program.now) }
{
    let tables = tables_of(alloc, program)?;
    print_parts(alloc, &tables)
}

#[test]
fn programs_have_the_clauses_of_their_rules(rt: HostRuntime) -> Result<(), Fail> {
    let alloc = rt.alloc();
    for (spelled, gives, own) in CLAUSES {
        let program = program(alloc, spelled, gives)?;
        assert!(rt; do_counts_agree(&program));
        let text = text_of(alloc, &program)?;
        let mut expected = Vec::from_slice(alloc, BEFORE.as_bytes())?;
        expected.extend_from_slice(own.as_bytes())?;
        assert_eq!(rt; text.as_slice(), expected.as_slice());
    }
    Ok(())
}

/// Programs in which a head or a call has too few patterns or too many.
const UNLIKE: [&[&[Part]]; 4] = [
    FEWER_PATTERNS,
    MORE_PATTERNS,
    RESULT_WITHOUT_PATTERN,
    PATTERN_WITHOUT_RESULT,
];

#[test]
fn counts_that_do_not_agree_are_told(rt: HostRuntime) -> Result<(), Fail> {
    let alloc = rt.alloc();
    for spelled in UNLIKE {
        let program = program(alloc, spelled, false)?;
        assert!(rt; !do_counts_agree(&program));
    }
    Ok(())
}
