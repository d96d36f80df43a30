//! How searches of small programs end: with which outcome, after how many steps, what they print, and what they make and weigh.
//! The numbers are counted by hand: a step for each call begun, each rule begun, each answer given and each `not` that
//! succeeds.

use crate::programs::{
    A_VAL, ARGUMENTS, BUILT_IN_AS_A_VALUE, BY_A_VAL, BY_A_VARIABLE, ECHO, EVALUATOR, FAILURE,
    FEWER_PATTERNS, FIRST_ANSWER, HELLO, INTEGER_CALLED, INTEGER_CALLED_BY_A_VAL, LISTS,
    MORE_PATTERNS, NO_MEANING, NO_RULE_LEFT, NOT, NOT_NOT, OUTSIDE, PATTERN_WITHOUT_RESULT,
    PRINTING_PREMISE, RANGE, RESULT_WITHOUT_PATTERN, TEXTS, UNDONE_SETTINGS, VECTOR,
    VECTOR_EQUALITY, WITHOUT_END,
};
use crate::sample::program;
use crate::spelled::Part;
use rml_base::laws::{light_reflexive, same_reflexive};
use rml_base::{Bytes, Outcome};
use rml_resolved::Program;
use rml_search::{Searched, search};
use std::alloc::Global;
use std::test::Fail;

/// The most steps of a search without arguments, how it ends, and what it prints.
type Ends = &'static [(u32, Outcome, &'static str)];

// main 1, its rule 2, the answer 3
const HELLO_ENDS: Ends = &[
    (0, Outcome::Cut, ""),
    (1, Outcome::Cut, ""),
    (2, Outcome::Cut, "hi\n"),
    (3, Outcome::Answer(None), "hi\n"),
    (9, Outcome::Answer(None), "hi\n"),
];

// main 1, its rule 2, f 3, its first rule 4, the answer 5
const FIRST_ANSWER_ENDS: Ends = &[
    (4, Outcome::Cut, ""),
    (5, Outcome::Failure, ""),
    (99, Outcome::Failure, ""),
];

const FAILURE_ENDS: Ends = &[(1, Outcome::Cut, ""), (2, Outcome::Failure, "a")];

const WITHOUT_END_ENDS: Ends = &[
    (0, Outcome::Cut, ""),
    (5, Outcome::Cut, ""),
    (50, Outcome::Cut, ""),
];

// main 1, its rule 2, f 3; f's first rule 4, g 5, its rule 6, its answer 7; f's second rule 8, g 9, its rule 10, its
// answer 11; the answers 12 and 13
const PRINTING_PREMISE_ENDS: Ends = &[
    (5, Outcome::Cut, ""),
    (6, Outcome::Cut, "x"),
    (9, Outcome::Cut, "x"),
    (10, Outcome::Cut, "xx"),
    (12, Outcome::Cut, "xx"),
    (13, Outcome::Answer(Some(5)), "xx"),
];

// main 1, its rules 2 and 3, the answer 4
const RANGE_ENDS: Ends = &[
    (2, Outcome::Cut, ""),
    (3, Outcome::Cut, ""),
    (4, Outcome::Answer(Some(-1_073_741_824)), ""),
];

// main 1, its rule 2, f 3, its rules 4 and 5, the answers 6 and 7
const UNDONE_SETTINGS_ENDS: Ends = &[
    (3, Outcome::Cut, ""),
    (4, Outcome::Cut, "a"),
    (5, Outcome::Cut, "ab"),
    (6, Outcome::Cut, "ab"),
    (7, Outcome::Answer(None), "ab"),
    (99, Outcome::Answer(None), "ab"),
];

// main 1, its rule 2, f 3, its rule 4, its answer 5, the `not` 6, the answer 7
const NOT_ENDS: Ends = &[
    (3, Outcome::Cut, ""),
    (4, Outcome::Cut, "a"),
    (5, Outcome::Cut, "a"),
    (6, Outcome::Cut, "ab"),
    (7, Outcome::Answer(None), "ab"),
    (99, Outcome::Answer(None), "ab"),
];

// main 1, its rule 2, f 3, its rule 4, its answer 5, the outer `not` 6, the answer 7; the inner `not` fails and takes
// no step
const NOT_NOT_ENDS: Ends = &[
    (3, Outcome::Cut, ""),
    (4, Outcome::Cut, "a"),
    (5, Outcome::Cut, "a"),
    (6, Outcome::Cut, "ab"),
    (7, Outcome::Answer(None), "ab"),
    (99, Outcome::Answer(None), "ab"),
];

// main 1, its rule 2; f of the product 3, its rules 4 to 7; f of 6 8 to 10; f of the sum 11, its rules 12 and 13; f of
// 3 14 to 16; f of 4 17 to 19; the answers 20, 21 and 22
const EVALUATOR_ENDS: Ends = &[
    (20, Outcome::Cut, ""),
    (21, Outcome::Cut, "42\n"),
    (22, Outcome::Answer(Some(42)), "42\n"),
];

// main 1, its rule 2; f of the quotient 3, its rules 4 and 5; f of 1 6 to 8; f of 0 9 to 11
const NO_RULE_LEFT_ENDS: Ends = &[
    (10, Outcome::Cut, ""),
    (11, Outcome::Failure, ""),
    (99, Outcome::Failure, ""),
];

// built-ins take no step: main 1, its rule 2, the answer 3
const VECTOR_ENDS: Ends = &[
    (2, Outcome::Cut, ""),
    (3, Outcome::Answer(Some(9)), ""),
    (99, Outcome::Answer(Some(9)), ""),
];

const OUTSIDE_ENDS: Ends = &[
    (1, Outcome::Cut, ""),
    (2, Outcome::Failure, ""),
    (99, Outcome::Failure, ""),
];

const VECTOR_EQUALITY_ENDS: Ends = &[
    (2, Outcome::Cut, ""),
    (3, Outcome::Answer(None), ""),
    (99, Outcome::Answer(None), ""),
];

const TEXTS_ENDS: Ends = &[
    (1, Outcome::Cut, ""),
    (2, Outcome::Cut, "hi\nhi\nhi\n"),
    (3, Outcome::Answer(None), "hi\nhi\nhi\n"),
];

// main 1, its rule 2, f 3, its rules 4 to 6, the answers 7 and 8
const LISTS_ENDS: Ends = &[(7, Outcome::Cut, ""), (8, Outcome::Answer(Some(2)), "")];

const A_VAL_ENDS: Ends = &[
    (2, Outcome::Cut, ""),
    (3, Outcome::Answer(Some(3)), ""),
    (99, Outcome::Answer(Some(3)), ""),
];

// main 1, its rule 2, f 3, its rule 4, the answers 5 and 6
const BY_A_VARIABLE_ENDS: Ends = &[
    (3, Outcome::Cut, ""),
    (4, Outcome::Cut, "a"),
    (5, Outcome::Cut, "a"),
    (6, Outcome::Answer(Some(4)), "a"),
];

// main 1, its rules 2 and 3, main 4, its first rule 5, the answers 6 and 7
const BY_A_VAL_ENDS: Ends = &[
    (4, Outcome::Cut, ""),
    (5, Outcome::Cut, "a"),
    (6, Outcome::Cut, "ab"),
    (7, Outcome::Answer(None), "ab"),
];

// main 1, its rule 2, g 3, its rule 4, f 5, its rule 6, the answers 7 to 9
const BUILT_IN_AS_A_VALUE_ENDS: Ends = &[
    (8, Outcome::Cut, ""),
    (9, Outcome::Answer(Some(42)), ""),
    (99, Outcome::Answer(Some(42)), ""),
];

const NO_MEANING_ENDS: Ends = &[
    (1, Outcome::Cut, ""),
    (2, Outcome::Failure, "a"),
    (99, Outcome::Failure, "a"),
];

// main 1, its first rule 2, the call 3
const INTEGER_CALLED_ENDS: Ends = &[
    (1, Outcome::Cut, ""),
    (2, Outcome::Cut, "a"),
    (3, Outcome::Failure, "a"),
    (99, Outcome::Failure, "a"),
];

const INTEGER_CALLED_BY_A_VAL_ENDS: Ends = &[
    (2, Outcome::Cut, "a"),
    (3, Outcome::Failure, "a"),
    (99, Outcome::Failure, "a"),
];

// main 1, its first rule 2, f 3, its first rule 4
const FEWER_PATTERNS_ENDS: Ends = &[
    (3, Outcome::Cut, "a"),
    (4, Outcome::Failure, "a"),
    (99, Outcome::Failure, "a"),
];

const MORE_PATTERNS_ENDS: Ends = &[
    (3, Outcome::Cut, "a"),
    (4, Outcome::Failure, "a"),
    (99, Outcome::Failure, "a"),
];

// main 1, its first rule 2, f 3, its rule 4, its answer 5
const RESULT_WITHOUT_PATTERN_ENDS: Ends = &[
    (4, Outcome::Cut, "a"),
    (5, Outcome::Failure, "a"),
    (99, Outcome::Failure, "a"),
];

const PATTERN_WITHOUT_RESULT_ENDS: Ends = &[
    (4, Outcome::Cut, "a"),
    (5, Outcome::Failure, "a"),
    (99, Outcome::Failure, "a"),
];

/// At how many steps a search of a program first ends otherwise, or prints something else.
fn differs_at(
    alloc: Global,
    spelled: &[&[Part]],
    gives: bool,
    ends: Ends,
) -> Result<Option<u32>, Fail> {
    let program = program(alloc, spelled, gives)?;
    for (n, outcome, text) in ends {
        let ended = search(alloc, &program, &[], *n)?;
        if ended.outcome != *outcome || ended.text.as_slice() != text.as_bytes() {
            return Ok(Some(*n));
        }
    }
    Ok(None)
}

/// Programs whose rules and calls follow one another, each with whether its `main` gives an integer.
const RULES: [(&[&[Part]], bool, Ends); 6] = [
    (HELLO, false, HELLO_ENDS),
    (FIRST_ANSWER, false, FIRST_ANSWER_ENDS),
    (FAILURE, false, FAILURE_ENDS),
    (WITHOUT_END, false, WITHOUT_END_ENDS),
    (PRINTING_PREMISE, true, PRINTING_PREMISE_ENDS),
    (RANGE, true, RANGE_ENDS),
];

#[test]
fn rules_are_tried_from_top_to_bottom(rt: HostRuntime) -> Result<(), Fail> {
    let alloc = rt.alloc();
    for (i, (spelled, gives, ends)) in RULES.iter().enumerate() {
        assert_eq!(rt; differs_at(alloc, spelled, *gives, *ends)?, None, "row {i}");
    }
    Ok(())
}

/// Programs that go back to an earlier setting.
const SETTINGS: [(&[&[Part]], bool, Ends); 3] = [
    (UNDONE_SETTINGS, false, UNDONE_SETTINGS_ENDS),
    (NOT, false, NOT_ENDS),
    (NOT_NOT, false, NOT_NOT_ENDS),
];

#[test]
fn settings_are_undone(rt: HostRuntime) -> Result<(), Fail> {
    let alloc = rt.alloc();
    for (i, (spelled, gives, ends)) in SETTINGS.iter().enumerate() {
        assert_eq!(rt; differs_at(alloc, spelled, *gives, *ends)?, None, "row {i}");
    }
    Ok(())
}

/// Programs over trees.
const TREES: [(&[&[Part]], bool, Ends); 2] = [
    (EVALUATOR, true, EVALUATOR_ENDS),
    (NO_RULE_LEFT, true, NO_RULE_LEFT_ENDS),
];

#[test]
fn evaluators_end_as_counted(rt: HostRuntime) -> Result<(), Fail> {
    let alloc = rt.alloc();
    for (i, (spelled, gives, ends)) in TREES.iter().enumerate() {
        assert_eq!(rt; differs_at(alloc, spelled, *gives, *ends)?, None, "row {i}");
    }
    Ok(())
}

/// Programs over texts, vectors, lists and vals, and calls of values.
const VALUES: [(&[&[Part]], bool, Ends); 9] = [
    (TEXTS, false, TEXTS_ENDS),
    (VECTOR, true, VECTOR_ENDS),
    (OUTSIDE, true, OUTSIDE_ENDS),
    (VECTOR_EQUALITY, false, VECTOR_EQUALITY_ENDS),
    (LISTS, true, LISTS_ENDS),
    (A_VAL, true, A_VAL_ENDS),
    (BY_A_VARIABLE, true, BY_A_VARIABLE_ENDS),
    (BY_A_VAL, false, BY_A_VAL_ENDS),
    (BUILT_IN_AS_A_VALUE, true, BUILT_IN_AS_A_VALUE_ENDS),
];

#[test]
fn values_take_no_step(rt: HostRuntime) -> Result<(), Fail> {
    let alloc = rt.alloc();
    for (i, (spelled, gives, ends)) in VALUES.iter().enumerate() {
        assert_eq!(rt; differs_at(alloc, spelled, *gives, *ends)?, None, "row {i}");
    }
    Ok(())
}

/// Programs that typing refuses.
const UNTYPED: [(&[&[Part]], bool, Ends); 7] = [
    (NO_MEANING, false, NO_MEANING_ENDS),
    (INTEGER_CALLED, false, INTEGER_CALLED_ENDS),
    (INTEGER_CALLED_BY_A_VAL, false, INTEGER_CALLED_BY_A_VAL_ENDS),
    (FEWER_PATTERNS, false, FEWER_PATTERNS_ENDS),
    (MORE_PATTERNS, false, MORE_PATTERNS_ENDS),
    (RESULT_WITHOUT_PATTERN, false, RESULT_WITHOUT_PATTERN_ENDS),
    (PATTERN_WITHOUT_RESULT, false, PATTERN_WITHOUT_RESULT_ENDS),
];

#[test]
fn what_has_no_meaning_ends_a_search(rt: HostRuntime) -> Result<(), Fail> {
    let alloc = rt.alloc();
    for (i, (spelled, gives, ends)) in UNTYPED.iter().enumerate() {
        assert_eq!(rt; differs_at(alloc, spelled, *gives, *ends)?, None, "row {i}");
    }
    Ok(())
}

/// What a step weighs: 16 for each of the 40 tokens of the longest rule, and 64.
const STEP: u64 = 704;

/// A program, whether its `main` gives an integer, the most steps, the cells that its built-ins make, and what its steps weigh.
const COSTS: [(&[&[Part]], bool, u32, u64, u64); 11] = [
    (HELLO, false, 0, 0, 0),
    (HELLO, false, 99, 0, 3 * STEP),
    // what fails and what has no meaning weigh the steps that they took
    (FAILURE, false, 99, 0, 2 * STEP),
    (NO_MEANING, false, 99, 0, 2 * STEP),
    (WITHOUT_END, false, 50, 0, 50 * STEP),
    // a text of two bytes, made behind the 21st step
    (EVALUATOR, true, 20, 0, 20 * STEP),
    (EVALUATOR, true, 99, 2, 22 * STEP),
    // a vector of three items, also where the rule fails behind it
    (VECTOR, true, 99, 4, 3 * STEP),
    (OUTSIDE, true, 99, 4, 2 * STEP),
    // two vectors of one item, and the list of one
    (VECTOR_EQUALITY, false, 99, 7, 3 * STEP),
    // texts of six and nine bytes, a list of nine characters, and a text of nine bytes
    (TEXTS, false, 99, 35, 3 * STEP),
];

#[test]
fn searches_make_and_weigh_as_counted(rt: HostRuntime) -> Result<(), Fail> {
    let alloc = rt.alloc();
    for (i, (spelled, gives, most, made, weighed)) in COSTS.iter().enumerate() {
        let program = program(alloc, spelled, *gives)?;
        let ended = search(alloc, &program, &[], *most)?;
        assert_eq!(rt; ended.made, *made, "row {i}");
        assert_eq!(rt; ended.weighed, *weighed, "row {i}");
    }
    Ok(())
}

/// A program, whether its `main` gives an integer, the arguments, the most steps, how its search ends, and what it prints.
const ROWS_OF_ARGUMENTS: [(&[&[Part]], bool, &[&str], u32, Outcome, &str); 16] = [
    // main 1, its rule 2, the answer 3
    (ARGUMENTS, true, &["bc"], 1, Outcome::Cut, ""),
    (ARGUMENTS, true, &["bc"], 2, Outcome::Cut, "bc"),
    (ARGUMENTS, true, &["bc"], 3, Outcome::Answer(Some(7)), "bc"),
    (ARGUMENTS, true, &["bc"], 99, Outcome::Answer(Some(7)), "bc"),
    (ARGUMENTS, true, &[], 1, Outcome::Cut, ""),
    (ARGUMENTS, true, &[], 2, Outcome::Failure, ""),
    (ARGUMENTS, true, &["b", "c"], 1, Outcome::Cut, ""),
    (ARGUMENTS, true, &["b", "c"], 2, Outcome::Failure, ""),
    // main 1, its rule 2; f 3, its rules 4 and 5; f 6, its rules 7 and 8; f 9, its first rule 10; the answers 11 to 14
    (ECHO, false, &["a", "bc"], 4, Outcome::Cut, ""),
    (ECHO, false, &["a", "bc"], 5, Outcome::Cut, "a"),
    (ECHO, false, &["a", "bc"], 7, Outcome::Cut, "a"),
    (ECHO, false, &["a", "bc"], 8, Outcome::Cut, "abc"),
    (ECHO, false, &["a", "bc"], 13, Outcome::Cut, "abc"),
    (ECHO, false, &["a", "bc"], 14, Outcome::Answer(None), "abc"),
    // main 1, its rule 2, f 3, its first rule 4, the answers 5 and 6
    (ECHO, false, &[], 5, Outcome::Cut, ""),
    (ECHO, false, &[], 6, Outcome::Answer(None), ""),
];

#[test]
fn arguments_are_a_list_of_texts(rt: HostRuntime) -> Result<(), Fail> {
    let alloc = rt.alloc();
    for (i, (spelled, gives, words, n, outcome, text)) in ROWS_OF_ARGUMENTS.iter().enumerate() {
        let program = program(alloc, spelled, *gives)?;
        let mut args = Vec::new(alloc);
        for word in *words {
            args.push(Bytes::of(Vec::from_slice(alloc, word.as_bytes())?))?;
        }
        let ended = search(alloc, &program, &args, *n)?;
        assert_eq!(rt; ended.outcome, *outcome, "row {i}");
        assert_eq!(rt; ended.text.as_slice(), text.as_bytes(), "row {i}");
    }
    Ok(())
}

/// A program has runs: the laws of the base apply to it.
#[test]
fn a_program_has_runs(rt: HostRuntime) -> Result<(), Fail> {
    let alloc = rt.alloc();
    let program = program(alloc, HELLO, false)?;
    let searched = Searched { program };
    same_reflexive(&searched);
    light_reflexive(&searched);
    Ok(())
}
