//! Small programs, spelled out relation by relation; the first is `main`.

use crate::sample::{A, ADD, B, DIV, HI, INT_TREE, LINE_END, MAIN, MUL, SUB, X};
use crate::spelled::Part::{
    self, All, Any, As, Call, Case, Chain, Equal, Get, Head, Int, Let, ListOf, Listed, Not, PairOf,
    Rel, Relation, Rule, Set, Text, Tree, Val,
};
use rml_resolved::Callee;
use rml_value::{NONE, TRUE};

// the relations after `main`, what the first variable of a rule and the vals hold, and some built-ins
const F: Part = Call(Callee::Rel(MAIN + 1));

const G: Part = Call(Callee::Rel(MAIN + 2));

const FIRST_VARIABLE: Part = Call(Callee::Var(0));

const THREE: Part = Call(Callee::Val(0));

const MAIN_BY_A_VAL: Part = Call(Callee::Val(1));

const INT_ADD: Part = Call(Callee::Built(0));

const INT_SUB: Part = Call(Callee::Built(1));

const INT_MUL: Part = Call(Callee::Built(2));

const INT_DIV: Part = Call(Callee::Built(3));

const INT_LT: Part = Call(Callee::Built(9));

const INT_GE: Part = Call(Callee::Built(12));

const INT_STRING: Part = Call(Callee::Built(15));

const STRING_APPEND: Part = Call(Callee::Built(21));

const STRING_LIST: Part = Call(Callee::Built(22));

const LIST_STRING: Part = Call(Callee::Built(23));

const LVAR_NEW: Part = Call(Callee::Built(24));

const LVAR_GET: Part = Call(Callee::Built(25));

const LVAR_SET: Part = Call(Callee::Built(26));

const PRINT: Part = Call(Callee::Built(27));

const LIST_VECTOR: Part = Call(Callee::Built(28));

const VECTOR_LIST: Part = Call(Callee::Built(29));

const VECTOR_LENGTH: Part = Call(Callee::Built(30));

const VECTOR_NTH: Part = Call(Callee::Built(31));

/// `main` prints `hi` and a line end.
pub const HELLO: &[&[Part]] = &[&[Any, Head], &[Text(HI), PRINT], &[Rule, Relation]];

/// `f` gives 1, and then 2; `main` asks for 2.
pub const FIRST_ANSWER: &[&[Part]] = &[
    &[Any, Head],
    &[Set(0), F],
    &[Get(0), Int(2), Equal],
    &[Rule, Relation],
    &[Head],
    &[Int(1), Rule],
    &[Head],
    &[Int(2), Rule, Relation],
];

/// `main` prints and fails: 2 is not below 1.
pub const FAILURE: &[&[Part]] = &[
    &[Any, Head],
    &[Text(A), PRINT],
    &[Int(2), Int(1), Case(TRUE, 0), INT_LT],
    &[Rule, Relation],
];

/// `f` calls itself.
pub const WITHOUT_END: &[&[Part]] = &[
    &[Any, Head],
    &[Set(0), Int(0), Let],
    &[Get(0), F],
    &[Rule, Relation],
    &[Set(0), Head],
    &[Get(0), F],
    &[Rule, Relation],
];

/// `f` sets its argument, prints and fails in its first rule, and prints in the second where the argument is unset. `true` and
/// `NONE` are written by their numbers.
pub const UNDONE_SETTINGS: &[&[Part]] = &[
    &[Any, Head],
    &[Set(0), LVAR_NEW],
    &[Get(0), F],
    &[Rule, Relation],
    &[Set(0), Head],
    &[Get(0), Int(1), LVAR_SET],
    &[Text(A), PRINT],
    &[Int(2), Int(1), Case(3, 0), INT_LT],
    &[Rule],
    &[Set(0), Head],
    &[Get(0), Case(4, 0), LVAR_GET],
    &[Text(B), PRINT],
    &[Rule, Relation],
];

/// `f` sets its argument and prints, inside a `not` that succeeds; the argument is unset behind it.
pub const NOT: &[&[Part]] = &[
    &[Any, Head],
    &[Set(0), LVAR_NEW],
    &[Get(0), F],
    &[Int(2), Int(1), Case(TRUE, 0), INT_LT],
    &[All(2), Not],
    &[Get(0), Case(NONE, 0), LVAR_GET],
    &[Text(B), PRINT],
    &[Rule, Relation],
    &[Set(0), Head],
    &[Get(0), Int(1), LVAR_SET],
    &[Text(A), PRINT],
    &[Rule, Relation],
];

/// The same with a `not` of a `not` of the call.
pub const NOT_NOT: &[&[Part]] = &[
    &[Any, Head],
    &[Set(0), LVAR_NEW],
    &[Get(0), F, Not, Not],
    &[Get(0), Case(NONE, 0), LVAR_GET],
    &[Text(B), PRINT],
    &[Rule, Relation],
    &[Set(0), Head],
    &[Get(0), Int(1), LVAR_SET],
    &[Text(A), PRINT],
    &[Rule, Relation],
];

/// `main` asks `f` for 5; `f` calls `g` in each of its two rules, and the first fails; `g` prints and gives its argument. The truth
/// value is written by its number.
pub const PRINTING_PREMISE: &[&[Part]] = &[
    &[Any, Head],
    &[Int(5), Set(0), F],
    &[Get(0), Rule, Relation],
    &[Set(0), Head],
    &[Get(0), Set(1), G],
    &[Get(1), Int(0), Case(3, 0), INT_LT],
    &[Get(1), Rule],
    &[Set(0), Head],
    &[Get(0), Set(1), G],
    &[Get(1), Int(0), Case(3, 0), INT_GE],
    &[Get(1), Rule, Relation],
    &[Set(0), Head],
    &[Text(X), PRINT],
    &[Get(0), Rule, Relation],
];

/// `main` evaluates 6 * (3 + 4) by `f`, prints the number and a line end, and gives it.
pub const EVALUATOR: &[&[Part]] = &[
    &[Any, Head],
    &[
        Int(6),
        Tree(INT_TREE, 1),
        Int(3),
        Tree(INT_TREE, 1),
        Int(4),
        Tree(INT_TREE, 1),
        Tree(ADD, 2),
        Tree(MUL, 2),
        Set(0),
        F,
    ],
    &[Get(0), Set(1), INT_STRING],
    &[Get(1), PRINT],
    &[Text(LINE_END), PRINT],
    &[Get(0), Rule, Relation],
    &[Set(0), Case(INT_TREE, 1), Head],
    &[Get(0), Rule],
    &[Set(0), Set(1), Case(ADD, 2), Head],
    &[Get(0), Set(2), F],
    &[Get(1), Set(3), F],
    &[Get(2), Get(3), Set(4), INT_ADD],
    &[Get(4), Rule],
    &[Set(0), Set(1), Case(SUB, 2), Head],
    &[Get(0), Set(2), F],
    &[Get(1), Set(3), F],
    &[Get(2), Get(3), Set(4), INT_SUB],
    &[Get(4), Rule],
    &[Set(0), Set(1), Case(MUL, 2), Head],
    &[Get(0), Set(2), F],
    &[Get(1), Set(3), F],
    &[Get(2), Get(3), Set(4), INT_MUL],
    &[Get(4), Rule],
    &[Set(0), Set(1), Case(DIV, 2), Head],
    &[Get(0), Set(2), F],
    &[Get(1), Set(3), F],
    &[Get(2), Get(3), Set(4), INT_DIV],
    &[Get(4), Rule, Relation],
];

/// The same with 1 / 0, for which no rule is left.
pub const NO_RULE_LEFT: &[&[Part]] = &[
    &[Any, Head],
    &[
        Int(1),
        Tree(INT_TREE, 1),
        Int(0),
        Tree(INT_TREE, 1),
        Tree(DIV, 2),
        Set(0),
        F,
    ],
    &[Text(A), PRINT],
    &[Get(0), Rule, Relation],
    &[Set(0), Case(INT_TREE, 1), Head],
    &[Get(0), Rule],
    &[Set(0), Set(1), Case(DIV, 2), Head],
    &[Get(0), Set(2), F],
    &[Get(1), Set(3), F],
    &[Get(2), Get(3), Set(4), INT_DIV],
    &[Get(4), Rule, Relation],
];

/// A text of nine bytes that two joins make, its characters, and the text of these, which is printed.
pub const TEXTS: &[&[Part]] = &[
    &[Any, Head],
    &[Text(HI), Text(HI), Set(0), STRING_APPEND],
    &[Get(0), Text(HI), Set(1), STRING_APPEND],
    &[Get(1), Set(2), STRING_LIST],
    &[Get(2), Set(3), LIST_STRING],
    &[Get(3), PRINT],
    &[Rule, Relation],
];

/// The item at 2 of a vector of 4, 5 and 6, and its length added.
pub const VECTOR: &[&[Part]] = &[
    &[Any, Head],
    &[Int(4), Int(5), Int(6), ListOf(3), Set(0), LIST_VECTOR],
    &[Get(0), Int(2), Set(1), VECTOR_NTH],
    &[Get(0), Set(2), VECTOR_LENGTH],
    &[Get(1), Get(2), Set(3), INT_ADD],
    &[Get(3), Rule, Relation],
];

/// The item at 3, which is outside.
pub const OUTSIDE: &[&[Part]] = &[
    &[Any, Head],
    &[Int(4), Int(5), Int(6), ListOf(3), Set(0), LIST_VECTOR],
    &[Get(0), Int(3), Set(1), VECTOR_NTH],
    &[Get(1), Rule, Relation],
];

/// Two vectors of a list are equal, and the list of one is that list, written by the numbers of `[]` and `::`.
pub const VECTOR_EQUALITY: &[&[Part]] = &[
    &[Any, Head],
    &[Int(1), ListOf(1), Set(0), LIST_VECTOR],
    &[Int(1), ListOf(1), Set(1), LIST_VECTOR],
    &[Get(0), Get(1), Equal],
    &[Get(0), Set(2), VECTOR_LIST],
    &[Get(2), Int(1), Tree(0, 0), Tree(1, 2), Equal],
    &[Rule, Relation],
];

/// `main` gives a val, which is 3.
pub const A_VAL: &[&[Part]] = &[&[Any, Head], &[Val(0), Rule, Relation]];

/// A tuple against an integer has no meaning, so typing refuses this; no further rule is tried.
pub const NO_MEANING: &[&[Part]] = &[
    &[Any, Head],
    &[Text(A), PRINT],
    &[Any, Any, PairOf, Int(1), Let],
    &[Text(B), PRINT],
    &[Rule],
    &[Any, Head],
    &[Rule, Relation],
];

/// `main` prints its one argument and gives 7.
pub const ARGUMENTS: &[&[Part]] = &[
    &[Set(0), Listed(0), Chain(2), Head],
    &[Get(0), PRINT],
    &[Int(7), Rule, Relation],
];

/// `f` prints the texts of a list, one after the other; `main` calls it with its arguments.
pub const ECHO: &[&[Part]] = &[
    &[Set(0), Head],
    &[Get(0), F],
    &[Rule, Relation],
    &[Listed(0), Head],
    &[Rule],
    &[Set(0), Set(1), Chain(2), Head],
    &[Get(0), PRINT],
    &[Get(1), F],
    &[Rule, Relation],
];

/// The greatest integer and 1 have no sum, so the first rule fails; the least integer is a difference.
pub const RANGE: &[&[Part]] = &[
    &[Any, Head],
    &[Int(1_073_741_823), Int(1), Set(0), INT_ADD],
    &[Get(0), Rule],
    &[Any, Head],
    &[Int(-1_073_741_823), Int(1), Set(0), INT_SUB],
    &[Get(0), Rule, Relation],
];

/// `main` calls `f` through a variable; `f` prints and gives its argument.
pub const BY_A_VARIABLE: &[&[Part]] = &[
    &[Any, Head],
    &[Set(0), Rel(MAIN + 1), Let],
    &[Int(4), Set(1), FIRST_VARIABLE],
    &[Get(1), Rule, Relation],
    &[Set(0), Head],
    &[Text(A), PRINT],
    &[Get(0), Rule, Relation],
];

/// `f` is the relation of a built-in: its one rule calls it. `main` passes `f` and two integers to `g`, which calls what
/// it is given with the rest.
pub const BUILT_IN_AS_A_VALUE: &[&[Part]] = &[
    &[Any, Head],
    &[Rel(MAIN + 1), Int(20), Int(22), Set(0), G],
    &[Get(0), Rule, Relation],
    &[Set(0), Set(1), Head],
    &[Get(0), Get(1), Set(2), INT_ADD],
    &[Get(2), Rule, Relation],
    &[Set(0), Set(1), Set(2), Head],
    &[Get(1), Get(2), Set(3), FIRST_VARIABLE],
    &[Get(3), Rule, Relation],
];

/// `main` prints where it has an argument; where it has none, it calls itself with one through a val, and prints.
pub const BY_A_VAL: &[&[Part]] = &[
    &[Any, Any, Chain(2), Head],
    &[Text(A), PRINT],
    &[Rule],
    &[Any, Head],
    &[Text(X), ListOf(1), MAIN_BY_A_VAL],
    &[Text(B), PRINT],
    &[Rule, Relation],
];

/// `main` calls an integer through a variable; no further rule is tried.
pub const INTEGER_CALLED: &[&[Part]] = &[
    &[Any, Head],
    &[Text(A), PRINT],
    &[Set(0), Int(5), Let],
    &[FIRST_VARIABLE],
    &[Text(B), PRINT],
    &[Rule],
    &[Any, Head],
    &[Rule, Relation],
];

/// The same with the val that is 3.
pub const INTEGER_CALLED_BY_A_VAL: &[&[Part]] = &[
    &[Any, Head],
    &[Text(A), PRINT],
    &[THREE],
    &[Text(B), PRINT],
    &[Rule],
    &[Any, Head],
    &[Rule, Relation],
];

/// `f` has no pattern for its argument in its first rule; no further rule is tried, of `f` or of `main`.
pub const FEWER_PATTERNS: &[&[Part]] = &[
    &[Any, Head],
    &[Text(A), PRINT],
    &[Int(1), F],
    &[Rule],
    &[Any, Head],
    &[Rule, Relation],
    &[Head],
    &[Text(B), PRINT],
    &[Rule],
    &[Any, Head],
    &[Rule, Relation],
];

/// `f` has two patterns for its argument in its first rule, the first of which does not match.
pub const MORE_PATTERNS: &[&[Part]] = &[
    &[Any, Head],
    &[Text(A), PRINT],
    &[Int(1), ListOf(1), F],
    &[Rule],
    &[Any, Head],
    &[Rule, Relation],
    &[Listed(0), Any, Head],
    &[Text(B), PRINT],
    &[Rule],
    &[Any, Head],
    &[Rule, Relation],
];

/// `f` gives a result, and `main` has no pattern for it.
pub const RESULT_WITHOUT_PATTERN: &[&[Part]] = &[
    &[Any, Head],
    &[Text(A), PRINT],
    &[F],
    &[Text(B), PRINT],
    &[Rule],
    &[Any, Head],
    &[Rule, Relation],
    &[Head],
    &[Int(1), Rule, Relation],
];

/// `f` gives no result, and `main` has a pattern for one.
pub const PATTERN_WITHOUT_RESULT: &[&[Part]] = &[
    &[Any, Head],
    &[Text(A), PRINT],
    &[Any, F],
    &[Text(B), PRINT],
    &[Rule],
    &[Any, Head],
    &[Rule, Relation],
    &[Head],
    &[Rule, Relation],
];

/// `f` has rules for lists of one item, of three and of two; the last takes the list and its items, and gives the
/// difference of these.
pub const LISTS: &[&[Part]] = &[
    &[Any, Head],
    &[Int(4), Int(6), ListOf(2), Set(0), F],
    &[Get(0), Rule, Relation],
    &[Any, Listed(1), Head],
    &[Int(1), Rule],
    &[Any, Any, Any, Listed(3), Head],
    &[Int(3), Rule],
    &[Set(1), Set(2), Listed(2), As(0), Head],
    &[Get(0), Int(4), Int(6), ListOf(2), Equal],
    &[Get(2), Get(1), Set(3), INT_SUB],
    &[Get(3), Rule, Relation],
];
