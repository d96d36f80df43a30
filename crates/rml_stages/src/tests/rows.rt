//! Whole texts, of which each shows one thing.

/// Prints a line.
pub const HELLO: &str = "module m:
  relation main: string list => ()
end
relation main: string list => () =
  rule print \"hi\\n\"
       --
       main(_)
end
";

/// An evaluator of expressions.
pub const EVALUATOR: &str = "module m:
  datatype exp = INT of int | ADD of exp * exp | SUB of exp * exp | MUL of exp * exp | DIV of exp * exp
  relation eval: exp => int
  relation main: string list => int
end
relation eval =
  axiom eval(INT(i)) => i
  rule eval(x) => a & eval(y) => b & int_add(a, b) => c
       ----------
       eval(ADD(x, y)) => c
  rule eval(x) => a & eval(y) => b & int_sub(a, b) => c
       ----------
       eval(SUB(x, y)) => c
  rule eval(x) => a & eval(y) => b & int_mul(a, b) => c
       ----------
       eval(MUL(x, y)) => c
  rule eval(x) => a & eval(y) => b & int_div(a, b) => c
       ----------
       eval(DIV(x, y)) => c
end
relation main: string list => int =
  rule eval(MUL(INT 6, ADD(INT 3, INT 4))) => v & int_string(v) => s & print(s) & print \"\\n\"
       ----------
       main(_) => v
end
";

/// A sum out of range.
pub const RANGE: &str = "module m:
  relation main: string list => int
end
relation main: string list => int =
  rule int_add(1073741823, 1) => v
       --
       main(_) => v
end
";

/// The least integer.
pub const LEAST: &str = "module m:
  relation main: string list => int
end
relation main: string list => int =
  rule int_sub(-1073741823, 1) => v
       --
       main(_) => v
end
";

/// A setting that a failed rule undoes.
pub const UNDONE_SETTINGS: &str = "module m:
  relation main: string list => ()
end
relation f: int lvar => () =
  rule lvar_set(x, 1) & print \"a\" & int_lt(2, 1) => true
       --
       f(x)
  rule lvar_get(x) => NONE & print \"b\"
       --
       f(x)
end
relation main: string list => () =
  rule lvar_new() => x & f(x)
       --
       main(_)
end
";

/// What a `not` undoes.
pub const NOT: &str = "module m:
  relation main: string list => ()
end
relation f: int lvar => () =
  rule lvar_set(x, 1) & print \"a\"
       --
       f(x)
end
relation main: string list => () =
  rule lvar_new() => x & not (f(x) & int_lt(2, 1) => true) & lvar_get(x) => NONE & print \"b\"
       --
       main(_)
end
";

/// A `not` in a `not`.
pub const NOT_NOT: &str = "module m:
  relation main: string list => ()
end
relation f: int lvar => () =
  rule lvar_set(x, 1) & print \"a\"
       --
       f(x)
end
relation main: string list => () =
  rule lvar_new() => x & not (not f(x)) & lvar_get(x) => NONE & print \"b\"
       --
       main(_)
end
";

/// A common premise that prints.
pub const PRINTING_PREMISE: &str = "module m:
  relation main: string list => int
end
relation p: int => int =
  rule print \"x\"
       --
       p(i) => i
end
relation q: int => int =
  rule p(i) => j & int_lt(j, 0) => true
       --
       q(i) => j
  rule p(i) => j & int_ge(j, 0) => true
       --
       q(i) => j
end
relation main: string list => int =
  rule q(5) => v
       --
       main(_) => v
end
";

/// A common premise that is silent.
pub const SILENT_PREMISE: &str = "module m:
  relation main: string list => int
end
relation p: int => int =
  axiom p(i) => i
end
relation q: int => int =
  rule p(i) => j & int_lt(j, 0) => true
       --
       q(i) => j
  rule p(i) => j & int_ge(j, 0) => true
       --
       q(i) => j
end
relation main: string list => int =
  rule q(5) => v
       --
       main(_) => v
end
";

/// A choice by a truth value.
pub const IF: &str = "module m:
  relation main: string list => int
end
relation neg: int => bool =
  rule int_lt(i, 0) => b
       --
       neg(i) => b
end
relation sign: int => int =
  rule neg(i) => true
       --
       sign(i) => -1
  rule neg(i) => false
       --
       sign(i) => 1
end
relation main: string list => int =
  rule sign(-7) => v
       --
       main(_) => v
end
";

/// A call gives its first answer.
pub const FIRST_ANSWER: &str = "module m:
  relation main: string list => ()
end
relation two: () => int =
  axiom two() => 1
  axiom two() => 2
end
relation main: string list => () =
  rule two() => x & x = 2
       --
       main(_)
end
";

/// It goes on forever.
pub const GOING_ON: &str = "module m:
  relation main: string list => ()
end
relation loop: int => () =
  rule loop(i)
       --
       loop(i)
end
relation main: string list => () =
  rule loop(0)
       --
       main(_)
end
";

/// Lists of many cells.
pub const CELLS: &str = "module m:
  relation main: string list => int
end
relation up: int => int list =
  axiom up(0) => []
  rule int_sub(n, 1) => m & up(m) => r
       --
       up(n) => n :: r
end
relation main: string list => int =
  rule up(100) => l & list_length(l) => k
       --
       main(_) => k
end
";

/// The greatest integer.
pub const LITERALS: &str = "module m:
  relation main: string list => int
end
relation main: string list => int =
  axiom main(_) => 1073741823
end
";

/// The first of two texts that name each other.
pub const LEAST_PLACE_A: &str = "module a:
  with \"b.rml\"
  relation main: string list => ()
end
relation f: (int, int) => () =
  axiom f(x, x)
end
relation main: string list => () =
  axiom main(_)
end
";

/// The second of them.
pub const LEAST_PLACE_B: &str = "module b:
  with \"a.rml\"
end
";

/// Pairs of pairs, thirty deep.
pub const TYPES: &str = "module m:
  relation main: string list => ()
end
relation main: string list => () =
  rule let p1 = (0, 0) & let p2 = (p1, p1) & let p3 = (p2, p2) & let p4 = (p3, p3) & let p5 = (p4, p4) & let p6 = (p5, p5) & let p7 = (p6, p6) & let p8 = (p7, p7) & let p9 = (p8, p8) & let p10 = (p9, p9) & let p11 = (p10, p10) & let p12 = (p11, p11) & let p13 = (p12, p12) & let p14 = (p13, p13) & let p15 = (p14, p14) & let p16 = (p15, p15) & let p17 = (p16, p16) & let p18 = (p17, p17) & let p19 = (p18, p18) & let p20 = (p19, p19) & let p21 = (p20, p20) & let p22 = (p21, p21) & let p23 = (p22, p22) & let p24 = (p23, p23) & let p25 = (p24, p24) & let p26 = (p25, p25) & let p27 = (p26, p26) & let p28 = (p27, p27) & let p29 = (p28, p28) & let p30 = (p29, p29)
       --
       main(_)
end
";

/// A type that would contain itself.
pub const CYCLIC_TYPE: &str = "module m:
  relation main: string list => ()
end
relation main: string list => () =
  rule lvar_new() => l & lvar_get(l) => SOME(x) & x = (x, x)
       --
       main(_)
end
";

/// One relation at two types.
pub const POLYMORPHIC: &str = "module m:
  relation main: string list => ()
end
relation id: 'a => 'a =
  axiom id(x) => x
end
relation main: string list => () =
  rule id(1) => x & id(\"s\") => t
       --
       main(_)
end
";

/// Prints its arguments.
pub const ARGUMENTS: &str = "module m:
  relation main: string list => ()
end
relation echo: string list => () =
  axiom echo([])
  rule print(s) & print \"\\n\" & echo(r)
       --
       echo(s :: r)
end
relation main: string list => () =
  rule echo(a)
       --
       main(a)
end
";

/// A relation as an argument.
pub const RELATION_VALUES: &str = "module m:
  relation main: string list => ()
end
relation map: (('a => 'b), 'a list) => 'b list =
  axiom map(_, []) => []
  rule f(x) => y & map(f, r) => s
       --
       map(f, x :: r) => y :: s
end
relation main: string list => () =
  rule map(int_neg, [1, 2]) => l & l = [-1, -2]
       --
       main(_)
end
";

/// The relations that every program has.
pub const PRELUDE: &str = "module rml:
  datatype bool = false | true
  datatype 'a option = NONE | SOME of 'a
  relation bool_and: (bool, bool) => bool
  relation bool_or: (bool, bool) => bool
  relation bool_not: bool => bool
  relation list_append: ('a list, 'a list) => 'a list
  relation list_reverse: 'a list => 'a list
  relation list_length: 'a list => int
  relation list_member: ('a, 'a list) => bool
  relation list_nth: ('a list, int) => 'a
  relation list_delete: ('a list, int) => 'a list
end
relation bool_and =
  axiom bool_and(true, true) => true
  axiom bool_and(true, false) => false
  axiom bool_and(false, _) => false
end
relation bool_or =
  axiom bool_or(false, false) => false
  axiom bool_or(false, true) => true
  axiom bool_or(true, _) => true
end
relation bool_not =
  axiom bool_not(false) => true
  axiom bool_not(true) => false
end
relation list_append =
  axiom list_append([], y) => y
  rule list_append(r, y) => z
       --
       list_append(x :: r, y) => x :: z
end
relation list_turn: ('a list, 'a list) => 'a list =
  axiom list_turn([], y) => y
  rule list_turn(r, x :: y) => z
       --
       list_turn(x :: r, y) => z
end
relation list_reverse =
  rule list_turn(x, []) => y
       --
       list_reverse(x) => y
end
relation list_length =
  axiom list_length([]) => 0
  rule list_length(r) => n & int_add(n, 1) => m
       --
       list_length(_ :: r) => m
end
relation list_member =
  axiom list_member(_, []) => false
  rule x = y
       --
       list_member(x, y :: _) => true
  rule not x = y & list_member(x, r) => b
       --
       list_member(x, y :: r) => b
end
relation list_nth =
  axiom list_nth(x :: _, 0) => x
  rule int_gt(n, 0) => true & int_sub(n, 1) => m & list_nth(r, m) => x
       --
       list_nth(_ :: r, n) => x
end
relation list_delete =
  axiom list_delete(_ :: r, 0) => r
  rule int_gt(n, 0) => true & int_sub(n, 1) => m & list_delete(r, m) => s
       --
       list_delete(x :: r, n) => x :: s
end
";

/// All of them.
pub const ALL: [&str; 22] = [
    HELLO,
    EVALUATOR,
    RANGE,
    LEAST,
    UNDONE_SETTINGS,
    NOT,
    NOT_NOT,
    PRINTING_PREMISE,
    SILENT_PREMISE,
    IF,
    FIRST_ANSWER,
    GOING_ON,
    CELLS,
    LITERALS,
    LEAST_PLACE_A,
    LEAST_PLACE_B,
    TYPES,
    CYCLIC_TYPE,
    POLYMORPHIC,
    ARGUMENTS,
    RELATION_VALUES,
    PRELUDE,
];
