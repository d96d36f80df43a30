//! Sets of some texts, each with a fault or none.

use crate::sample::{Set, found_in};
use rml_scopes::ModFault;
use std::process::Abort;
use std::test::Fail;

/// The name of each text's file, a `:`, the text, and a `%` before the next; and the fault at the `@`.
type Row = (&'static str, Option<ModFault>);

fn expect(rt: &(impl Abort + AllocGlobal), rows: &[Row]) -> Result<(), Fail> {
    for (texts, fault) in rows {
        let set = Set::of(rt.alloc(), texts)?;
        let found = found_in(rt.alloc(), &set);
        assert_eq!(rt; found, set.due(*fault), "{texts}");
    }
    Ok(())
}

/// Names of modules.
const MODULES: [Row; 3] = [
    (
        "a.rml: module a: end % b.rml: module @a: relation main: string list => () end relation main = axiom main(_) end",
        Some(ModFault::DuplicateModule),
    ),
    (
        "a.rml: module @rml: relation main: string list => () end relation main = axiom main(_) end",
        Some(ModFault::DuplicateModule),
    ),
    (
        "b.rml: module @rml: val w: int end val w = 1 % a.rml: module a: with \"b.rml\" relation main: string list => () end val v: int = rml.w relation main = axiom main(_) end",
        Some(ModFault::DuplicateModule),
    ),
];

#[test]
fn module_names_stand_once(rt: HostRuntime) -> Result<(), Fail> {
    expect(&rt, &MODULES)
}

/// Texts that `with`s name.
const WITHS: [Row; 3] = [
    (
        "x/b.rml: module b: end % a.rml: module a: with \"y/b.rml\" relation main: string list => () end relation main = axiom main(_) end",
        None,
    ),
    (
        "a.rml: module a: @with \"q.rml\" relation main: string list => () end relation main = axiom main(_) end",
        Some(ModFault::NoSuchText),
    ),
    (
        "a.rml: module a: relation main: string list => () end @with \"q.rml\" relation main = axiom main(_) end",
        Some(ModFault::NoSuchText),
    ),
];

#[test]
fn withs_name_texts(rt: HostRuntime) -> Result<(), Fail> {
    expect(&rt, &WITHS)
}

/// Interfaces on circles.
const CIRCLES: [Row; 4] = [
    (
        "a.rml: module a: @with \"a.rml\" relation main: string list => () end relation main = axiom main(_) end",
        Some(ModFault::CircularInterfaces),
    ),
    (
        "a.rml: module a: @with \"b.rml\" end % b.rml: module b: with \"a.rml\" relation main: string list => () end relation main = axiom main(_) end",
        Some(ModFault::CircularInterfaces),
    ),
    (
        "a.rml: module a: end with \"b.rml\" % b.rml: module b: with \"a.rml\" relation main: string list => () end relation main = axiom main(_) end",
        None,
    ),
    (
        "a.rml: module a: with \"b.rml\" end % b.rml: module b: @with \"c.rml\" end % c.rml: module c: with \"b.rml\" relation main: string list => () end relation main = axiom main(_) end",
        Some(ModFault::CircularInterfaces),
    ),
];

#[test]
fn interfaces_lie_on_no_circle(rt: HostRuntime) -> Result<(), Fail> {
    expect(&rt, &CIRCLES)
}

/// Names of other texts.
const OTHERS: [Row; 8] = [
    (
        "b.rml: module b: type t = int datatype d = D end datatype e = E % a.rml: module a: with \"b.rml\" val v: b.d relation main: string list => () end val v = b.D relation main = axiom main(_) end",
        None,
    ),
    (
        "b.rml: module b: end datatype e = E % a.rml: module a: with \"b.rml\" relation main: string list => () end val v: int = @b.E relation main = axiom main(_) end",
        Some(ModFault::UnknownName),
    ),
    (
        "b.rml: module b: type t = int end % a.rml: module a: val v: @b.t relation main: string list => () end with \"b.rml\" val v = 1 relation main = axiom main(_) end",
        Some(ModFault::UnknownName),
    ),
    (
        "b.rml: module b: val w: int end val w = 1 % a.rml: module a: relation main: string list => () end with \"b.rml\" val v: int = @b.w relation main = axiom main(_) end",
        Some(ModFault::UnknownName),
    ),
    (
        "b.rml: module b: val w: int end val w = 1 % a.rml: module a: with \"b.rml\" relation main: string list => () end val v: int = b.w relation main = axiom main(_) end",
        None,
    ),
    (
        "a.rml: module a: val w: int relation main: string list => () end with \"a.rml\" val v: int = @a.w val w = 1 relation main = axiom main(_) end",
        Some(ModFault::UnknownName),
    ),
    (
        "a.rml: module a: val w: int relation main: string list => () end with \"a.rml\" val w = 1 val v: int = a.w relation main = axiom main(_) end",
        None,
    ),
    (
        "a.rml: module a: with \"r.rml\" relation main: string list => () end val v: int = @rml.w relation main = axiom main(_) end % r.rml: module rml: val w: int end val w = 1",
        Some(ModFault::UnknownName),
    ),
];

#[test]
fn names_of_other_texts_are_exported(rt: HostRuntime) -> Result<(), Fail> {
    expect(&rt, &OTHERS)
}

/// Sets without a `main`, or with two.
const MAINS: [Row; 2] = [
    (
        "a.rml: module a: end % b.rml: module b: end@",
        Some(ModFault::NoMain),
    ),
    (
        "a.rml: module a: relation main: string list => () end relation main = axiom main(_) end % b.rml: module b: relation @main: string list => () end relation main = axiom main(_) end",
        Some(ModFault::NoMain),
    ),
];

#[test]
fn one_main_is_exported(rt: HostRuntime) -> Result<(), Fail> {
    expect(&rt, &MAINS)
}

/// The earlier of two faults counts, and at one place the lesser number.
const LEAST: [Row; 5] = [
    (
        "a.rml: module a: val v: @t end val v = 1 % b.rml: module a: relation main: string list => () end relation main = axiom main(_) end",
        Some(ModFault::UnknownName),
    ),
    (
        "a.rml: module a: relation main: string list => () end val v: int = @w val v: int = 1 relation main = axiom main(_) end",
        Some(ModFault::UnknownName),
    ),
    (
        "a.rml: module a:\n  @with \"b.rml\"\n  relation main: string list => ()\nend\nrelation f: (int, int) => () =\n  axiom f(x, x)\nend\nrelation main: string list => () =\n  axiom main(_)\nend\n% b.rml: module b:\n  with \"a.rml\"\nend\n",
        Some(ModFault::CircularInterfaces),
    ),
    (
        "a.rml: module a:\n  with \"b.rml\"\n  relation main: string list => ()\nend\nrelation f: (int, int) => () =\n  axiom f(x, @x)\nend\nrelation main: string list => () =\n  axiom main(_)\nend\n% b.rml: module b:\nend\n",
        Some(ModFault::RepeatedVariable),
    ),
    ("b.rml: module b:\nend\n@", Some(ModFault::NoMain)),
];

#[test]
fn the_least_fault_is_told(rt: HostRuntime) -> Result<(), Fail> {
    expect(&rt, &LEAST)
}

/// Types of `main`.
const MAIN_TYPES: [Row; 5] = [
    (
        "a.rml: module a: relation main: int => () end relation main = axiom main(_) end@",
        Some(ModFault::NoMain),
    ),
    (
        "a.rml: module a: relation main: string list => char end relation main = axiom main(_) => #\"a\" end@",
        Some(ModFault::NoMain),
    ),
    (
        "a.rml: module a: type s = string list relation main: s => int end relation main = axiom main(_) => 1 end",
        None,
    ),
    (
        "a.rml: module a: abstype s relation main: s => () end type s = string list relation main = axiom main(_) end@",
        Some(ModFault::NoMain),
    ),
    (
        "a.rml: module a: relation main: int => () end relation main = axiom main(_) end % b.rml: module b: relation main: string list => () end relation main = axiom main(_) end",
        None,
    ),
];

#[test]
fn main_has_one_of_two_types(rt: HostRuntime) -> Result<(), Fail> {
    expect(&rt, &MAIN_TYPES)
}

/// Types of other texts.
const OTHER_TYPES: [Row; 3] = [
    (
        "b.rml: module b: type t = int end % a.rml: module a: with \"b.rml\" relation f: b.t => int relation main: string list => () end relation f: int => int = axiom f(x) => x end relation main = axiom main(_) end",
        None,
    ),
    (
        "b.rml: module b: abstype t end type t = int % a.rml: module a: with \"b.rml\" relation f: b.t => int relation main: string list => () end relation @f: int => int = axiom f(x) => x end relation main = axiom main(_) end",
        Some(ModFault::InterfaceMismatch),
    ),
    (
        "a.rml: module a: abstype t relation main: string list => () end with \"b.rml\" type @t = b.u list relation main = axiom main(_) end % b.rml: module b: abstype u end with \"a.rml\" type u = a.t",
        Some(ModFault::CircularInterfaces),
    ),
];

#[test]
fn types_of_other_texts_are_compared(rt: HostRuntime) -> Result<(), Fail> {
    expect(&rt, &OTHER_TYPES)
}
