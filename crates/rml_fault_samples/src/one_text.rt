//! Sets of one text, each with a fault or none.

use crate::sample::{Set, found_in};
use rml_scopes::ModFault;
use std::process::Abort;
use std::test::Fail;

/// What the interface has beside `main`, what the body has behind it, and the fault at the `@`.
type Row = (&'static str, &'static str, Option<ModFault>);

fn expect(rt: &(impl Abort + AllocGlobal), rows: &[Row]) -> Result<(), Fail> {
    for (interface, body, fault) in rows {
        let set = Set::of_one(rt.alloc(), interface, body)?;
        let found = found_in(rt.alloc(), &set);
        assert_eq!(rt; found, set.due(*fault), "{interface} | {body}");
    }
    Ok(())
}

/// Names that stand twice.
const TWICE: [Row; 12] = [
    (
        "type t = int type @t = char",
        "",
        Some(ModFault::DuplicateName),
    ),
    (
        "",
        "datatype d = A and @d = B",
        Some(ModFault::DuplicateName),
    ),
    ("", "datatype d = A | @A", Some(ModFault::DuplicateName)),
    (
        "",
        "val v: int = 1 relation @v: int => int = axiom v(x) => x end",
        Some(ModFault::DuplicateName),
    ),
    ("", "datatype d = d", None),
    (
        "relation f: int => int",
        "relation f = axiom f(x) => x end",
        None,
    ),
    (
        "relation f: int => int",
        "relation f = axiom f(x) => x end relation @f = axiom f(x) => x end",
        Some(ModFault::DuplicateName),
    ),
    ("abstype t", "type t = int", None),
    ("abstype t", "datatype t = A", None),
    (
        "datatype t = A",
        "type @t = int",
        Some(ModFault::DuplicateName),
    ),
    (
        "val v: int",
        "val v = 1 val @v = 2",
        Some(ModFault::DuplicateName),
    ),
    ("", "type ('a, 'a) @t = int", Some(ModFault::DuplicateName)),
];

#[test]
fn names_stand_once(rt: HostRuntime) -> Result<(), Fail> {
    expect(&rt, &TWICE)
}

/// Names that mean nothing, or not what is wanted.
const UNKNOWN: [Row; 11] = [
    (
        "",
        "relation f: int => int = axiom f(x) => @y end",
        Some(ModFault::UnknownName),
    ),
    (
        "",
        "relation f: int => int = rule @g(1)\n--\nf(x) => x end",
        Some(ModFault::UnknownName),
    ),
    ("val v: @nosuch", "val v = 1", Some(ModFault::UnknownName)),
    (
        "",
        "relation f: int => int = axiom f(@f(x)) => 1 end",
        Some(ModFault::UnknownName),
    ),
    (
        "",
        "relation f: int => int = axiom f(@m.main) => 1 end",
        Some(ModFault::UnknownName),
    ),
    (
        "",
        "relation f: int => int = axiom f(x) => @f(x) end",
        Some(ModFault::UnknownName),
    ),
    (
        "",
        "datatype d = A of int relation f: int => int = rule @A(1)\n--\nf(x) => x end",
        Some(ModFault::UnknownName),
    ),
    (
        "",
        "relation f: int => int = axiom @g(x) => x end",
        Some(ModFault::UnknownName),
    ),
    ("", "datatype 'a t = A of @'b", Some(ModFault::UnknownName)),
    ("", "type t = @'a list", Some(ModFault::UnknownName)),
    ("", "relation f: 'a => 'b = axiom f(x) => x end", None),
];

#[test]
fn names_mean_what_is_wanted(rt: HostRuntime) -> Result<(), Fail> {
    expect(&rt, &UNKNOWN)
}

/// Names that are given to each text.
const GIVEN: [Row; 7] = [
    (
        "",
        "relation f: int list => int list = rule @list_turn([], x) => y\n--\nf(x) => y end",
        Some(ModFault::UnknownName),
    ),
    (
        "",
        "relation f: int list => int list = rule list_reverse(x) => y\n--\nf(x) => y end",
        None,
    ),
    (
        "",
        "relation f: int list => int list = rule @rml.list_reverse(x) => y\n--\nf(x) => y end",
        Some(ModFault::UnknownName),
    ),
    (
        "",
        "relation f: () => int = rule int_add(1, 2) => x & print(\"a\")\n--\nf() => x end",
        None,
    ),
    (
        "",
        "datatype b = true relation f: b => b = axiom f(true) => true end",
        None,
    ),
    (
        "",
        "relation SOME: int => int = axiom SOME(x) => x end relation f: int => int = axiom f(@SOME(x)) => 1 end",
        Some(ModFault::UnknownName),
    ),
    (
        "",
        "val x: bool = @true val true: bool = false",
        Some(ModFault::UnknownName),
    ),
];

#[test]
fn names_are_given_to_each_text(rt: HostRuntime) -> Result<(), Fail> {
    expect(&rt, &GIVEN)
}

/// `type`s and vals that may be used only where they stand earlier.
const EARLIER: [Row; 10] = [
    ("", "type t = @u type u = int", Some(ModFault::UnknownName)),
    ("", "type u = int type t = u", None),
    ("", "type t = @t list", Some(ModFault::UnknownName)),
    ("abstype t", "type u = t type t = int", None),
    ("", "datatype a = A of u type u = int", None),
    (
        "",
        "val v: int = @w val w: int = 1",
        Some(ModFault::UnknownName),
    ),
    ("", "val v: int = @v", Some(ModFault::UnknownName)),
    ("", "val w: int = 1 val v: int = w", None),
    (
        "",
        "val v: (int => int) = f relation f: int => int = axiom f(x) => x end",
        None,
    ),
    (
        "",
        "relation f: () => int = axiom f() => w end val w: int = 1",
        None,
    ),
];

#[test]
fn types_and_vals_are_used_where_they_stand_earlier(rt: HostRuntime) -> Result<(), Fail> {
    expect(&rt, &EARLIER)
}

/// Constructors and types with another number of arguments.
const COUNTS: [Row; 8] = [
    (
        "",
        "datatype d = A of int relation f: d => int = axiom f(@A) => 1 end",
        Some(ModFault::WrongCount),
    ),
    (
        "",
        "datatype d = A of int relation f: d => int = axiom f(@A(x, y)) => x end",
        Some(ModFault::WrongCount),
    ),
    (
        "",
        "datatype d = A of int * int relation f: d => int = axiom f(@A((x, y))) => x end",
        Some(ModFault::WrongCount),
    ),
    (
        "",
        "datatype d = A of (int * int) relation f: d => int = axiom f(A((x, y))) => x end",
        None,
    ),
    (
        "",
        "datatype d = A of int relation f: () => d = axiom f() => @A end",
        Some(ModFault::WrongCount),
    ),
    ("", "type t = @list", Some(ModFault::WrongCount)),
    ("", "type t = int @int", Some(ModFault::WrongCount)),
    ("", "type t = int list list", None),
];

#[test]
fn constructors_and_types_have_their_arguments(rt: HostRuntime) -> Result<(), Fail> {
    expect(&rt, &COUNTS)
}

/// Variables that one part binds twice.
const REPEATED: [Row; 5] = [
    (
        "",
        "relation f: (int, int) => int = axiom f(x, @x) => x end",
        Some(ModFault::RepeatedVariable),
    ),
    (
        "",
        "relation f: int => (int, int) = axiom f(x) => (x, x) end relation g: int => int = rule f(x) => (a, @a)\n--\ng(x) => a end",
        Some(ModFault::RepeatedVariable),
    ),
    (
        "",
        "relation f: int => int = rule let (a, @a) = (x, x)\n--\nf(x) => a end",
        Some(ModFault::RepeatedVariable),
    ),
    (
        "",
        "relation f: int => int = axiom f(x as @x) => x end",
        Some(ModFault::RepeatedVariable),
    ),
    (
        "",
        "datatype d = A relation f: (d, d) => int = axiom f(A, A) => 1 end",
        None,
    ),
];

#[test]
fn one_part_binds_a_variable_once(rt: HostRuntime) -> Result<(), Fail> {
    expect(&rt, &REPEATED)
}

/// Variables that an earlier part bound.
const REBOUND: [Row; 6] = [
    (
        "",
        "relation f: int => int = rule let @x = 1\n--\nf(x) => x end",
        Some(ModFault::Rebound),
    ),
    (
        "",
        "relation f: int => int = rule not let y = x & let @y = x\n--\nf(x) => x end",
        Some(ModFault::Rebound),
    ),
    (
        "",
        "relation f: int => int = rule let y = x & not let @y = x\n--\nf(x) => x end",
        Some(ModFault::Rebound),
    ),
    (
        "",
        "relation f: int => int = rule (let y = x & let @y = x)\n--\nf(x) => x end",
        Some(ModFault::Rebound),
    ),
    (
        "",
        "relation f: int option => int = rule let @NONE = x\n--\nf(NONE as x) => 1 end",
        Some(ModFault::Rebound),
    ),
    (
        "",
        "relation f: (int option, int option) => int option = axiom f(NONE as y, NONE) => NONE end",
        None,
    ),
];

#[test]
fn no_part_binds_what_an_earlier_one_bound(rt: HostRuntime) -> Result<(), Fail> {
    expect(&rt, &REBOUND)
}

/// Variables that end with a `not`.
const ENDED: [Row; 4] = [
    (
        "",
        "relation f: int => int = rule not let y = x & let z = @y\n--\nf(x) => x end",
        Some(ModFault::UnknownName),
    ),
    (
        "",
        "relation f: int => int = rule not (let y = x & let z = y)\n--\nf(x) => x end",
        None,
    ),
    (
        "",
        "relation f: int => int = rule not let y = x\n--\nf(x) => @y end",
        Some(ModFault::UnknownName),
    ),
    (
        "",
        "relation f: int => int = rule let x = @x\n--\nf(y) => y end",
        Some(ModFault::UnknownName),
    ),
];

#[test]
fn variables_end_with_a_not(rt: HostRuntime) -> Result<(), Fail> {
    expect(&rt, &ENDED)
}

/// What an interface declares and no body defines.
const UNDEFINED: [Row; 6] = [
    ("relation @f: int => int", "", Some(ModFault::NotDefined)),
    ("val @v: int", "", Some(ModFault::NotDefined)),
    ("abstype @t", "", Some(ModFault::NotDefined)),
    (
        "relation @f: int => int",
        "val f = 1 relation f = axiom f(x) => x end",
        Some(ModFault::NotDefined),
    ),
    ("", "val @v = 1", Some(ModFault::NotDefined)),
    ("", "relation f = axiom f(x) => x end", None),
];

#[test]
fn a_body_defines_what_its_interface_declares(rt: HostRuntime) -> Result<(), Fail> {
    expect(&rt, &UNDEFINED)
}

/// Abstypes with another number of parameters.
const PARAMETERS: [Row; 2] = [
    (
        "abstype 'a t",
        "datatype @t = A",
        Some(ModFault::InterfaceMismatch),
    ),
    ("abstype 'a t", "type 'a t = 'a list", None),
];

#[test]
fn abstypes_have_one_number_of_parameters(rt: HostRuntime) -> Result<(), Fail> {
    expect(&rt, &PARAMETERS)
}

/// Abstypes that are defined in circles.
const CIRCLES: [Row; 7] = [
    (
        "abstype t",
        "type @t = t list",
        Some(ModFault::CircularInterfaces),
    ),
    (
        "abstype a abstype b",
        "type @a = b list type b = a list",
        Some(ModFault::CircularInterfaces),
    ),
    ("abstype a abstype b", "type a = int type b = a list", None),
    ("abstype t", "type 'a k = int type t = t k", None),
    (
        "abstype t",
        "type 'a k = 'a list type @t = t k",
        Some(ModFault::CircularInterfaces),
    ),
    (
        "abstype t",
        "type @t = int t",
        Some(ModFault::CircularInterfaces),
    ),
    ("abstype t", "datatype t = A of t", None),
];

#[test]
fn abstypes_are_not_defined_in_circles(rt: HostRuntime) -> Result<(), Fail> {
    expect(&rt, &CIRCLES)
}

/// Types that interface and body give.
const TYPES: [Row; 16] = [
    (
        "relation f: int => int",
        "relation @f: int => char = axiom f(x) => #\"a\" end",
        Some(ModFault::InterfaceMismatch),
    ),
    (
        "relation f: 'a => 'b",
        "relation f: 'c => 'd = axiom f(x) => x end",
        None,
    ),
    (
        "relation f: ('a, 'b) => 'a",
        "relation f: ('b, 'a) => 'b = axiom f(x, y) => x end",
        None,
    ),
    (
        "relation f: ('a, 'b) => 'a",
        "relation @f: ('a, 'a) => 'a = axiom f(x, y) => x end",
        Some(ModFault::InterfaceMismatch),
    ),
    (
        "relation f: ('a, 'a) => 'a",
        "relation @f: ('a, 'b) => 'a = axiom f(x, y) => x end",
        Some(ModFault::InterfaceMismatch),
    ),
    (
        "relation f: (int * int) => int",
        "relation @f: (int, int) => int = axiom f(x, y) => x end",
        Some(ModFault::InterfaceMismatch),
    ),
    (
        "type t = int relation f: t => t",
        "relation f: int => int = axiom f(x) => x end",
        None,
    ),
    (
        "type 'a t = 'a list type u = int t relation f: u => int",
        "relation f: int list => int = axiom f(x) => 1 end",
        None,
    ),
    (
        "type 'a t = 'a list relation f: int t => int",
        "relation @f: char list => int = axiom f(x) => 1 end",
        Some(ModFault::InterfaceMismatch),
    ),
    (
        "abstype t relation f: t => int",
        "type t = int relation f: int => int = axiom f(x) => x end",
        None,
    ),
    (
        "abstype t relation f: t => int",
        "datatype t = A relation @f: int => int = axiom f(x) => x end",
        Some(ModFault::InterfaceMismatch),
    ),
    (
        "val v: int",
        "val @v: char = 1",
        Some(ModFault::InterfaceMismatch),
    ),
    (
        "val v: int list",
        "type 'a l = 'a list val v: int l = [1]",
        None,
    ),
    (
        "val @v: int",
        "relation v: int => int = axiom v(x) => x end",
        Some(ModFault::NotDefined),
    ),
    (
        "relation f: int => int",
        "relation @f: nosuch => int = axiom f(x) => 1 end",
        Some(ModFault::InterfaceMismatch),
    ),
    (
        "relation f: @nosuch => int",
        "relation f: nosuch => int = axiom f(x) => 1 end",
        Some(ModFault::UnknownName),
    ),
];

#[test]
fn interface_and_body_give_one_type(rt: HostRuntime) -> Result<(), Fail> {
    expect(&rt, &TYPES)
}
