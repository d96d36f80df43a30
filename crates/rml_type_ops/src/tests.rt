//! What no clause says: that these calls answer at all, on the cases that a reader would try first and on a deep type.

use crate::{same_type, same_up_to_names, substitute};
use rml_base::Memory;
use rml_types::{SchemeTree, forget, forget_all};
use sqlite_items::Items;
use std::alloc::Global;
use std::process::Abort;
use std::test::Fail;

const INT: u32 = 0;

const LIST: u32 = 1;

fn int(alloc: Global) -> SchemeTree {
    SchemeTree::Named(INT, Items::new(alloc))
}

fn unit(alloc: Global) -> SchemeTree {
    SchemeTree::Tuple(Items::new(alloc))
}

fn list(alloc: Global, part: SchemeTree) -> Result<SchemeTree, Memory> {
    Ok(SchemeTree::Named(LIST, one(alloc, part)?))
}

fn one(alloc: Global, part: SchemeTree) -> Result<Items<SchemeTree>, Memory> {
    let mut parts = Items::new(alloc);
    parts.push(part)?;
    Ok(parts)
}

fn two(alloc: Global, first: SchemeTree, second: SchemeTree) -> Result<Items<SchemeTree>, Memory> {
    let mut parts = Items::new(alloc);
    parts.push(first)?;
    parts.push(second)?;
    Ok(parts)
}

fn pair(alloc: Global, first: SchemeTree, second: SchemeTree) -> Result<SchemeTree, Memory> {
    Ok(SchemeTree::Tuple(two(alloc, first, second)?))
}

fn vars(alloc: Global, first: u32, second: u32) -> Result<SchemeTree, Memory> {
    pair(alloc, SchemeTree::Var(first), SchemeTree::Var(second))
}

/// Two types are one type, and are one up to the names of their variables, as a row of a table says.
fn compare(
    rt: &impl Abort,
    alloc: Global,
    a: SchemeTree,
    b: SchemeTree,
    same: bool,
    up_to_names: bool,
) -> Result<(), Memory> {
    assert_eq!(rt; same_type(alloc, &a, &b)?, same);
    assert_eq!(rt; same_type(alloc, &b, &a)?, same);
    assert_eq!(rt; same_up_to_names(alloc, &a, &b)?, up_to_names);
    assert_eq!(rt; same_up_to_names(alloc, &b, &a)?, up_to_names);
    Ok(())
}

/// Two pairs of variables, whether they are one type, and whether they are one up to the names of their variables.
type Row = ([u32; 2], [u32; 2], bool, bool);

const ROWS: [Row; 6] = [
    ([0, 1], [0, 1], true, true),
    ([0, 1], [1, 0], false, true),
    ([0, 1], [0, 7], false, true),
    ([3, 3], [5, 5], false, true),
    ([0, 0], [0, 1], false, false),
    ([4, 2], [2, 2], false, false),
];

#[test]
fn variables_are_compared(rt: HostRuntime) -> Result<(), Fail> {
    let a = rt.alloc();
    for (left, right, same, up_to_names) in ROWS {
        let left = vars(a, left[0], left[1])?;
        let right = list(a, vars(a, right[0], right[1])?)?;
        let left = list(a, left)?;
        compare(&rt, a, left, right, same, up_to_names)?;
    }
    Ok(())
}

#[test]
fn constructors_are_compared(rt: HostRuntime) -> Result<(), Fail> {
    let a = rt.alloc();
    compare(&rt, a, int(a), int(a), true, true)?;
    compare(&rt, a, int(a), unit(a), false, false)?;
    compare(&rt, a, SchemeTree::Var(0), int(a), false, false)?;
    let ints = list(a, int(a))?;
    let any = list(a, SchemeTree::Var(0))?;
    compare(&rt, a, ints, any, false, false)?;
    Ok(())
}

#[test]
fn shapes_of_one_list_of_leaves_are_different(rt: HostRuntime) -> Result<(), Fail> {
    let a = rt.alloc();
    let left = pair(a, vars(a, 0, 1)?, SchemeTree::Var(2))?;
    let right = pair(a, SchemeTree::Var(0), vars(a, 1, 2)?)?;
    compare(&rt, a, left, right, false, false)?;
    let input = one(a, SchemeTree::Var(0))?;
    let output = one(a, SchemeTree::Var(1))?;
    let both = two(a, SchemeTree::Var(0), SchemeTree::Var(1))?;
    let gives = SchemeTree::Rel(input, output);
    let takes = SchemeTree::Rel(both, Items::new(a));
    compare(&rt, a, gives, takes, false, false)?;
    Ok(())
}

/// Types in place of the variables of a type give a type, as a row of a table says.
fn gives(
    rt: &impl Abort,
    alloc: Global,
    types: &[SchemeTree],
    body: SchemeTree,
    wanted: SchemeTree,
) -> Result<(), Memory> {
    let given = substitute(alloc, types, &body)?;
    assert!(rt; same_type(alloc, &given, &wanted)?);
    Ok(())
}

#[test]
fn types_stand_in_place_of_variables(rt: HostRuntime) -> Result<(), Fail> {
    let a = rt.alloc();
    gives(&rt, a, &[], int(a), int(a))?;
    gives(&rt, a, &[int(a)], SchemeTree::Var(0), int(a))?;
    gives(&rt, a, &[int(a)], SchemeTree::Var(1), unit(a))?;
    gives(&rt, a, &[int(a)], vars(a, 0, 0)?, pair(a, int(a), int(a))?)?;
    let swapped = [SchemeTree::Var(1), SchemeTree::Var(0)];
    gives(&rt, a, &swapped, vars(a, 0, 1)?, vars(a, 1, 0)?)?;
    let lists = [list(a, SchemeTree::Var(0))?];
    let once = list(a, SchemeTree::Var(0))?;
    let twice = list(a, list(a, SchemeTree::Var(0))?)?;
    gives(&rt, a, &lists, once, twice)?;
    Ok(())
}

/// A variable in so many tuples of one.
fn nested(alloc: Global, depth: u32, number: u32) -> Result<SchemeTree, Memory> {
    let mut tree = SchemeTree::Var(number);
    for _ in 0..depth {
        tree = SchemeTree::Tuple(one(alloc, tree)?);
    }
    Ok(tree)
}

/// A type with another in place of its first variable.
fn filled(alloc: Global, part: SchemeTree, body: &SchemeTree) -> Result<SchemeTree, Memory> {
    let mut types = Items::new(alloc);
    types.push(part)?;
    let given = substitute(alloc, types.as_slice(), body);
    forget_all(types);
    given
}

#[test]
fn deep_types_need_no_deep_stack(rt: HostRuntime) -> Result<(), Fail> {
    let a = rt.alloc();
    let deep = nested(a, 100000, 0)?;
    let other = nested(a, 100000, 1)?;
    let deeper = nested(a, 200000, 0)?;
    assert!(rt; same_type(a, &deep, &deep)?);
    assert!(rt; !same_type(a, &deep, &other)?);
    assert!(rt; same_up_to_names(a, &deep, &other)?);
    assert!(rt; !same_up_to_names(a, &deep, &deeper)?);
    let part = nested(a, 100000, 0)?;
    let given = filled(a, part, &deep)?;
    assert!(rt; same_type(a, &given, &deeper)?);
    forget(deep);
    forget(other);
    forget(deeper);
    forget(given);
    Ok(())
}
