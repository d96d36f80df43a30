//! A small program that is built by hand: the tables that every program begins with, a datatype of trees, two vals, and
//! relations of the caller's.

use crate::spelled::{self, Part};
use rml_base::{Bytes, Memory, Place};
use rml_builtin::types::{BOOL, INT, LIST, OPTION, STRING};
use rml_checked::program_of;
use rml_resolved::{ConDef, Parts, Program, RExp, RGoal, RPat, RRule, RelDef, TypeDef, ValDef};
use rml_syntax::Lit;
use rml_types::{Scheme, SchemeTree};
use sqlite_items::Items;
use std::alloc::Global;
use std::test::Fail;

const NAMES: [&str; 42] = [
    "rml",
    "int",
    "char",
    "string",
    "list",
    "lvar",
    "vector",
    "bool",
    "option",
    "nil",
    "::",
    "false",
    "true",
    "NONE",
    "SOME",
    "bool_and",
    "bool_or",
    "bool_not",
    "list_append",
    "list_reverse",
    "list_length",
    "list_member",
    "list_nth",
    "list_delete",
    "list_turn",
    "m",
    "main",
    "f",
    "hi\n",
    "a",
    "b",
    "x",
    "\n",
    "exp",
    "INT",
    "ADD",
    "SUB",
    "MUL",
    "DIV",
    "three",
    "q",
    "p",
];

/// The numbers of some texts.
pub const HI: u32 = 28;

pub const A: u32 = 29;

pub const B: u32 = 30;

pub const X: u32 = 31;

pub const LINE_END: u32 = 32;

/// The constructors of the trees: INT of a number, and ADD, SUB, MUL and DIV of two trees.
pub const INT_TREE: u32 = 6;

pub const ADD: u32 = 7;

pub const SUB: u32 = 8;

pub const MUL: u32 = 9;

pub const DIV: u32 = 10;

/// The first relation after the prelude's, which is `main`.
pub const MAIN: u32 = 10;

const EXP: u32 = 8;

fn place() -> Place {
    Place {
        text: 0,
        line: 1,
        column: 1,
    }
}

fn names(alloc: Global) -> Result<Items<Bytes>, Memory> {
    let mut names = Items::new(alloc);
    for name in NAMES {
        names.push(Bytes::of(Vec::from_slice(alloc, name.as_bytes())?))?;
    }
    Ok(names)
}

/// What a constructor is made of, and what a relation of the prelude takes and gives.
#[derive(Clone, Copy)]
enum Input {
    Param,
    ListOfParam,
    Int,
    Bool,
    Tree,
}

/// The constructors: the number of the name, the type, how many parameters that has, and the arguments.
const CONS: [(u32, u32, u32, &[Input]); 11] = [
    (9, LIST, 1, &[]),
    (10, LIST, 1, &[Input::Param, Input::ListOfParam]),
    (11, BOOL, 0, &[]),
    (12, BOOL, 0, &[]),
    (13, OPTION, 1, &[]),
    (14, OPTION, 1, &[Input::Param]),
    (34, EXP, 0, &[Input::Int]),
    (35, EXP, 0, &[Input::Tree, Input::Tree]),
    (36, EXP, 0, &[Input::Tree, Input::Tree]),
    (37, EXP, 0, &[Input::Tree, Input::Tree]),
    (38, EXP, 0, &[Input::Tree, Input::Tree]),
];

/// The relations of the prelude: the number of the name, how many variables the type has, what it takes and what it gives.
const PRELUDE: [(u32, u32, &[Input], Input); 10] = [
    (15, 0, &[Input::Bool, Input::Bool], Input::Bool),
    (16, 0, &[Input::Bool, Input::Bool], Input::Bool),
    (17, 0, &[Input::Bool], Input::Bool),
    (
        18,
        1,
        &[Input::ListOfParam, Input::ListOfParam],
        Input::ListOfParam,
    ),
    (19, 1, &[Input::ListOfParam], Input::ListOfParam),
    (20, 1, &[Input::ListOfParam], Input::Int),
    (21, 1, &[Input::Param, Input::ListOfParam], Input::Bool),
    (22, 1, &[Input::ListOfParam, Input::Int], Input::Param),
    (23, 1, &[Input::ListOfParam, Input::Int], Input::ListOfParam),
    (
        24,
        1,
        &[Input::ListOfParam, Input::ListOfParam],
        Input::ListOfParam,
    ),
];

/// A type over the variables 0 and on.
fn named(alloc: Global, number: u32, params: u32) -> Result<SchemeTree, Memory> {
    let mut trees = Items::new(alloc);
    for k in 0..params {
        trees.push(SchemeTree::Var(k))?;
    }
    Ok(SchemeTree::Named(number, trees))
}

fn constant(alloc: Global, number: u32) -> Result<Scheme, Fail> {
    Ok(Scheme::checked(alloc, 0, named(alloc, number, 0)?)?.ok_or("a scheme")?)
}

fn types(alloc: Global) -> Result<Items<TypeDef>, Fail> {
    let mut types = Items::new(alloc);
    for (name, params) in [
        (1, 0),
        (2, 0),
        (3, 0),
        (4, 1),
        (5, 1),
        (6, 1),
        (7, 0),
        (8, 1),
    ] {
        types.push(TypeDef {
            module: 0,
            name,
            params,
            means: None,
        })?;
    }
    types.push(TypeDef {
        module: 25,
        name: 33,
        params: 0,
        means: None,
    })?;
    Ok(types)
}

fn tree_of(alloc: Global, input: Input) -> Result<SchemeTree, Memory> {
    match input {
        Input::Param => Ok(SchemeTree::Var(0)),
        Input::ListOfParam => named(alloc, LIST, 1),
        Input::Int => named(alloc, INT, 0),
        Input::Bool => named(alloc, BOOL, 0),
        Input::Tree => named(alloc, EXP, 0),
    }
}

fn trees_of(alloc: Global, inputs: &[Input]) -> Result<Items<SchemeTree>, Memory> {
    let mut trees = Items::new(alloc);
    for input in inputs {
        trees.push(tree_of(alloc, *input)?)?;
    }
    Ok(trees)
}

/// The type of a constructor.
fn makes(alloc: Global, of: u32, params: u32, inputs: &[Input]) -> Result<SchemeTree, Memory> {
    let mut outs = Items::new(alloc);
    outs.push(named(alloc, of, params)?)?;
    Ok(SchemeTree::Rel(trees_of(alloc, inputs)?, outs))
}

/// The type of a relation of the prelude.
fn declared(alloc: Global, vars: u32, inputs: &[Input], output: Input) -> Result<Scheme, Fail> {
    let tree = SchemeTree::Rel(trees_of(alloc, inputs)?, trees_of(alloc, &[output])?);
    Ok(Scheme::checked(alloc, vars, tree)?.ok_or("a scheme")?)
}

fn cons(alloc: Global) -> Result<Items<ConDef>, Fail> {
    let mut cons = Items::new(alloc);
    for (name, of, params, inputs) in CONS {
        let tree = makes(alloc, of, params, inputs)?;
        cons.push(ConDef {
            name,
            of,
            arity: inputs.len() as u32,
            scheme: Scheme::checked(alloc, params, tree)?.ok_or("a scheme")?,
        })?;
    }
    Ok(cons)
}

fn val(name: u32, scheme: Scheme, value: RExp) -> ValDef {
    ValDef {
        module: 25,
        name,
        place: place(),
        scheme,
        value,
    }
}

/// A val that is 3, and a val that is the relation `main`.
fn vals(alloc: Global, gives: bool) -> Result<Items<ValDef>, Fail> {
    let mut vals = Items::new(alloc);
    vals.push(val(39, constant(alloc, INT)?, RExp::Lit(Lit::Int(3))))?;
    vals.push(val(40, type_of_main(alloc, gives)?, RExp::Rel(MAIN)))?;
    Ok(vals)
}

/// A rule whose patterns bind so many variables.
pub fn rule(vars: u32, inputs: Vec<RPat>, goals: Vec<RGoal>, results: Vec<RExp>) -> RRule {
    RRule {
        place: place(),
        inputs: Items::from_vec(inputs),
        goals: Items::from_vec(goals),
        results: Items::from_vec(results),
        vars,
        tokens: 40,
    }
}

fn relation(module: u32, name: u32, scheme: Option<Scheme>, rules: Vec<RRule>) -> RelDef {
    RelDef {
        module,
        name,
        place: place(),
        scheme,
        rules: Items::from_vec(rules),
    }
}

/// The type from the list of the arguments to nothing, or to an integer.
fn type_of_main(alloc: Global, gives: bool) -> Result<Scheme, Fail> {
    let text = SchemeTree::Named(STRING, Items::new(alloc));
    let list = SchemeTree::Named(LIST, Items::from_vec(vec![in alloc; text]?));
    let mut outputs = Items::new(alloc);
    if gives {
        outputs.push(SchemeTree::Named(INT, Items::new(alloc)))?;
    }
    let tree = SchemeTree::Rel(Items::from_vec(vec![in alloc; list]?), outputs);
    Ok(Scheme::checked(alloc, 0, tree)?.ok_or("a scheme")?)
}

/// The prelude's relations, each with a rule that does nothing, and those of the caller, the first of which is `main`.
fn relations(alloc: Global, gives: bool, own: Vec<Vec<RRule>>) -> Result<Items<RelDef>, Fail> {
    let mut rels = Items::new(alloc);
    for (name, vars, inputs, output) in PRELUDE {
        let rule = rule(0, Vec::new(alloc), Vec::new(alloc), Vec::new(alloc));
        let scheme = Some(declared(alloc, vars, inputs, output)?);
        rels.push(relation(0, name, scheme, vec![in alloc; rule]?))?;
    }
    let mut scheme = Some(type_of_main(alloc, gives)?);
    for rules in own {
        rels.push(relation(25, 26, scheme, rules))?;
        scheme = None;
    }
    Ok(rels)
}

/// The tables of a program of these relations.
fn parts(alloc: Global, gives: bool, own: Vec<Vec<RRule>>) -> Result<Parts, Fail> {
    Ok(Parts {
        names: names(alloc)?,
        types: types(alloc)?,
        cons: cons(alloc)?,
        vals: vals(alloc, gives)?,
        rels: relations(alloc, gives, own)?,
        main: MAIN,
        gives,
    })
}

/// The program of the relations that the parts spell.
pub fn program(alloc: Global, spelled: &[&[Part]], gives: bool) -> Result<Program, Fail> {
    let own = spelled::relations(alloc, spelled)?;
    let parts = parts(alloc, gives, own)?;
    Ok(program_of(alloc, parts)?.ok_or("a program")?)
}
