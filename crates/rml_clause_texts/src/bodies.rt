//! Bodies built by hand, and their text as written by hand.

use rml_base::{Bytes, Memory};
use rml_fol::{
    Alternative, Block, Body, Callee, Case, Constructor, Expression, Literal, Name, Parts, Pattern,
    Relation, Stmt, Tag, Val, Vars, print_parts,
};
use sqlite_items::{Boxed, Items};
use std::alloc::Global;
use std::test::Fail;

fn bytes(alloc: Global, text: &[u8]) -> Result<Bytes, Memory> {
    Ok(Bytes::of(Vec::from_slice(alloc, text)?))
}

fn name(alloc: Global, of: &[u8], name: &[u8]) -> Result<Name, Memory> {
    Ok(Name {
        of: bytes(alloc, of)?,
        name: bytes(alloc, name)?,
    })
}

fn vars(alloc: Global, xs: &[u32]) -> Result<Vars, Memory> {
    Ok(Items::from_slice(alloc, xs)?)
}

fn one<T: Drop>(alloc: Global, item: T) -> Result<Items<T>, Memory> {
    let mut items = Items::new(alloc);
    items.push(item)?;
    Ok(items)
}

fn two<T: Drop>(alloc: Global, first: T, second: T) -> Result<Items<T>, Memory> {
    let mut items = one(alloc, first)?;
    items.push(second)?;
    Ok(items)
}

const CONS: [(&str, &str, u32); 7] = [
    ("rml", "nil", 0),
    ("rml", "::", 2),
    ("rml", "false", 0),
    ("rml", "true", 0),
    ("rml", "NONE", 0),
    ("rml", "SOME", 1),
    ("m", "PAIR", 2),
];

fn cons(alloc: Global) -> Result<Items<Constructor>, Memory> {
    let mut cons = Items::new(alloc);
    for (of, known, arity) in CONS {
        let name = name(alloc, of.as_bytes(), known.as_bytes())?;
        cons.push(Constructor { name, arity })?;
    }
    Ok(cons)
}

/// Tables with one relation of this body.
fn with_body(alloc: Global, params: u32, results: u32, body: Block) -> Result<Parts, Memory> {
    let relation = Relation {
        name: name(alloc, b"m", b"f")?,
        params,
        results,
        vars: 11,
        bodies: 1,
        tokens: 40,
        body: Body { stmts: body },
    };
    Ok(Parts {
        cons: cons(alloc)?,
        vals: Items::new(alloc),
        rels: one(alloc, relation)?,
        main: 0,
        gives: false,
        longest: 40,
        weight: 40,
    })
}

fn val(alloc: Global) -> Result<Val, Memory> {
    let one = Expression::Lit(Literal::Int(1));
    let less = Expression::Lit(Literal::Int(-2));
    Ok(Val {
        name: name(alloc, b"m", b"k")?,
        value: Expression::List(two(alloc, one, less)?),
    })
}

/// `m.PAIR(v3, (v4 as _) :: v5)`
fn pattern(alloc: Global) -> Result<Pattern, Memory> {
    let bound = Pattern::Bind(4, Boxed::new(alloc, Pattern::Any)?);
    let chain = Pattern::Cons(two(alloc, bound, Pattern::Var(5))?);
    Ok(Pattern::Con(6, two(alloc, Pattern::Var(3), chain)?))
}

/// `(v3, "a\n", #"b", rml.true, m.k, m.f)`
fn expression(alloc: Global) -> Result<Expression, Memory> {
    let mut items = two(
        alloc,
        Expression::Var(3),
        Expression::Lit(Literal::Text(bytes(alloc, b"a\n")?)),
    )?;
    items.push(Expression::Lit(Literal::Char(b'b')))?;
    items.push(Expression::Con(3, Items::new(alloc)))?;
    items.push(Expression::Val(0))?;
    items.push(Expression::Rel(0))?;
    Ok(Expression::Tuple(items))
}

fn calls(alloc: Global, block: &mut Block) -> Result<(), Memory> {
    let known = Stmt::Call(Callee::Rel(0), vars(alloc, &[3, 4])?, vars(alloc, &[7, 8])?);
    block.push(known)?;
    let held = Stmt::Call(Callee::Var(5), vars(alloc, &[3])?, vars(alloc, &[])?);
    block.push(held)?;
    let sum = Stmt::Builtin(0, vars(alloc, &[3, 4])?, vars(alloc, &[9])?);
    block.push(sum)?;
    Ok(())
}

fn first_alternative(alloc: Global) -> Result<Alternative, Memory> {
    let mut block = Items::new(alloc);
    block.push(Stmt::Match(0, pattern(alloc)?))?;
    block.push(Stmt::Set(6, expression(alloc)?))?;
    calls(alloc, &mut block)?;
    block.push(Stmt::Equal(3, 4))?;
    block.push(Stmt::Not(one(alloc, Stmt::Give(vars(alloc, &[])?))?))?;
    block.push(Stmt::Goto(0, vars(alloc, &[3])?))?;
    Ok(Alternative { block })
}

fn case(alloc: Global, tag: Tag, xs: &[u32]) -> Result<Case, Memory> {
    Ok(Case {
        tag,
        vars: vars(alloc, xs)?,
        block: one(alloc, Stmt::Fail)?,
    })
}

fn switch(alloc: Global) -> Result<Stmt, Memory> {
    let nil = case(alloc, Tag::Con(0), &[])?;
    let cell = case(alloc, Tag::Con(1), &[3, 4])?;
    let mut cases = two(alloc, nil, cell)?;
    cases.push(case(alloc, Tag::Lit(Literal::Int(-1)), &[])?)?;
    Ok(Stmt::Switch(1, cases, one(alloc, Stmt::Fail)?))
}

fn second_alternative(alloc: Global) -> Result<Alternative, Memory> {
    let first = two(
        alloc,
        Stmt::Match(1, Pattern::Var(10)),
        Stmt::Give(vars(alloc, &[10])?),
    )?;
    let third = one(alloc, switch(alloc)?)?;
    let choice = Stmt::Cond(first, one(alloc, Stmt::Fail)?, third);
    Ok(Alternative {
        block: one(alloc, choice)?,
    })
}

#[test]
fn each_statement_has_its_line(rt: HostRuntime) -> Result<(), Fail> {
    let alloc = rt.alloc();
    let shared = one(alloc, Stmt::Give(vars(alloc, &[2, 0])?))?;
    let named = Stmt::Body(0, vars(alloc, &[2])?, shared);
    let alternatives = two(alloc, first_alternative(alloc)?, second_alternative(alloc)?)?;
    let mut parts = with_body(alloc, 2, 2, two(alloc, named, Stmt::Or(alternatives))?)?;
    parts.vals = one(alloc, val(alloc)?)?;
    let expected = b"val 0 [1, -2]\n\
relation 0 m.f(v0, v1) -> 2\n  body j0(v2)\n    give(v2, v0)\n  or\n  alt\n    match v0 m.PAIR(v3, (v4 as _) :: v5)\n\
    \x20   set v6 (v3, \"a\\n\", #\"b\", rml.true, m.k, m.f)\n    call m.f(v3, v4) => (v7, v8)\n    call *v5(v3) => ()\n\
    \x20   builtin int_add(v3, v4) => (v9)\n    equal v3 v4\n    not\n      give()\n    goto j0(v3)\n  alt\n    cond\n\
    \x20     match v1 v10\n      give(v10)\n    then\n      fail\n    else\n      switch v1\n      case []\n        fail\n\
    \x20     case ::(v3, v4)\n        fail\n      case -1\n        fail\n      else\n        fail\n";
    let text = print_parts(alloc, &parts)?;
    assert_eq!(rt; text.as_slice(), expected.as_slice());
    Ok(())
}

/// A body of so many `or`s, each in the other.
fn nested(alloc: Global, levels: u32) -> Result<Block, Memory> {
    let mut block = one(alloc, Stmt::Fail)?;
    for _level in 0..levels {
        block = one(alloc, Stmt::Or(one(alloc, Alternative { block })?))?;
    }
    Ok(block)
}

#[test]
fn deep_bodies_are_dropped(rt: HostRuntime) -> Result<(), Fail> {
    let alloc = rt.alloc();
    let parts = with_body(alloc, 0, 0, nested(alloc, 100_000)?)?;
    assert_eq!(rt; parts.rels.len(), 1);
    Ok(())
}

#[test]
fn deep_bodies_are_printed(rt: HostRuntime) -> Result<(), Fail> {
    let alloc = rt.alloc();
    let parts = with_body(alloc, 0, 0, nested(alloc, 4096)?)?;
    let text = print_parts(alloc, &parts)?;
    // two lines a level, `or` and `alt`, each level two blanks deeper; before them the head, and behind them `fail`
    let expected = 22 + 4096 * (3 + 4) + 2 * 4096 * 4097 + 2 * 4097 + 5;
    assert_eq!(rt; text.len(), expected);
    Ok(())
}

#[test]
fn many_alternatives_are_a_list(rt: HostRuntime) -> Result<(), Fail> {
    let alloc = rt.alloc();
    let mut alternatives = Items::new(alloc);
    for _rule in 0..4096 {
        let block = one(alloc, Stmt::Fail)?;
        alternatives.push(Alternative { block })?;
    }
    let parts = with_body(alloc, 1, 0, one(alloc, Stmt::Or(alternatives))?)?;
    let text = print_parts(alloc, &parts)?;
    // the head, `or`, and two lines an alternative
    assert_eq!(rt; text.len(), 24 + 5 + 4096 * 15);
    Ok(())
}
