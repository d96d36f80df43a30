//! Bodies that are deeper than a stack is deep, and what is made of them: made, and dropped.

use crate::building::{give, one, vars, with_body};
use rml_base::Memory;
use rml_convert::tables_of;
use rml_fol::{Alternative, Block, Callee, Parts, Stmt as Clause};
use sqlite_items::Items;
use std::alloc::Global;
use std::test::Fail;

/// The names that are given in what is made of the first relation.
fn names_of(alloc: Global, clauses: &Parts) -> Result<u32, Memory> {
    let tables = tables_of(alloc, clauses)?;
    let mut names = 0;
    for relation in tables.rels.as_slice() {
        names = relation.names;
    }
    Ok(names)
}

/// `or`s, each the first alternative of the next.
fn nested(alloc: Global, levels: u32) -> Result<Block, Memory> {
    let mut block = one(alloc, Clause::Fail)?;
    for _level in 0..levels {
        let mut alternatives = one(alloc, Alternative { block })?;
        let last = one(alloc, Clause::Fail)?;
        alternatives.push(Alternative { block: last })?;
        block = one(alloc, Clause::Or(alternatives))?;
    }
    Ok(block)
}

fn in_a_row(alloc: Global, count: u32) -> Result<Block, Memory> {
    let mut alternatives = Items::new(alloc);
    for _rule in 0..count {
        let block = give(alloc, 0)?;
        alternatives.push(Alternative { block })?;
    }
    one(alloc, Clause::Or(alternatives))
}

fn calls(alloc: Global, count: u32) -> Result<Block, Memory> {
    let mut block = Items::new(alloc);
    for _call in 0..count {
        block.push(Clause::Call(Callee::Rel(0), vars(alloc, &[0, 1])?, vars(alloc, &[2])?))?;
    }
    block.append(give(alloc, 2)?)?;
    Ok(block)
}

#[test]
fn nested_alternatives_are_made(rt: HostRuntime) -> Result<(), Fail> {
    let alloc = rt.alloc();
    let clauses = with_body(alloc, nested(alloc, 4096)?)?;
    let names = names_of(alloc, &clauses)?;
    assert_eq!(rt; names, 4097);
    Ok(())
}

#[test]
fn many_alternatives_are_made(rt: HostRuntime) -> Result<(), Fail> {
    let alloc = rt.alloc();
    let clauses = with_body(alloc, in_a_row(alloc, 4096)?)?;
    let names = names_of(alloc, &clauses)?;
    assert_eq!(rt; names, 4096);
    Ok(())
}

#[test]
fn many_calls_are_made(rt: HostRuntime) -> Result<(), Fail> {
    let alloc = rt.alloc();
    let clauses = with_body(alloc, calls(alloc, 50_000)?)?;
    let names = names_of(alloc, &clauses)?;
    assert_eq!(rt; names, 50_001);
    Ok(())
}
