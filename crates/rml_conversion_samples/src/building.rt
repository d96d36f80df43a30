//! Bodies that are built by hand.

use rml_base::{Bytes, Memory};
use rml_fol::{Block, Body, Name, Parts, Relation, Stmt as Clause};
use sqlite_items::Items;
use std::alloc::Global;

pub fn one<T: Drop>(alloc: Global, item: T) -> Result<Items<T>, Memory> {
    let mut items = Items::new(alloc);
    items.push(item)?;
    Ok(items)
}

pub fn two<T: Drop>(alloc: Global, first: T, second: T) -> Result<Items<T>, Memory> {
    let mut items = one(alloc, first)?;
    items.push(second)?;
    Ok(items)
}

pub fn vars(alloc: Global, xs: &[u32]) -> Result<Items<u32>, Memory> {
    Ok(Items::from_slice(alloc, xs)?)
}

pub fn name(alloc: Global) -> Result<Name, Memory> {
    Ok(Name {
        of: Bytes::of(Vec::from_slice(alloc, b"m")?),
        name: Bytes::of(Vec::from_slice(alloc, b"f")?),
    })
}

/// Tables with one relation of two parameters and this body, of nine variables and one named block.
pub fn with_body(alloc: Global, body: Block) -> Result<Parts, Memory> {
    let relation = Relation {
        name: name(alloc)?,
        params: 2,
        results: 1,
        vars: 9,
        bodies: 1,
        tokens: 40,
        body: Body { stmts: body },
    };
    Ok(Parts {
        cons: Items::new(alloc),
        vals: Items::new(alloc),
        rels: one(alloc, relation)?,
        main: 0,
        gives: false,
        longest: 40,
        weight: 40,
    })
}

pub fn give(alloc: Global, x: u32) -> Result<Block, Memory> {
    one(alloc, Clause::Give(vars(alloc, &[x])?))
}
