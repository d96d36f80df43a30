//! What a table makes of types. A text stands for a type: each digit for the name of that number over the rest, and `x` for a variable.

use crate::{Body, MOST_NODES, written, written_out};
use rml_base::Memory;
use rml_type_ops::same_type;
use rml_types::SchemeTree;
use sqlite_items::Items;
use std::alloc::Global;
use std::test::Fail;

/// What the names from 0 on stand for; an empty text for nothing.
const TABLE: [&str; 6] = ["", "", "10", "1x", "32", "15"];

/// How many times over a type is written out, the type, and what it is then.
const ROWS: [(u32, &str, &str); 6] = [
    (0, "4", "4"),
    (1, "4", "32"),
    (2, "4", "110"),
    (30_000, "4", "110"),
    (3, "5", "1115"),
    (1, "33x", "11x"),
];

fn type_of(alloc: Global, text: &str) -> Result<Option<SchemeTree>, Memory> {
    let mut tree = None;
    for byte in text.bytes().rev() {
        let mut parts = Items::new(alloc);
        if let Some(inner) = tree.take() {
            parts.push(inner)?;
        }
        tree = Some(if byte == b'x' {
            SchemeTree::Var(0)
        } else {
            SchemeTree::Named(u32::from(byte.saturating_sub(b'0')), parts)
        });
    }
    Ok(tree)
}

fn table(alloc: Global) -> Result<Vec<Option<Body>>, Memory> {
    let mut table = Vec::new(alloc);
    for text in TABLE {
        table.push(type_of(alloc, text)?.map(Body::of))?;
    }
    Ok(table)
}

fn is_written(alloc: Global, count: u32, text: &str, due: &str) -> Result<bool, Memory> {
    let table = written_out(alloc, &table(alloc)?, count)?;
    let (Some(tree), Some(due)) = (type_of(alloc, text)?, type_of(alloc, due)?) else {
        return Ok(false);
    };
    let mut room = MOST_NODES;
    let tree = written(alloc, &table, &mut room, &tree)?;
    same_type(alloc, &tree, &due)
}

#[test]
fn names_give_way_as_often_as_is_said(rt: HostRuntime) -> Result<(), Fail> {
    for (count, text, due) in ROWS {
        assert!(rt;
            is_written(rt.alloc(), count, text, due)?,
            "{text} {count} times"
        );
    }
    Ok(())
}
