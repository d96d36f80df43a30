//! Each built-in at an ordinary value, at its edges and where it has no answer.

use rml_base::{Bytes, Memory};
use rml_builtin::{
    Applied, BuiltIns, ROWS, Row, Store, apply, apply_at, builtin, cells_made, scheme_of,
};
use rml_types::SchemeTree;
use rml_value::{Value, Values, equal, list_of};
use sqlite_items::Items;
use std::alloc::Global;
use std::test::Fail;

fn text(alloc: Global, bytes: &[u8]) -> Result<Value, Memory> {
    Ok(Value::Text(Bytes::of(Vec::from_slice(alloc, bytes)?)))
}

fn ints(alloc: Global, numbers: &[i64]) -> Result<Values, Memory> {
    let mut values = Items::new(alloc);
    for n in numbers {
        values.push(Value::Int(*n))?;
    }
    Ok(values)
}

/// `[]`, whose number is 0.
fn nil(alloc: Global) -> Value {
    Value::Con(0, Items::new(alloc))
}

/// A head and a tail under `::`, whose number is 1.
fn chain(alloc: Global, head: Value, tail: Value) -> Result<Value, Memory> {
    let mut parts = Items::new(alloc);
    parts.push(head)?;
    parts.push(tail)?;
    Ok(Value::Con(1, parts))
}

fn with(alloc: Global, first: Value, rest: &[i64]) -> Result<Vec<Value>, Memory> {
    let mut values = vec![in alloc; first]?;
    for n in rest {
        values.push(Value::Int(*n))?;
    }
    Ok(values)
}

/// The number that the one result is or has; None for no answer.
fn number(alloc: Global, row: Row, args: &[Value]) -> Result<Option<i64>, Memory> {
    match apply(alloc, row, args, Items::new(alloc))? {
        Applied::Yes(answer, _) => match answer.values.as_slice() {
            [Value::Int(n)] => Ok(Some(*n)),
            [Value::Char(c)] => Ok(Some(i64::from(*c))),
            [Value::Con(c, _)] => Ok(Some(i64::from(*c))),
            [Value::Text(t)] => Ok(Some(if t.as_slice().is_empty() { 0 } else { 1 })),
            _ => Ok(Some(i64::MIN)),
        },
        Applied::No => Ok(None),
        Applied::Wrong => Ok(Some(i64::MAX)),
    }
}

/// Whether the one result is this value.
fn gives(alloc: Global, row: Row, args: &[Value], expected: &Value) -> Result<bool, Memory> {
    match apply(alloc, row, args, Items::new(alloc))? {
        Applied::Yes(answer, text) => match answer.values.as_slice() {
            [value] => Ok(equal(value, expected) && text.as_slice().is_empty()),
            _ => Ok(false),
        },
        _ => Ok(false),
    }
}

#[test]
fn over_two_integers(rt: HostRuntime) -> Result<(), Fail> {
    let alloc = rt.alloc();
    let rows = [
        (Row::IntAdd, 1_073_741_822, 1, Some(1_073_741_823)),
        (Row::IntAdd, 1_073_741_823, 1, None),
        (Row::IntSub, -1_073_741_823, 1, Some(-1_073_741_824)),
        (Row::IntSub, -1_073_741_824, 1, None),
        (Row::IntMul, -32_768, 32_768, Some(-1_073_741_824)),
        (Row::IntMul, 32_768, 32_768, None),
        (Row::IntDiv, -7, 2, Some(-3)),
        (Row::IntDiv, 7, 0, None),
        (Row::IntDiv, -1_073_741_824, -1, None),
        (Row::IntMod, -7, 2, Some(-1)),
        (Row::IntMod, 7, -2, Some(1)),
        (Row::IntMod, -1_073_741_824, -1, Some(0)),
        (Row::IntMod, 7, 0, None),
        (Row::IntMax, -2, 1, Some(1)),
        (Row::IntMin, -2, 1, Some(-2)),
    ];
    for (row, m, n, expected) in rows {
        let args = [Value::Int(m), Value::Int(n)];
        assert_eq!(rt; number(alloc, row, &args)?, expected, "{row:?} {m} {n}");
    }
    Ok(())
}

#[test]
fn comparisons(rt: HostRuntime) -> Result<(), Fail> {
    let alloc = rt.alloc();
    // `false` is 2 and `true` is 3
    let rows = [
        (Row::IntLt, [3, 2, 2]),
        (Row::IntLe, [3, 3, 2]),
        (Row::IntGt, [2, 2, 3]),
        (Row::IntGe, [2, 3, 3]),
        (Row::IntEq, [2, 3, 2]),
        (Row::IntNe, [3, 2, 3]),
    ];
    for (row, expected) in rows {
        for (i, c) in expected.iter().enumerate() {
            let args = [Value::Int(1), Value::Int([2, 1, 0][i])];
            assert_eq!(rt; number(alloc, row, &args)?, Some(*c), "{row:?} {i}");
        }
    }
    Ok(())
}

#[test]
fn over_one_number(rt: HostRuntime) -> Result<(), Fail> {
    let alloc = rt.alloc();
    let rows = [
        (Row::IntNeg, 5, Some(-5)),
        (Row::IntNeg, -1_073_741_824, None),
        (Row::IntAbs, -5, Some(5)),
        (Row::IntAbs, 7, Some(7)),
        (Row::IntAbs, -1_073_741_824, None),
        (Row::IntChar, 0, Some(0)),
        (Row::IntChar, 255, Some(255)),
        (Row::IntChar, 256, None),
        (Row::IntChar, -1, None),
        (Row::CharInt, 0, Some(i64::MAX)),
    ];
    for (row, n, expected) in rows {
        assert_eq!(rt;
            number(alloc, row, &[Value::Int(n)])?,
            expected,
            "{row:?} {n}"
        );
    }
    assert_eq!(rt;
        number(alloc, Row::CharInt, &[Value::Char(200)])?,
        Some(200)
    );
    Ok(())
}

#[test]
fn integers_as_texts(rt: HostRuntime) -> Result<(), Fail> {
    let alloc = rt.alloc();
    let written: [(i64, &[u8]); 3] = [
        (0, b"0"),
        (-1_073_741_824, b"-1073741824"),
        (1_073_741_823, b"1073741823"),
    ];
    for (n, bytes) in written {
        assert!(rt;
            gives(
                alloc,
                Row::IntString,
                &[Value::Int(n)],
                &text(alloc, bytes)?
            )?
        );
    }
    let read: [(&[u8], Option<i64>); 11] = [
        (b"0", Some(0)),
        (b"-1073741824", Some(-1_073_741_824)),
        (b"~007", Some(-7)),
        (b"1073741823", Some(1_073_741_823)),
        (b"1073741824", None),
        (b"-1073741825", None),
        (b"99999999999999999999", None),
        (b"", None),
        (b"-", None),
        (b"+1", None),
        (b"1x", None),
    ];
    for (bytes, expected) in read {
        let args = [text(alloc, bytes)?];
        assert_eq!(rt;
            number(alloc, Row::StringInt, &args)?,
            expected,
            "{bytes:?}"
        );
    }
    Ok(())
}

#[test]
fn over_texts(rt: HostRuntime) -> Result<(), Fail> {
    let alloc = rt.alloc();
    assert_eq!(rt;
        number(alloc, Row::StringLength, &[text(alloc, b"abc")?])?,
        Some(3)
    );
    for (n, expected) in [(0, Some(97)), (1, Some(98)), (2, None), (-1, None)] {
        let args = with(alloc, text(alloc, b"ab")?, &[n])?;
        assert_eq!(rt;
            number(alloc, Row::StringNth, args.as_slice())?,
            expected,
            "{n}"
        );
    }
    let both = [text(alloc, b"ab")?, text(alloc, b"c")?];
    assert!(rt; gives(alloc, Row::StringAppend, &both, &text(alloc, b"abc")?)?);
    let list = [chain(
        alloc,
        Value::Char(97),
        chain(alloc, Value::Char(98), nil(alloc))?,
    )?];
    assert!(rt; gives(alloc, Row::StringList, &[text(alloc, b"ab")?], &list[0])?);
    assert!(rt; gives(alloc, Row::ListString, &list, &text(alloc, b"ab")?)?);
    let numbers = [list_of(alloc, ints(alloc, &[97])?)?];
    assert_eq!(rt; number(alloc, Row::ListString, &numbers)?, Some(i64::MAX));
    Ok(())
}

#[test]
fn over_vectors(rt: HostRuntime) -> Result<(), Fail> {
    let alloc = rt.alloc();
    let list = [list_of(alloc, ints(alloc, &[4, 5, 6])?)?];
    let vector = [Value::Vector(ints(alloc, &[4, 5, 6])?)];
    assert!(rt; gives(alloc, Row::ListVector, &list, &vector[0])?);
    assert!(rt; gives(alloc, Row::VectorList, &vector, &list[0])?);
    assert_eq!(rt; number(alloc, Row::VectorLength, &vector)?, Some(3));
    for (n, expected) in [(0, Some(4)), (2, Some(6)), (3, None), (-1, None)] {
        let args = with(alloc, Value::Vector(ints(alloc, &[4, 5, 6])?), &[n])?;
        assert_eq!(rt;
            number(alloc, Row::VectorNth, args.as_slice())?,
            expected,
            "{n}"
        );
    }
    Ok(())
}

/// The cells that a row makes of these arguments, or None where it has no answer.
fn made(alloc: Global, row: Row, args: &[Value]) -> Result<Option<u64>, Memory> {
    match apply(alloc, row, args, Items::new(alloc))? {
        Applied::Yes(answer, _) => Ok(Some(cells_made(row, answer.values.as_slice())?)),
        _ => Ok(None),
    }
}

/// The cells of a text that is joined of two.
fn made_of_two(alloc: Global, first: &[u8], second: &[u8]) -> Result<Option<u64>, Memory> {
    let both = [text(alloc, first)?, text(alloc, second)?];
    made(alloc, Row::StringAppend, &both)
}

/// The cells of the list of the characters of a text.
fn made_of_text(alloc: Global, bytes: &[u8]) -> Result<Option<u64>, Memory> {
    made(alloc, Row::StringList, &[text(alloc, bytes)?])
}

/// The cells of the text of a list of characters.
fn made_of_characters(alloc: Global, bytes: &[u8]) -> Result<Option<u64>, Memory> {
    let mut list = nil(alloc);
    for c in bytes {
        list = chain(alloc, Value::Char(*c), list)?;
    }
    made(alloc, Row::ListString, &[list])
}

/// A text, its cells, and those of the list of its characters.
const TEXTS: [(&[u8], u64, u64); 5] = [
    (b"", 1, 0),
    (b"1", 2, 3),
    (b"12345678", 2, 24),
    (b"123456789", 3, 27),
    (b"1234567812345678", 3, 48),
];

#[test]
fn a_text_is_a_cell_and_one_for_each_eight_bytes_begun(rt: HostRuntime) -> Result<(), Fail> {
    let alloc = rt.alloc();
    for (bytes, cells, _) in TEXTS {
        assert_eq!(rt; made_of_two(alloc, bytes, b"")?, Some(cells));
        assert_eq!(rt; made_of_characters(alloc, bytes)?, Some(cells));
    }
    for (n, cells) in [(5, 2), (-1_234_567, 2), (123_456_789, 3)] {
        assert_eq!(rt; made(alloc, Row::IntString, &[Value::Int(n)])?, Some(cells));
    }
    Ok(())
}

#[test]
fn a_list_is_three_cells_an_item(rt: HostRuntime) -> Result<(), Fail> {
    let alloc = rt.alloc();
    for (bytes, _, cells) in TEXTS {
        assert_eq!(rt; made_of_text(alloc, bytes)?, Some(cells));
    }
    let vector = [Value::Vector(ints(alloc, &[4, 5, 6])?)];
    assert_eq!(rt; made(alloc, Row::VectorList, &vector)?, Some(9));
    Ok(())
}

#[test]
fn a_vector_is_a_cell_and_one_an_item(rt: HostRuntime) -> Result<(), Fail> {
    let alloc = rt.alloc();
    let three = [list_of(alloc, ints(alloc, &[4, 5, 6])?)?];
    assert_eq!(rt; made(alloc, Row::ListVector, &three)?, Some(4));
    assert_eq!(rt; made(alloc, Row::ListVector, &[nil(alloc)])?, Some(1));
    Ok(())
}

#[test]
fn other_rows_make_no_cells(rt: HostRuntime) -> Result<(), Fail> {
    let alloc = rt.alloc();
    let vector = [Value::Vector(ints(alloc, &[4, 5, 6])?)];
    assert_eq!(rt; made(alloc, Row::VectorLength, &vector)?, Some(0));
    assert_eq!(rt; made(alloc, Row::LvarNew, &[])?, Some(0));
    // a text, found in a vector or an entry, is not made
    for row in [Row::VectorNth, Row::LvarGet] {
        assert_eq!(rt; cells_made(row, &[text(alloc, b"abc")?])?, 0, "{row:?}");
    }
    Ok(())
}

/// The store after a call, or the one before it where there is no answer: with whether it has one.
fn after(alloc: Global, row: Row, args: &[Value], store: Store) -> Result<Option<Store>, Memory> {
    match apply(alloc, row, args, store)? {
        Applied::Yes(answer, _) => Ok(Some(answer.store)),
        _ => Ok(None),
    }
}

fn one_entry(alloc: Global, held: Option<i64>) -> Result<Store, Memory> {
    let mut store = Items::new(alloc);
    store.push(held.map(|n| Value::Int(n)))?;
    Ok(store)
}

#[test]
fn logical_variables(rt: HostRuntime) -> Result<(), Fail> {
    let alloc = rt.alloc();
    let made = after(alloc, Row::LvarNew, &[], one_entry(alloc, None)?)?;
    assert_eq!(rt; made.ok_or("a new one")?.len(), 2);
    let args = [Value::Cell(0), Value::Int(5)];
    let set = after(alloc, Row::LvarSet, &args, one_entry(alloc, None)?)?.ok_or("unset")?;
    assert!(rt; set.as_slice().len() == 1 && set.as_slice()[0].is_some());
    assert!(rt; after(alloc, Row::LvarSet, &args, one_entry(alloc, Some(4))?)?.is_none());
    // `NONE` and `SOME`
    for (held, expected) in [(None, 4), (Some(5), 5)] {
        let got = apply(
            alloc,
            Row::LvarGet,
            &[Value::Cell(0)],
            one_entry(alloc, held)?,
        )?;
        match got {
            Applied::Yes(answer, _) => {
                assert!(rt;
                    matches!(answer.values.as_slice(), [Value::Con(c, _)] if *c == expected)
                )
            }
            _ => assert!(rt; false, "a bound entry"),
        }
    }
    let off = apply(
        alloc,
        Row::LvarGet,
        &[Value::Cell(1)],
        one_entry(alloc, None)?,
    )?;
    assert!(rt; matches!(off, Applied::Wrong));
    Ok(())
}

#[test]
fn print_has_a_text(rt: HostRuntime) -> Result<(), Fail> {
    let alloc = rt.alloc();
    match apply_at(alloc, 27, &[text(alloc, b"hi\n")?], Items::new(alloc))? {
        Applied::Yes(answer, text) => {
            assert_eq!(rt; answer.values.len(), 0);
            assert_eq!(rt; text.as_slice(), b"hi\n".as_slice());
        }
        _ => assert!(rt; false, "print answers"),
    }
    let off = apply_at(alloc, 32, &[], Items::new(alloc))?;
    assert!(rt; matches!(off, Applied::Wrong));
    Ok(())
}

#[test]
fn the_table(rt: HostRuntime) -> Result<(), Fail> {
    let alloc = rt.alloc();
    assert_eq!(rt; ROWS.len(), 32);
    let rows = [
        (0, "int_add", 2, 1, 0),
        (15, "int_string", 1, 1, 0),
        (24, "lvar_new", 0, 1, 1),
        (26, "lvar_set", 2, 0, 1),
        (27, "print", 1, 0, 0),
        (31, "vector_nth", 2, 1, 1),
    ];
    for (number, name, inputs, outputs, vars) in rows {
        let row = builtin(number);
        assert_eq!(rt; row.name, name);
        assert_eq!(rt; (row.inputs, row.outputs), (inputs, outputs), "{name}");
        assert_eq!(rt; row.silent, number != 27, "{name}");
        assert_eq!(rt; scheme_of(alloc, number)?.vars, vars, "{name}");
    }
    Ok(())
}

/// Whether these are the numbers of the types at the roots, with -1 for a variable.
fn are_roots(trees: &[SchemeTree], roots: &[i64]) -> bool {
    if trees.len() != roots.len() {
        return false;
    }
    for (tree, root) in trees.iter().zip(roots) {
        let number = match tree {
            SchemeTree::Named(number, _) => i64::from(*number),
            _ => -1,
        };
        if number != *root {
            return false;
        }
    }
    true
}

/// Whether the type of a built-in has these roots.
fn has_type(alloc: Global, number: u16, inputs: &[i64], outputs: &[i64]) -> Result<bool, Memory> {
    if usize::from(number) >= ROWS.len() {
        return Ok(false);
    }
    let scheme = scheme_of(alloc, number)?;
    match &scheme.body {
        SchemeTree::Rel(ins, outs) => {
            Ok(are_roots(ins.as_slice(), inputs) && are_roots(outs.as_slice(), outputs))
        }
        _ => Ok(false),
    }
}

/// A built-in, and its types: int 0, char 1, string 2, list 3, lvar 4, vector 5, bool 6, option 7.
const TYPES: [(u16, &[i64], &[i64]); 8] = [
    (0, &[0, 0], &[0]),
    (9, &[0, 0], &[6]),
    (18, &[1], &[0]),
    (23, &[3], &[2]),
    (25, &[4], &[7]),
    (26, &[4, -1], &[]),
    (28, &[3], &[5]),
    (31, &[5, 0], &[-1]),
];

#[test]
fn types_by_their_numbers(rt: HostRuntime) -> Result<(), Fail> {
    let alloc = rt.alloc();
    for (number, inputs, outputs) in TYPES {
        assert!(rt; has_type(alloc, number, inputs, outputs)?, "{number}");
    }
    Ok(())
}

#[test]
fn a_name_finds_its_row(rt: HostRuntime) -> Result<(), Fail> {
    let alloc = rt.alloc();
    let built_ins = BuiltIns::new(alloc)?;
    for number in 0..32 {
        let found = built_ins.find(builtin(number).name.as_bytes());
        assert_eq!(rt; found, Some(number));
    }
    let others: [&[u8]; 5] = [b"", b"main", b"int_ad", b"int_add2", b"Int_add"];
    for name in others {
        assert_eq!(rt; built_ins.find(name), None, "{name:?}");
    }
    Ok(())
}
