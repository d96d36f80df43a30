//! Faults at their tokens, and both sides of both limits.

use crate::notation::fault;
use rml_parse::ParseKind;
use std::alloc::{AllocError, Global};
use std::test::Fail;

/// Texts in which a token is unexpected, and its number; 0 at the end.
const UNEXPECTED: [(&str, u32); 19] = [
    ("module", 0),
    ("module m", 0),
    ("module m : end end", 5),
    ("module m : with x", 5),
    ("module m : type t = ( ( a , b ) ) end", 13),
    ("module m : type t = ( a , b ) * c end", 12),
    ("module m : type t = ( ) end", 8),
    ("module m : datatype ( 'a ) t = x end", 7),
    ("module m : end abstype t", 5),
    ("module m : end val x : a end", 9),
    ("module m : end relation f = end", 8),
    ("module m : end relation f = axiom f", 0),
    ("module m : end relation f = axiom f ( x , ) end", 13),
    ("module m : end relation f = axiom x as y end", 10),
    ("module m : end relation f = axiom f => x y z end", 13),
    ("module m : end relation f = rule g f end", 11),
    ("module m : end relation f = rule x = -- f end", 11),
    ("module m : end relation f = rule not not g -- f end", 10),
    ("module m : end relation f = axiom f => _ end", 11),
];

/// The reserved words. No expression begins with one.
const RESERVED: [&str; 18] = [
    "abstype", "and", "as", "axiom", "datatype", "default", "end", "eqtype", "let", "module",
    "not", "of", "relation", "rule", "type", "val", "with", "withtype",
];

#[test]
fn faults(rt: HostRuntime) -> Result<(), Fail> {
    for (text, at) in UNEXPECTED {
        assert_eq!(rt;
            fault(rt.alloc(), text)?,
            Some((ParseKind::Unexpected, at)),
            "in {text}"
        );
    }
    Ok(())
}

#[test]
fn words_out_of_place(rt: HostRuntime) -> Result<(), Fail> {
    for word in RESERVED {
        let text = format!(in rt.alloc(); "module m : end val x = {word}")?;
        assert_eq!(rt;
            fault(rt.alloc(), text.as_str())?,
            Some((ParseKind::Unexpected, 8)),
            "in {text}"
        );
    }
    Ok(())
}

fn repeated(out: &mut String, part: &str, count: usize) -> Result<(), AllocError> {
    for _ in 0..count {
        out.push_str(part)?;
    }
    Ok(())
}

fn nested(alloc: Global, open: &str, close: &str, count: usize) -> Result<String, AllocError> {
    let mut text = String::from_str(alloc, "module m : end val x =")?;
    repeated(&mut text, open, count)?;
    text.push_str(" 1")?;
    repeated(&mut text, close, count)?;
    Ok(text)
}

fn many_rules(alloc: Global, count: usize) -> Result<String, AllocError> {
    let mut text = String::from_str(alloc, "module m : end relation f =")?;
    repeated(&mut text, " axiom f", count)?;
    text.push_str(" end relation g = axiom g end")?;
    Ok(text)
}

#[test]
fn brackets_are_limited(rt: HostRuntime) -> Result<(), Fail> {
    let deep = Some((ParseKind::TooDeep, 208));
    for (open, close, count, expected) in [
        (" (", " )", 200, None),
        (" (", " )", 201, deep),
        (" [", " ]", 201, deep),
    ] {
        let text = nested(rt.alloc(), open, close, count)?;
        assert_eq!(rt; fault(rt.alloc(), text.as_str())?, expected);
    }
    Ok(())
}

#[test]
fn rules_are_limited(rt: HostRuntime) -> Result<(), Fail> {
    for (count, expected) in [
        (4_096, None),
        (4_097, Some((ParseKind::TooManyRules, 8_200))),
    ] {
        let text = many_rules(rt.alloc(), count)?;
        assert_eq!(rt; fault(rt.alloc(), text.as_str())?, expected);
    }
    Ok(())
}
