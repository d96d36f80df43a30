//! Trees that were worked out by hand: each production, and each spot where one token does not decide.

use crate::notation::{END, spots, tree};
use crate::spelled::spelled;
use rml_parse::{ParseErr, ParseKind};
use rml_syntax::{Decl, Rule};
use std::alloc::Global;
use std::test::Fail;

/// Texts, and what is declared in them.
const INTERFACES: [(&str, &str); 13] = [
    ("module m : end", "/"),
    (
        "module m : with \"f abstype 'a t val x : a end",
        "t x:()a /",
    ),
    (
        "module m : type t = a * b . c * 'd end",
        "t=< ()a ()b.c 'd> /",
    ),
    ("module m : type t = a l . k j end", "t=()al.kj /"),
    ("module m : type t = ( a ) l end", "t=( ()a)l /"),
    ("module m : type t = ( a , b ) l k end", "t=( ()a ()b)lk /"),
    (
        "module m : type t = ( a => b ) l end",
        "t=( { ()a => ()b})l /",
    ),
    (
        "module m : type t = ( ( ) => ( a , b ) ) end",
        "t={ => ()a ()b} /",
    ),
    (
        "module m : type t = ( ( a , b ) => c ) end",
        "t={ ()a ()b => ()c} /",
    ),
    (
        "module m : type t = ( ( a , b ) l => c ) end",
        "t={ ( ()a ()b)l => ()c} /",
    ),
    ("module m : type t = ( ( a ) * b ) end", "t=< ()a ()b> /"),
    (
        "module m : relation f : ( a , b ) => c * d end",
        "f{ ()a ()b => < ()c ()d>} /",
    ),
    (
        "module m : datatype ( 'a , 'b ) t = x | y of 'a * ( b * c ) and u = z end",
        "abt|x()|y( 'a < ()b ()c>);u|z(); /",
    ),
];

/// Clauses of a relation, and its rules.
const RULES: [(&str, &str); 16] = [
    ("axiom f", " -- f() =>;"),
    ("rule -- f ( ) => ( )", " -- f() =>;"),
    ("rule g x -- f y", " g( x =>) -- f( y) =>;"),
    ("axiom f ( x , 1 ) => ( x , y )", " -- f( x 1) => x y;"),
    ("axiom f _ => ( ( x , y ) )", " -- f( _) => ( x y);"),
    ("axiom f x => ( x ) :: y", " -- f( x) => < x y>;"),
    ("axiom f x => ( x , y ) :: z", " -- f( x) => < ( x y) z>;"),
    ("axiom f ( x as y :: z )", " -- f( x@< y z>) =>;"),
    ("axiom f ( ( x as y ) :: z :: w )", " -- f( < x@y z w>) =>;"),
    (
        "axiom f [ x , m . c 1 , ( y ) ]",
        " -- f( [ x m.c( 1) y]) =>;",
    ),
    ("axiom f x => [ ] :: g h", " -- f( x) => < [] g( h)>;"),
    (
        "rule let x = y & z = 1 & not g ( ) => x -- f",
        " x=y z=1 !g( => x) -- f() =>;",
    ),
    (
        "rule ( g & h x => ( ) ) & not ( g ) -- f",
        " ( g( =>) h( x =>)) !( g( =>)) -- f() =>;",
    ),
    (
        "rule g ( x , y ) => ( x , _ ) -- f",
        " g( x y => x _) -- f() =>;",
    ),
    (
        "rule m . g => ( x , y ) :: z -- f",
        " m.g( => < ( x y) z>) -- f() =>;",
    ),
    (
        "rule m . g = h -- f axiom f 1",
        " m.g=h -- f() =>; -- f( 1) =>;",
    ),
];

fn shown(alloc: Global, text: &str) -> Result<String, Fail> {
    let spots = spots(alloc, text)?;
    let tree = tree(alloc, spots.as_slice())?;
    Ok(spelled(alloc, &tree)?)
}

/// A text whose body is one relation `f` with these clauses.
fn relation(alloc: Global, clauses: &str) -> Result<String, Fail> {
    let text = format!(in alloc; "module m : end relation f = {clauses} end")?;
    shown(alloc, text.as_str())
}

#[test]
fn interfaces(rt: HostRuntime) -> Result<(), Fail> {
    for (text, expected) in INTERFACES {
        let found = shown(rt.alloc(), text)?;
        assert_eq!(rt; found.as_str(), expected);
    }
    Ok(())
}

#[test]
fn rules(rt: HostRuntime) -> Result<(), Fail> {
    for (clauses, expected) in RULES {
        let found = relation(rt.alloc(), clauses)?;
        let expected = format!(in rt.alloc(); "/f{expected} ")?;
        assert_eq!(rt; found.as_str(), expected.as_str());
    }
    Ok(())
}

/// The columns of a rule's words and how many tokens it has.
fn counted(rule: &Rule) -> (u32, u32, u32) {
    (rule.place.column, rule.head_place.column, rule.tokens)
}

#[test]
fn places_and_counts(rt: HostRuntime) -> Result<(), Fail> {
    let text = "module m : end relation f = axiom f x rule -- f end";
    let spots = spots(rt.alloc(), text)?;
    let found = tree(rt.alloc(), spots.as_slice())?;
    assert_eq!(rt; (found.place.column, found.end), (2, END));
    let Some(Decl::Relation(_, place, None, rules)) = found.decls.as_slice().first() else {
        return Err(Fail::from("no relation"));
    };
    assert_eq!(rt; place.column, 6);
    let [first, second] = rules.as_slice() else {
        return Err(Fail::from("not two rules"));
    };
    assert_eq!(rt; counted(first), (8, 9, 3));
    assert_eq!(rt; counted(second), (11, 13, 3));
    Ok(())
}

#[test]
fn no_tokens_are_no_text(rt: HostRuntime) -> Result<(), Fail> {
    match tree(rt.alloc(), &[]) {
        Err(ParseErr::At(place, kind)) => {
            assert_eq!(rt; (place, kind), (END, ParseKind::Unexpected));
            Ok(())
        }
        _ => Err(Fail::from("no fault")),
    }
}
