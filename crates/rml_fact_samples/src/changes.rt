//! Small changes to one good program, each with the fact that it breaks; and at the edge of a fact one that breaks none.

use rml_base::{Bytes, Memory, Place};
use rml_builtin::types::{BOOL, INT, LIST, OPTION, STRING};
use rml_checked::program_of;
use rml_resolved::{Callee, ConDef, Parts, RExp, RGoal, RPat, RRule, RelDef, TypeDef, ValDef};
use rml_syntax::Lit;
use rml_types::{Scheme, SchemeTree};
use sqlite_items::{Boxed, Items};
use std::alloc::Global;
use std::test::Fail;

/// What is other than in the good program.
#[derive(Clone, Copy, Debug, PartialEq, Eq)]
enum Change {
    Nothing,
    NameTwice,
    NameWithinAnother,
    TypeOfAnotherName,
    FurtherTruthValue,
    NoneOfOne,
    RelationOfAnotherName,
    RelationOfAnotherType,
    RelationOfFurtherVariable,
    RelationWithoutType,
    MeansNoType,
    MeansListWithoutArgument,
    MeansOverVariable,
    ConOfAbstype,
    ConOfNoType,
    ConOfMostArguments,
    ConOfTooManyArguments,
    ConWithoutItsArgument,
    ValWithVariable,
    ValWithoutName,
    RelationWithoutRule,
    RelationDeclaredAsInteger,
    IntegerOutOfRange,
    LastCharacter,
    TextOfNoName,
    ChainOfOneItem,
    ConOfTwo,
    NoSuchRelation,
    NoSuchBuiltIn,
    MeansItself,
    ValsNeedEachOther,
    BoundTwice,
    BoundAgainAfterNot,
    BoundNowhere,
    UsedBefore,
    UsedAfterNot,
    RuleWithoutToken,
    RuleOfTooFewTokens,
    RuleOfEightParts,
    RuleOfNineParts,
    LongestRuleIsShort,
    HeaviestProgram,
    HeavierProgram,
    MainOverVariable,
    MainUndeclared,
    MainGivesNothing,
    MainTakesText,
    NoMain,
}

const NOWHERE: Place = Place {
    text: 0,
    line: 1,
    column: 1,
};

const NAMES: [&str; 31] = [
    "rml",
    "int",
    "char",
    "string",
    "list",
    "lvar",
    "vector",
    "bool",
    "option",
    "nil",
    "::",
    "false",
    "true",
    "NONE",
    "SOME",
    "bool_and",
    "bool_or",
    "bool_not",
    "list_append",
    "list_reverse",
    "list_length",
    "list_member",
    "list_nth",
    "list_delete",
    "list_turn",
    "m",
    "main",
    "data",
    "hidden",
    "A",
    "v",
];

/// The name that a change puts in place of another.
fn renamed(change: Change, name: &'static str) -> &'static str {
    match (change, name) {
        (Change::NameTwice, "v") => "A",
        (Change::NameWithinAnother, "v") => "da",
        (Change::TypeOfAnotherName, "int") => "integer",
        (Change::RelationOfAnotherName, "list_turn") => "list_turned",
        _ => name,
    }
}

fn names(alloc: Global, change: Change) -> Result<Items<Bytes>, Memory> {
    let mut all = Items::new(alloc);
    for name in NAMES {
        let bytes = Vec::from_slice(alloc, renamed(change, name).as_bytes())?;
        all.push(Bytes::of(bytes))?;
    }
    Ok(all)
}

fn one<T: Drop>(alloc: Global, item: T) -> Result<Items<T>, Memory> {
    let mut items = Items::new(alloc);
    items.push(item)?;
    Ok(items)
}

fn two<T: Drop>(alloc: Global, first: T, second: T) -> Result<Items<T>, Memory> {
    let mut items = one(alloc, first)?;
    items.push(second)?;
    Ok(items)
}

fn named(alloc: Global, number: u32) -> SchemeTree {
    SchemeTree::Named(number, Items::new(alloc))
}

fn list_of(alloc: Global, item: SchemeTree) -> Result<SchemeTree, Memory> {
    Ok(SchemeTree::Named(LIST, one(alloc, item)?))
}

fn scheme(alloc: Global, vars: u32, body: SchemeTree) -> Result<Scheme, Fail> {
    Ok(Scheme::checked(alloc, vars, body)?.ok_or("a variable is free")?)
}

/// What the abstype stands for.
fn meaning(alloc: Global, change: Change) -> Result<Scheme, Fail> {
    match change {
        Change::MeansNoType => scheme(alloc, 0, named(alloc, 99)),
        Change::MeansListWithoutArgument => scheme(alloc, 0, named(alloc, LIST)),
        Change::MeansOverVariable => scheme(alloc, 1, SchemeTree::Var(0)),
        Change::MeansItself => scheme(alloc, 0, list_of(alloc, named(alloc, 9))?),
        _ => scheme(alloc, 0, named(alloc, INT)),
    }
}

fn types(alloc: Global, change: Change) -> Result<Items<TypeDef>, Fail> {
    let mut all = Items::new(alloc);
    for (name, params) in [
        (1, 0),
        (2, 0),
        (3, 0),
        (4, 1),
        (5, 1),
        (6, 1),
        (7, 0),
        (8, 1),
    ] {
        all.push(TypeDef {
            module: 0,
            name,
            params,
            means: None,
        })?;
    }
    all.push(TypeDef {
        module: 25,
        name: 27,
        params: 0,
        means: None,
    })?;
    all.push(TypeDef {
        module: 25,
        name: 28,
        params: 0,
        means: Some(meaning(alloc, change)?),
    })?;
    Ok(all)
}

/// A constructor of a type of no parameter, or of one.
fn con(
    alloc: Global,
    name: u32,
    of: u32,
    vars: u32,
    arity: u32,
    inputs: Items<SchemeTree>,
) -> Result<ConDef, Fail> {
    let mut parameters = Items::new(alloc);
    for k in 0..vars {
        parameters.push(SchemeTree::Var(k))?;
    }
    let outputs = one(alloc, SchemeTree::Named(of, parameters))?;
    Ok(ConDef {
        name,
        of,
        arity,
        scheme: scheme(alloc, vars, SchemeTree::Rel(inputs, outputs))?,
    })
}

fn integers(alloc: Global, count: u32) -> Result<Items<SchemeTree>, Memory> {
    let mut all = Items::new(alloc);
    for _ in 0..count {
        all.push(named(alloc, INT))?;
    }
    Ok(all)
}

/// The last constructor, of the data type.
fn own_con(alloc: Global, change: Change) -> Result<ConDef, Fail> {
    match change {
        Change::FurtherTruthValue => con(alloc, 29, BOOL, 0, 1, integers(alloc, 1)?),
        Change::ConOfAbstype => con(alloc, 29, 9, 0, 1, integers(alloc, 1)?),
        Change::ConOfNoType => con(alloc, 29, 99, 0, 1, integers(alloc, 1)?),
        Change::ConOfMostArguments => {
            con(alloc, 29, 8, 0, 1_048_575, integers(alloc, 1_048_575)?)
        }
        Change::ConOfTooManyArguments => {
            con(alloc, 29, 8, 0, 1_048_576, integers(alloc, 1_048_576)?)
        }
        Change::ConWithoutItsArgument => con(alloc, 29, 8, 0, 1, Items::new(alloc)),
        _ => con(alloc, 29, 8, 0, 1, integers(alloc, 1)?),
    }
}

fn none_con(alloc: Global, change: Change) -> Result<ConDef, Fail> {
    match change {
        Change::NoneOfOne => con(alloc, 13, OPTION, 1, 1, one(alloc, SchemeTree::Var(0))?),
        _ => con(alloc, 13, OPTION, 1, 0, Items::new(alloc)),
    }
}

fn cons(alloc: Global, change: Change) -> Result<Items<ConDef>, Fail> {
    let tail = list_of(alloc, SchemeTree::Var(0))?;
    let head_and_tail = two(alloc, SchemeTree::Var(0), tail)?;
    let mut all = one(alloc, con(alloc, 9, LIST, 1, 0, Items::new(alloc))?)?;
    all.push(con(alloc, 10, LIST, 1, 2, head_and_tail)?)?;
    all.push(con(alloc, 11, BOOL, 0, 0, Items::new(alloc))?)?;
    all.push(con(alloc, 12, BOOL, 0, 0, Items::new(alloc))?)?;
    all.push(none_con(alloc, change)?)?;
    all.push(con(alloc, 14, OPTION, 1, 1, one(alloc, SchemeTree::Var(0))?)?)?;
    all.push(own_con(alloc, change)?)?;
    Ok(all)
}

fn val(alloc: Global, name: u32, value: RExp) -> Result<ValDef, Fail> {
    Ok(ValDef {
        module: 25,
        name,
        place: NOWHERE,
        scheme: scheme(alloc, 0, named(alloc, INT))?,
        value,
    })
}

/// Two vals, of which the second needs the first.
fn vals(alloc: Global, change: Change) -> Result<Items<ValDef>, Fail> {
    let second = val(alloc, 30, RExp::Val(0))?;
    let first = match change {
        Change::ValWithVariable => val(alloc, 30, RExp::Var(0))?,
        Change::ValWithoutName => val(alloc, 99, RExp::Lit(Lit::Int(5)))?,
        Change::ValsNeedEachOther => val(alloc, 30, RExp::Val(1))?,
        _ => val(alloc, 30, RExp::Lit(Lit::Int(5)))?,
    };
    Ok(two(alloc, first, second)?)
}

fn wildcards(alloc: Global, count: u32) -> Result<Items<RPat>, Memory> {
    let mut all = Items::new(alloc);
    for _ in 0..count {
        all.push(RPat::Any)?;
    }
    Ok(all)
}

fn items(alloc: Global) -> Result<SchemeTree, Memory> {
    list_of(alloc, SchemeTree::Var(0))
}

/// What a relation of the prelude takes.
fn inputs(alloc: Global, name: u32) -> Result<Items<SchemeTree>, Memory> {
    match name {
        15 | 16 => two(alloc, named(alloc, BOOL), named(alloc, BOOL)),
        17 => one(alloc, named(alloc, BOOL)),
        18 | 24 => two(alloc, items(alloc)?, items(alloc)?),
        19 | 20 => one(alloc, items(alloc)?),
        21 => two(alloc, SchemeTree::Var(0), items(alloc)?),
        _ => two(alloc, items(alloc)?, named(alloc, INT)),
    }
}

/// What a relation of the prelude gives.
fn output(alloc: Global, name: u32) -> Result<SchemeTree, Memory> {
    match name {
        15 | 16 | 17 | 21 => Ok(named(alloc, BOOL)),
        20 => Ok(named(alloc, INT)),
        22 => Ok(SchemeTree::Var(0)),
        _ => items(alloc),
    }
}

/// The declared type of a relation of the prelude.
fn declared(alloc: Global, change: Change, name: u32) -> Result<Option<Scheme>, Fail> {
    let output = match (change, name) {
        (Change::RelationOfAnotherType, 20) => SchemeTree::Var(0),
        _ => output(alloc, name)?,
    };
    let body = SchemeTree::Rel(inputs(alloc, name)?, one(alloc, output)?);
    match (change, name) {
        (Change::RelationWithoutType, 24) => Ok(None),
        (Change::RelationOfFurtherVariable, 15) => Ok(Some(scheme(alloc, 1, body)?)),
        (_, 15) | (_, 16) | (_, 17) => Ok(Some(scheme(alloc, 0, body)?)),
        _ => Ok(Some(scheme(alloc, 1, body)?)),
    }
}

/// A relation of the prelude, with one rule that has so many tokens.
fn prelude_relation(alloc: Global, change: Change, name: u32, tokens: u32) -> Result<RelDef, Fail> {
    let rule = RRule {
        place: NOWHERE,
        inputs: wildcards(alloc, parts_after(change, tokens))?,
        goals: Items::new(alloc),
        results: Items::new(alloc),
        vars: 0,
        tokens: tokens_after(change, tokens),
    };
    Ok(RelDef {
        module: 0,
        name,
        place: NOWHERE,
        scheme: declared(alloc, change, name)?,
        rules: one(alloc, rule)?,
    })
}

/// The tokens of the longest rule of `list_delete`, which is the longest of all, and else as many as there are.
fn tokens_after(change: Change, tokens: u32) -> u32 {
    match (change, tokens) {
        (Change::LongestRuleIsShort, 40) => 39,
        (Change::RuleWithoutToken, 7) => 0,
        (Change::RuleOfEightParts, 7) => 1,
        (Change::RuleOfNineParts, 7) => 8,
        _ => tokens,
    }
}

/// The parts of the rule of 7 tokens; the other rules of the prelude have none.
fn parts_after(change: Change, tokens: u32) -> u32 {
    match (change, tokens) {
        (Change::RuleOfEightParts, 7) => 8,
        (Change::RuleOfNineParts, 7) => 9,
        _ => 0,
    }
}

fn literal(n: i64) -> RExp {
    RExp::Lit(Lit::Int(n))
}

/// `x0 as (_ :: x1)`
fn head(alloc: Global, change: Change) -> Result<Items<RPat>, Memory> {
    let items = match change {
        Change::BoundTwice => two(alloc, RPat::Var(1), RPat::Var(1))?,
        Change::ChainOfOneItem => one(alloc, RPat::Var(1))?,
        _ => two(alloc, RPat::Any, RPat::Var(1))?,
    };
    one(alloc, RPat::Bind(0, Boxed::new(alloc, RPat::Cons(items))?))
}

/// `let x2 = SOME(1)`
fn first_goal(alloc: Global, change: Change) -> Result<RGoal, Memory> {
    let arguments = match change {
        Change::IntegerOutOfRange => one(alloc, literal(1_073_741_824))?,
        Change::LastCharacter => one(alloc, RExp::Lit(Lit::Char(255)))?,
        Change::TextOfNoName => one(alloc, RExp::Lit(Lit::Text(99)))?,
        Change::ConOfTwo => two(alloc, literal(1), literal(2))?,
        Change::UsedBefore => one(alloc, RExp::Var(2))?,
        _ => one(alloc, literal(1))?,
    };
    Ok(RGoal::Let(RPat::Var(2), RExp::Con(5, arguments)))
}

/// `not let x3 = x2`
fn second_goal(alloc: Global, change: Change) -> Result<RGoal, Memory> {
    let inner = match change {
        Change::BoundAgainAfterNot => RGoal::Let(RPat::Var(2), RExp::Var(1)),
        _ => RGoal::Let(RPat::Var(3), RExp::Var(2)),
    };
    Ok(RGoal::Not(Boxed::new(alloc, inner)?))
}

/// `int_add(1, 2) => _`
fn third_goal(alloc: Global, change: Change) -> Result<RGoal, Memory> {
    let callee = match change {
        Change::NoSuchRelation => Callee::Rel(99),
        Change::NoSuchBuiltIn => Callee::Built(99),
        _ => Callee::Built(0),
    };
    Ok(RGoal::Call(
        callee,
        two(alloc, literal(1), literal(2))?,
        one(alloc, RPat::Any)?,
    ))
}

fn result_of(change: Change) -> RExp {
    match change {
        Change::UsedAfterNot => RExp::Var(3),
        _ => RExp::Var(0),
    }
}

fn variables_of(change: Change) -> u32 {
    match change {
        Change::BoundTwice => 5,
        Change::BoundNowhere => 5,
        _ => 4,
    }
}

/// The rule has 17 parts, and the other rules and the vals weigh 217.
fn main_tokens(change: Change) -> u32 {
    match change {
        Change::RuleOfTooFewTokens => 16,
        Change::HeaviestProgram => 134_217_510,
        Change::HeavierProgram => 134_217_511,
        _ => 20,
    }
}

fn main_rule(alloc: Global, change: Change) -> Result<RRule, Memory> {
    let mut goals = two(
        alloc,
        first_goal(alloc, change)?,
        second_goal(alloc, change)?,
    )?;
    goals.push(third_goal(alloc, change)?)?;
    Ok(RRule {
        place: NOWHERE,
        inputs: head(alloc, change)?,
        goals,
        results: one(alloc, result_of(change))?,
        vars: variables_of(change),
        tokens: main_tokens(change),
    })
}

fn main_scheme(alloc: Global, change: Change) -> Result<Option<Scheme>, Fail> {
    let text = named(alloc, STRING);
    let input = match change {
        Change::MainTakesText => text,
        _ => list_of(alloc, text)?,
    };
    let body = SchemeTree::Rel(one(alloc, input)?, integers(alloc, 1)?);
    match change {
        Change::MainOverVariable => Ok(Some(scheme(alloc, 1, body)?)),
        Change::MainUndeclared => Ok(None),
        _ => Ok(Some(scheme(alloc, 0, body)?)),
    }
}

fn main_relation(alloc: Global, change: Change) -> Result<RelDef, Fail> {
    let rules = match change {
        Change::RelationWithoutRule => Items::new(alloc),
        _ => one(alloc, main_rule(alloc, change)?)?,
    };
    Ok(RelDef {
        module: 25,
        name: 26,
        place: NOWHERE,
        scheme: main_scheme(alloc, change)?,
        rules,
    })
}

/// A relation of one token, whose type is left to be inferred.
fn other_relation(alloc: Global, change: Change) -> Result<RelDef, Fail> {
    let rule = RRule {
        place: NOWHERE,
        inputs: Items::new(alloc),
        goals: Items::new(alloc),
        results: Items::new(alloc),
        vars: 0,
        tokens: 1,
    };
    let scheme = match change {
        Change::RelationDeclaredAsInteger => Some(scheme(alloc, 0, named(alloc, INT))?),
        _ => None,
    };
    Ok(RelDef {
        module: 25,
        name: 30,
        place: NOWHERE,
        scheme,
        rules: one(alloc, rule)?,
    })
}

/// The relations of the prelude, each with the tokens of its longest rule, `main` and another.
fn relations(alloc: Global, change: Change) -> Result<Items<RelDef>, Fail> {
    let mut all = Items::new(alloc);
    for (name, tokens) in [
        (15, 9),
        (16, 9),
        (17, 7),
        (18, 22),
        (19, 17),
        (20, 25),
        (21, 25),
        (22, 38),
        (23, 40),
        (24, 22),
    ] {
        all.push(prelude_relation(alloc, change, name, tokens)?)?;
    }
    all.push(main_relation(alloc, change)?)?;
    all.push(other_relation(alloc, change)?)?;
    Ok(all)
}

fn parts(alloc: Global, change: Change) -> Result<Parts, Fail> {
    Ok(Parts {
        names: names(alloc, change)?,
        types: types(alloc, change)?,
        cons: cons(alloc, change)?,
        vals: vals(alloc, change)?,
        rels: relations(alloc, change)?,
        main: if change == Change::NoMain { 99 } else { 10 },
        gives: change != Change::MainGivesNothing,
    })
}

fn is_accepted(alloc: Global, change: Change) -> Result<bool, Fail> {
    Ok(program_of(alloc, parts(alloc, change)?)?.is_some())
}

#[test]
fn changes_that_break_no_fact(rt: HostRuntime) -> Result<(), Fail> {
    for change in [
        Change::Nothing,
        Change::NameWithinAnother,
        Change::LastCharacter,
        Change::ConOfMostArguments,
        Change::RuleOfEightParts,
        Change::HeaviestProgram,
    ] {
        assert!(rt; is_accepted(rt.alloc(), change)?, "{change:?}");
    }
    Ok(())
}

#[test]
fn changes_with_the_fact_that_each_breaks(rt: HostRuntime) -> Result<(), Fail> {
    let rows = [
        (Change::NameTwice, "names_differ"),
        (Change::TypeOfAnotherName, "types_first"),
        (Change::FurtherTruthValue, "cons_first"),
        (Change::NoneOfOne, "cons_first"),
        (Change::RelationOfAnotherName, "relations_first"),
        (Change::RelationOfAnotherType, "relations_first"),
        (Change::RelationOfFurtherVariable, "relations_first"),
        (Change::RelationWithoutType, "relations_first"),
        (Change::MeansNoType, "types_fit"),
        (Change::MeansListWithoutArgument, "types_fit"),
        (Change::MeansOverVariable, "types_fit"),
        (Change::ConOfAbstype, "cons_fit"),
        (Change::ConOfNoType, "cons_fit"),
        (Change::ConOfTooManyArguments, "cons_fit"),
        (Change::ConWithoutItsArgument, "cons_fit"),
        (Change::ValWithVariable, "vals_fit"),
        (Change::ValWithoutName, "vals_fit"),
        (Change::RelationWithoutRule, "relations_fit"),
        (Change::RelationDeclaredAsInteger, "relations_fit"),
        (Change::IntegerOutOfRange, "relations_fit"),
        (Change::TextOfNoName, "relations_fit"),
        (Change::ChainOfOneItem, "relations_fit"),
        (Change::ConOfTwo, "relations_fit"),
        (Change::NoSuchRelation, "relations_fit"),
        (Change::NoSuchBuiltIn, "relations_fit"),
        (Change::MeansItself, "types_end"),
        (Change::ValsNeedEachOther, "vals_end"),
        (Change::BoundTwice, "bound_once"),
        (Change::BoundAgainAfterNot, "bound_once"),
        (Change::BoundNowhere, "bound_once"),
        (Change::UsedBefore, "used_after"),
        (Change::UsedAfterNot, "used_after"),
        (Change::RuleWithoutToken, "rules_small"),
        (Change::RuleOfTooFewTokens, "rules_small"),
        (Change::RuleOfNineParts, "rules_small"),
        (Change::LongestRuleIsShort, "long_rule"),
        (Change::HeavierProgram, "light"),
        (Change::MainOverVariable, "main_fits"),
        (Change::MainUndeclared, "main_fits"),
        (Change::MainGivesNothing, "main_fits"),
        (Change::MainTakesText, "main_fits"),
        (Change::NoMain, "main_fits"),
    ];
    for (change, fact) in rows {
        assert!(rt;
            !is_accepted(rt.alloc(), change)?,
            "{change:?} breaks {fact}"
        );
    }
    Ok(())
}
