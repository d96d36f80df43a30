//! Texts, signatures and tokens as they are printed, on trees made by hand.

use rml_base::{Names, Place};
use rml_print::{print_sig, print_tokens, print_tree};
use rml_syntax::{
    ConBind, DataBind, Decl, Exp, Goal, Key, Lit, Long, Mark, Pattern, Rule, Sig, Spot, Text,
    Token, TypeExp, TypeHead, Uses,
};
use sqlite_items::{Boxed, Items};
use std::alloc::{AllocError, Global};
use std::test::Fail;

const PLACE: Place = Place {
    text: 0,
    line: 1,
    column: 1,
};

/// The numbers of the names in the tests, in this order.
const SPELLINGS: [&[u8]; 10] = [
    b"m",
    b"main",
    b"string",
    b"list",
    b"print",
    b"hi\n",
    b"x",
    b"y",
    b"'a",
    b"\"\\\t\r\x00\x7f\xff~",
];

const M: u32 = 0;

const MAIN: u32 = 1;

const STRING: u32 = 2;

const LIST: u32 = 3;

const PRINT: u32 = 4;

const HI: u32 = 5;

const X: u32 = 6;

const Y: u32 = 7;

const A: u32 = 8;

const ODD: u32 = 9;

fn spellings(alloc: Global) -> Result<Names, Fail> {
    let mut names = Names::new(alloc);
    for bytes in SPELLINGS {
        if names.len() > 100 {
            return Err("too many names")?;
        }
        names.intern(bytes)?;
    }
    Ok(names)
}

fn long(name: u32) -> Long {
    Long {
        module: None,
        name,
        place: PLACE,
    }
}

fn one<T: Drop>(alloc: Global, item: T) -> Result<Items<T>, AllocError> {
    let mut items = Items::new(alloc);
    items.push(item)?;
    Ok(items)
}

fn two<T: Drop>(alloc: Global, first: T, second: T) -> Result<Items<T>, AllocError> {
    let mut items = one(alloc, first)?;
    items.push(second)?;
    Ok(items)
}

/// `string list => ()`
fn main_sig(alloc: Global) -> Result<Sig, AllocError> {
    let strings = TypeExp::App(Items::new(alloc), two(alloc, long(STRING), long(LIST))?);
    Ok(Sig {
        inputs: one(alloc, strings)?,
        outputs: Items::new(alloc),
    })
}

/// A relation `main` with one rule.
fn main_relation(alloc: Global, rule: Rule) -> Result<Decl, AllocError> {
    Ok(Decl::Relation(MAIN, PLACE, Some(main_sig(alloc)?), one(alloc, rule)?))
}

fn rule(goals: Items<Goal>, inputs: Items<Pattern>, results: Items<Exp>) -> Rule {
    Rule {
        place: PLACE,
        head: MAIN,
        head_place: PLACE,
        inputs,
        goals,
        results,
        tokens: 1,
    }
}

/// An interface and a body of one declaration each.
fn text(alloc: Global, spec: Decl, decl: Decl) -> Result<Text, AllocError> {
    let file = Uses {
        file: HI,
        place: PLACE,
    };
    Ok(Text {
        module: M,
        place: PLACE,
        end: PLACE,
        uses: Items::new(alloc),
        specs: one(alloc, spec)?,
        body_uses: one(alloc, file)?,
        decls: one(alloc, decl)?,
    })
}

/// What a text with this one declaration in its body prints as.
fn printed(alloc: Global, decl: Decl) -> Result<Vec<u8>, Fail> {
    let names = spellings(alloc)?;
    let spec = Decl::Relation(MAIN, PLACE, Some(main_sig(alloc)?), Items::new(alloc));
    let tree = text(alloc, spec, decl)?;
    Ok(print_tree(alloc, &tree, &names)?)
}

fn type_name(alloc: Global, name: u32) -> Result<TypeExp, AllocError> {
    Ok(TypeExp::App(Items::new(alloc), one(alloc, long(name))?))
}

fn pair_type(alloc: Global) -> Result<TypeExp, AllocError> {
    let pair = two(alloc, type_name(alloc, X)?, type_name(alloc, Y)?)?;
    Ok(TypeExp::Tuple(pair))
}

fn list_type(alloc: Global, of: TypeExp) -> Result<TypeExp, AllocError> {
    Ok(TypeExp::App(one(alloc, of)?, one(alloc, long(LIST))?))
}

fn bound(alloc: Global, name: u32, pattern: Pattern) -> Result<Pattern, AllocError> {
    Ok(Pattern::Bind(name, PLACE, Boxed::new(alloc, pattern)?))
}

fn constant(alloc: Global) -> ConBind {
    ConBind {
        name: Y,
        place: PLACE,
        parts: Items::new(alloc),
    }
}

fn names_pattern(alloc: Global) -> Result<Items<Pattern>, AllocError> {
    two(alloc, Pattern::Name(long(X)), Pattern::Name(long(Y)))
}

#[test]
fn a_text(rt: HostRuntime) -> Result<(), Fail> {
    let alloc = rt.alloc();
    let written = one(alloc, Exp::Lit(Lit::Text(HI)))?;
    let printing = Goal::Call(long(PRINT), written, Items::new(alloc));
    let the_rule = rule(
        one(alloc, printing)?,
        one(alloc, Pattern::Any)?,
        Items::new(alloc),
    );
    let expected =
        b"module m:\n  relation main: string list => ()\nend\nwith \"hi\\n\"\nrelation main: string list => () =\n  rule print(\"hi\\n\")\n       --\n       main(_)\nend\n";
    let tree = main_relation(alloc, the_rule)?;
    assert_eq!(rt; printed(alloc, tree)?.as_slice(), expected.as_slice());
    Ok(())
}

#[test]
fn a_signature(rt: HostRuntime) -> Result<(), Fail> {
    let alloc = rt.alloc();
    let names = spellings(alloc)?;
    assert_eq!(rt;
        print_sig(alloc, &main_sig(alloc)?, &names)?.as_slice(),
        b"string list => ()".as_slice()
    );
    Ok(())
}

#[test]
fn brackets_of_types(rt: HostRuntime) -> Result<(), Fail> {
    let alloc = rt.alloc();
    let names = spellings(alloc)?;
    let nested = TypeExp::Tuple(two(alloc, pair_type(alloc)?, TypeExp::Var(A, PLACE))?);
    let relation = TypeExp::Rel(Boxed::new(alloc, main_sig(alloc)?)?);
    let sig = Sig {
        inputs: two(alloc, list_type(alloc, pair_type(alloc)?)?, nested)?,
        outputs: two(
            alloc,
            relation,
            list_type(alloc, type_name(alloc, STRING)?)?,
        )?,
    };
    let expected = b"((x * y) list, (x * y) * 'a) => ((string list => ()), (string) list)";
    assert_eq!(rt;
        print_sig(alloc, &sig, &names)?.as_slice(),
        expected.as_slice()
    );
    Ok(())
}

#[test]
fn brackets_of_patterns(rt: HostRuntime) -> Result<(), Fail> {
    let alloc = rt.alloc();
    let chain = Pattern::Cons(names_pattern(alloc)?);
    let binding = bound(alloc, X, Pattern::Cons(names_pattern(alloc)?))?;
    let chains = Pattern::Cons(two(alloc, chain, binding)?);
    let bindings = bound(alloc, X, bound(alloc, Y, Pattern::List(Items::new(alloc)))?)?;
    let the_rule = rule(
        Items::new(alloc),
        two(alloc, chains, bindings)?,
        Items::new(alloc),
    );
    let expected =
        b"module m:\n  relation main: string list => ()\nend\nwith \"hi\\n\"\nrelation main: string list => () =\n  axiom main((x :: y) :: (x as x :: y), x as (y as []))\nend\n";
    let tree = main_relation(alloc, the_rule)?;
    assert_eq!(rt; printed(alloc, tree)?.as_slice(), expected.as_slice());
    Ok(())
}

fn a_match(alloc: Global) -> Result<Goal, AllocError> {
    let pair = Pattern::Tuple(names_pattern(alloc)?);
    Ok(Goal::Let(Boxed::new(alloc, pair)?, Exp::Lit(Lit::Int(-1_073_741_824))))
}

fn a_negation(alloc: Global) -> Result<Goal, AllocError> {
    let equal = Goal::Equal(long(X), Exp::Lit(Lit::Char(b'\n')));
    let all = Goal::All(one(alloc, equal)?);
    Ok(Goal::Not(Boxed::new(alloc, all)?))
}

fn a_call_with_a_result(alloc: Global) -> Result<Goal, AllocError> {
    let callee = Long {
        module: Some(M),
        name: X,
        place: PLACE,
    };
    let result = one(alloc, Pattern::Tuple(names_pattern(alloc)?))?;
    Ok(Goal::Call(callee, Items::new(alloc), result))
}

fn three_goals(alloc: Global) -> Result<Items<Goal>, AllocError> {
    let mut goals = two(alloc, a_match(alloc)?, a_negation(alloc)?)?;
    goals.push(a_call_with_a_result(alloc)?)?;
    Ok(goals)
}

fn a_tuple(alloc: Global) -> Result<Items<Exp>, AllocError> {
    let parts = two(alloc, Exp::Name(long(X)), Exp::Lit(Lit::Text(ODD)))?;
    one(alloc, Exp::Tuple(parts))
}

#[test]
fn goals_and_results(rt: HostRuntime) -> Result<(), Fail> {
    let alloc = rt.alloc();
    let the_rule = rule(three_goals(alloc)?, Items::new(alloc), a_tuple(alloc)?);
    let expected =
        b"module m:\n  relation main: string list => ()\nend\nwith \"hi\\n\"\nrelation main: string list => () =\n  rule let (x, y) = -1073741824 & not (x = #\"\\n\") & m.x() => ((x, y))\n       --\n       main() => ((x, \"\\\"\\\\\\t\\r\\000\\127\\255~\"))\nend\n";
    let tree = main_relation(alloc, the_rule)?;
    assert_eq!(rt; printed(alloc, tree)?.as_slice(), expected.as_slice());
    Ok(())
}

#[test]
fn a_datatype(rt: HostRuntime) -> Result<(), Fail> {
    let alloc = rt.alloc();
    let of_pair = ConBind {
        name: X,
        place: PLACE,
        parts: two(alloc, pair_type(alloc)?, TypeExp::Var(A, PLACE))?,
    };
    let first = DataBind {
        head: TypeHead {
            vars: one(alloc, A)?,
            name: X,
            place: PLACE,
        },
        cons: two(alloc, of_pair, constant(alloc))?,
    };
    let second = DataBind {
        head: TypeHead {
            vars: two(alloc, A, A)?,
            name: Y,
            place: PLACE,
        },
        cons: one(alloc, constant(alloc))?,
    };
    let expected =
        b"module m:\n  relation main: string list => ()\nend\nwith \"hi\\n\"\ndatatype 'a x = x of (x * y) * 'a | y and ('a, 'a) y = y\n";
    let tree = Decl::Datatype(two(alloc, first, second)?);
    assert_eq!(rt; printed(alloc, tree)?.as_slice(), expected.as_slice());
    Ok(())
}

#[test]
fn tokens_one_on_a_line(rt: HostRuntime) -> Result<(), Fail> {
    let alloc = rt.alloc();
    let names = spellings(alloc)?;
    let at = |token: Token, line: u32, column: u32| Spot {
        token,
        place: Place {
            text: 0,
            line,
            column,
        },
    };
    let spots = [
        at(Token::Word(Key::KModule), 1, 1),
        at(Token::Name(X), 1, 8),
        at(Token::Sign(Mark::Colon), 1, 9),
        at(Token::Word(Key::KEnd), 2, 1),
        at(Token::TyVar(A), 10, 1),
        at(Token::Lit(Lit::Int(-5)), 10, 4),
        at(Token::Lit(Lit::Char(b'"')), 10, 7),
        at(Token::Lit(Lit::Text(HI)), 10, 12),
        at(Token::Dashes(3), 11, 1),
    ];
    let expected =
        b"1:1 word module\n1:8 name x\n1:9 sign :\n2:1 word end\n10:1 tyvar 'a\n10:4 int -5\n10:7 char #\"\\\"\"\n10:12 text \"hi\\n\"\n11:1 dashes ---\n";
    assert_eq!(rt;
        print_tokens(alloc, &spots, &names)?.as_slice(),
        expected.as_slice()
    );
    Ok(())
}
