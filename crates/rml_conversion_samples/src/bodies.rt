//! What is made of bodies, against what is written by hand.

use crate::building::{give, one, two, vars, with_body};
use crate::writing::write_block;
use rml_base::Memory;
use rml_convert::tables_of;
use rml_fol::{Alternative, Block, Callee, Case as Choice, Literal, Pattern, Stmt as Clause, Tag};
use sqlite_items::{Boxed, Items};
use std::alloc::Global;
use std::test::Fail;

/// What is made of a body.
fn made(alloc: Global, body: Block) -> Result<String, Memory> {
    let clauses = with_body(alloc, body)?;
    let tables = tables_of(alloc, &clauses)?;
    let mut out = String::new(alloc);
    for relation in tables.rels.as_slice() {
        write_block(alloc, &mut out, relation.body.stmts.as_slice())?;
    }
    Ok(out)
}

fn is_made(alloc: Global, body: Block, text: &str) -> Result<bool, Memory> {
    let made = made(alloc, body)?;
    Ok(made.as_str() == text)
}

/// `match v0 (v2, v3 as 7, _) , give(v2)`
fn of_tuple(alloc: Global) -> Result<bool, Memory> {
    let seven = Boxed::new(alloc, Pattern::Lit(Literal::Int(7)))?;
    let mut parts = two(alloc, Pattern::Var(2), Pattern::Bind(3, seven))?;
    parts.push(Pattern::Any)?;
    let mut body = one(alloc, Clause::Match(0, Pattern::Tuple(parts)))?;
    body.append(give(alloc, 2)?)?;
    is_made(
        alloc,
        body,
        "{field 2 0 1;field 3 0 2;switch 3 case int 7{answer k 2;} else{fail h;};}",
    )
}

/// `match v0 [v2, C6(v3)]`
fn of_list(alloc: Global) -> Result<bool, Memory> {
    let con = Pattern::Con(6, one(alloc, Pattern::Var(3))?);
    let items = two(alloc, Pattern::Var(2), con)?;
    let mut body = one(alloc, Clause::Match(0, Pattern::List(items)))?;
    body.append(give(alloc, 2)?)?;
    is_made(
        alloc,
        body,
        "{switch 0 case 1{field 2 0 1;field 9 0 2;switch 9 case 1{field 11 9 1;switch 11 case 6{field 3 11 1;field 10 9 2;switch 10 case 0{answer k 2;} else{fail h;};} else{fail h;};} else{fail h;};} else{fail h;};}",
    )
}

/// `match v0 v2 :: _ :: v3`
fn of_chain(alloc: Global) -> Result<bool, Memory> {
    let mut items = two(alloc, Pattern::Var(2), Pattern::Any)?;
    items.push(Pattern::Var(3))?;
    let mut body = one(alloc, Clause::Match(0, Pattern::Cons(items)))?;
    body.append(give(alloc, 3)?)?;
    is_made(
        alloc,
        body,
        "{switch 0 case 1{field 2 0 1;field 9 0 2;switch 9 case 1{field 10 9 2;set 3 10;answer k 3;} else{fail h;};} else{fail h;};}",
    )
}

/// A call, a built-in, `equal`, and `not` of a call.
fn of_statements(alloc: Global) -> Result<bool, Memory> {
    let mut goal = one(
        alloc,
        Clause::Call(Callee::Rel(0), vars(alloc, &[0, 1])?, vars(alloc, &[5])?),
    )?;
    goal.push(Clause::Give(vars(alloc, &[])?))?;
    let mut body = two(
        alloc,
        Clause::Call(Callee::Rel(0), vars(alloc, &[0, 1])?, vars(alloc, &[2])?),
        Clause::Builtin(0, vars(alloc, &[0, 2])?, vars(alloc, &[3])?),
    )?;
    body.push(Clause::Equal(2, 3))?;
    body.push(Clause::Not(goal))?;
    body.append(give(alloc, 3)?)?;
    is_made(
        alloc,
        body,
        "{success k3 2{builtin 0 0 2 => 3 else h;equal 2 3 else h;failure h1{answer k 3;};success k2 5{fail h;};call 0 0 1 ; k2, h1;};call 0 0 1 ; k3, h;}",
    )
}

fn alternative(block: Block) -> Alternative {
    Alternative { block }
}

/// `or` of three alternatives, the second a `cond`, the third `fail`.
fn of_choices(alloc: Global) -> Result<bool, Memory> {
    let mut first = one(alloc, Clause::Equal(0, 1))?;
    first.push(Clause::Give(vars(alloc, &[])?))?;
    let cond = Clause::Cond(first, give(alloc, 0)?, give(alloc, 1)?);
    let mut alternatives = two(
        alloc,
        alternative(give(alloc, 0)?),
        alternative(one(alloc, cond)?),
    )?;
    alternatives.push(alternative(one(alloc, Clause::Fail)?))?;
    is_made(
        alloc,
        one(alloc, Clause::Or(alternatives))?,
        "{failure h3{failure h1{fail h;};failure h2{answer k 1;};equal 0 1 else h2;answer k 0;};answer k 0;}",
    )
}

/// A named block, and a `switch` whose case goes there.
fn of_body(alloc: Global) -> Result<bool, Memory> {
    let case = Choice {
        tag: Tag::Con(5),
        vars: vars(alloc, &[4])?,
        block: one(alloc, Clause::Goto(0, vars(alloc, &[4])?))?,
    };
    let switch = Clause::Switch(0, one(alloc, case)?, one(alloc, Clause::Fail)?);
    let named = Clause::Body(0, vars(alloc, &[3])?, give(alloc, 3)?);
    is_made(
        alloc,
        two(alloc, named, switch)?,
        "{body j0 3 ; h1{answer k 3;};switch 0 case 5{field 4 0 1;goto j0 4 ; h;} else{fail h;};}",
    )
}

#[test]
fn bodies_become_continuations(rt: HostRuntime) -> Result<(), Fail> {
    let alloc = rt.alloc();
    let tuple = of_tuple(alloc)?;
    let list = of_list(alloc)?;
    let chain = of_chain(alloc)?;
    let statements = of_statements(alloc)?;
    let choices = of_choices(alloc)?;
    let body = of_body(alloc)?;
    assert!(rt; tuple);
    assert!(rt; list);
    assert!(rt; chain);
    assert!(rt; statements);
    assert!(rt; choices);
    assert!(rt; body);
    Ok(())
}
