//! Relations in a spelling of their own, which is short enough for a table: the parts of a rule stand one after another,
//! each after its own parts, as on a pocket calculator with brackets left out.

use crate::sample::rule;
use rml_base::Memory;
use rml_resolved::{Callee, RExp, RGoal, RPat, RRule};
use rml_syntax::Lit;
use sqlite_items::{Boxed, Items};
use std::alloc::Global;
use std::mem;

/// A part. What holds others takes them from the last that stand before it.
#[derive(Clone, Copy, Debug)]
pub enum Part {
    // expressions
    Int(i64),
    Text(u32),
    Get(u32),
    Val(u32),
    Rel(u32),
    Tree(u32, usize),
    ListOf(usize),
    // patterns
    Any,
    Set(u32),
    Case(u32, usize),
    PairOf,
    Listed(usize),
    Chain(usize),
    As(u32),
    // goals: a call takes all expressions and patterns
    Call(Callee),
    Equal,
    Let,
    Not,
    All(usize),
    /// All patterns so far are the head.
    Head,
    /// All goals so far are the premises, and all expressions the results.
    Rule,
    /// All rules so far are a relation.
    Relation,
}

/// What has been read and not yet been taken.
#[derive(Drop)]
struct Read {
    exps: Vec<RExp>,
    patterns: Vec<RPat>,
    goals: Vec<RGoal>,
    head: Vec<RPat>,
    /// How many variables the patterns of the rule have bound.
    vars: u32,
    rules: Vec<RRule>,
    relations: Vec<Vec<RRule>>,
}

/// The last items, in their order.
fn last<T: Drop>(alloc: Global, items: &mut Vec<T>, count: usize) -> Result<Items<T>, Memory> {
    let mut taken = Vec::new(alloc);
    for _ in 0..count {
        if let Some(item) = items.pop() {
            taken.insert(0, item)?;
        }
    }
    Ok(Items::from_vec(taken))
}

fn add_exp(alloc: Global, read: &mut Read, part: Part) -> Result<(), Memory> {
    let exp = match part {
        Part::Int(n) => RExp::Lit(Lit::Int(n)),
        Part::Text(k) => RExp::Lit(Lit::Text(k)),
        Part::Get(x) => RExp::Var(x),
        Part::Val(k) => RExp::Val(k),
        Part::Rel(r) => RExp::Rel(r),
        Part::Tree(c, count) => RExp::Con(c, last(alloc, &mut read.exps, count)?),
        Part::ListOf(count) => RExp::List(last(alloc, &mut read.exps, count)?),
        _ => return Ok(()),
    };
    read.exps.push(exp)?;
    Ok(())
}

/// The pattern that a part ends, if its own parts are there.
fn pattern_of(alloc: Global, read: &mut Read, part: Part) -> Result<Option<RPat>, Memory> {
    match part {
        Part::Any => Ok(Some(RPat::Any)),
        Part::Set(x) => Ok(Some(RPat::Var(x))),
        Part::Case(c, count) => Ok(Some(RPat::Con(c, last(alloc, &mut read.patterns, count)?))),
        Part::PairOf => Ok(Some(RPat::Tuple(last(alloc, &mut read.patterns, 2)?))),
        Part::Listed(count) => Ok(Some(RPat::List(last(alloc, &mut read.patterns, count)?))),
        Part::Chain(count) => Ok(Some(RPat::Cons(last(alloc, &mut read.patterns, count)?))),
        Part::As(x) => match read.patterns.pop() {
            Some(pattern) => Ok(Some(RPat::Bind(x, Boxed::new(alloc, pattern)?))),
            None => Ok(None),
        },
        _ => Ok(None),
    }
}

fn add_pattern(alloc: Global, read: &mut Read, part: Part) -> Result<(), Memory> {
    if matches!(part, Part::Set(_) | Part::As(_)) {
        read.vars = u32::wrapping_add(read.vars, 1);
    }
    if let Some(pattern) = pattern_of(alloc, read, part)? {
        read.patterns.push(pattern)?;
    }
    Ok(())
}

fn called(alloc: Global, read: &mut Read, callee: Callee) -> RGoal {
    let exps = mem::replace(&mut read.exps, Vec::new(alloc));
    let patterns = mem::replace(&mut read.patterns, Vec::new(alloc));
    RGoal::Call(callee, Items::from_vec(exps), Items::from_vec(patterns))
}

/// The goal that a part ends, if its own parts are there.
fn goal_of(alloc: Global, read: &mut Read, part: Part) -> Result<Option<RGoal>, Memory> {
    match part {
        Part::Call(callee) => Ok(Some(called(alloc, read, callee))),
        Part::Equal => match (read.exps.pop(), read.exps.pop()) {
            (Some(b), Some(a)) => Ok(Some(RGoal::Equal(a, b))),
            _ => Ok(None),
        },
        Part::Let => match (read.patterns.pop(), read.exps.pop()) {
            (Some(pattern), Some(exp)) => Ok(Some(RGoal::Let(pattern, exp))),
            _ => Ok(None),
        },
        Part::Not => match read.goals.pop() {
            Some(goal) => Ok(Some(RGoal::Not(Boxed::new(alloc, goal)?))),
            None => Ok(None),
        },
        Part::All(count) => Ok(Some(RGoal::All(last(alloc, &mut read.goals, count)?))),
        _ => Ok(None),
    }
}

fn add_rule(alloc: Global, read: &mut Read) -> Result<(), Memory> {
    let head = mem::replace(&mut read.head, Vec::new(alloc));
    let goals = mem::replace(&mut read.goals, Vec::new(alloc));
    let results = mem::replace(&mut read.exps, Vec::new(alloc));
    let vars = mem::replace(&mut read.vars, 0);
    read.rules.push(rule(vars, head, goals, results))?;
    Ok(())
}

fn add(alloc: Global, read: &mut Read, part: Part) -> Result<(), Memory> {
    match part {
        Part::Head => read.head = mem::replace(&mut read.patterns, Vec::new(alloc)),
        Part::Rule => add_rule(alloc, read)?,
        Part::Relation => {
            let rules = mem::replace(&mut read.rules, Vec::new(alloc));
            read.relations.push(rules)?;
        }
        _ => {
            add_exp(alloc, read, part)?;
            add_pattern(alloc, read, part)?;
            if let Some(goal) = goal_of(alloc, read, part)? {
                read.goals.push(goal)?;
            }
        }
    }
    Ok(())
}

/// The relations that the parts spell, line by line.
pub fn relations(alloc: Global, lines: &[&[Part]]) -> Result<Vec<Vec<RRule>>, Memory> {
    let mut read = Read {
        exps: Vec::new(alloc),
        patterns: Vec::new(alloc),
        goals: Vec::new(alloc),
        head: Vec::new(alloc),
        vars: 0,
        rules: Vec::new(alloc),
        relations: Vec::new(alloc),
    };
    for line in lines {
        for part in *line {
            add(alloc, &mut read, *part)?;
        }
    }
    Ok(read.relations)
}
