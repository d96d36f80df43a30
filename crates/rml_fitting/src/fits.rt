//! Whether the numbers of trees lead into the tables, constructors have as many arguments as they are declared with,
//! integers are in range, characters are bytes and chains of `::` have two items.

ghost use Rattle.std.specs.Prelude.{◌≡◌};
ghost use Rattle.std.specs.List.{list_all};
ghost use Rattle.rml_resolved.specs.Fits.{lit_fits, con_fits, pattern_fits, patterns_fit, exp_fits, exps_fit, callee_fits, goal_fits, goals_fit, rule_fits, relation_fits, val_fits};

use crate::typing::{is_scheme_whole, is_type_whole};
use rml_builtin::ROWS;
use rml_resolved::{Callee, ConDef, Counts, RExp, RGoal, RPat, RRule, RelDef, TypeDef, ValDef};
use rml_syntax::Lit;
use rml_value::in_range;
use sqlite_items::at;

fn is_literal(counts: Counts, lit: Lit) -> bool
    ensures { result ≡ lit_fits counts lit }
{
    match lit {
        Lit::Int(i) => in_range(i),
        Lit::Char(_) => true,
        Lit::Text(name) => (name as usize) < counts.names,
    }
}

fn is_application(cons: &[ConDef], con: u32, arguments: usize) -> bool
    ensures { result ≡ con_fits cons.now con arguments }
{
    match at(cons, con as usize) {
        Some(def) => def.arity as usize == arguments,
        None => false,
    }
}

#[cycle(patterns)]
fn is_pattern(counts: Counts, cons: &[ConDef], vars: u32, pattern: &RPat) -> bool
    ensures { result ≡ pattern_fits counts cons.now vars pattern.now }
{
    match pattern {
        RPat::Any => true,
        RPat::Lit(lit) => is_literal(counts, *lit),
        RPat::Var(x) => *x < vars,
        RPat::Con(c, ps) => {
            is_application(cons, *c, ps.len()) && are_patterns(counts, cons, vars, ps.as_slice())
        }
        RPat::Tuple(ps) => are_patterns(counts, cons, vars, ps.as_slice()),
        RPat::List(ps) => are_patterns(counts, cons, vars, ps.as_slice()),
        RPat::Cons(ps) => 2 <= ps.len() && are_patterns(counts, cons, vars, ps.as_slice()),
        RPat::Bind(x, inner) => *x < vars && is_pattern(counts, cons, vars, inner.get()),
    }
}

#[cycle(patterns)]
fn are_patterns(counts: Counts, cons: &[ConDef], vars: u32, patterns: &[RPat]) -> bool
    ensures { result ≡ patterns_fit counts cons.now vars patterns.now }
{
    for pattern in patterns {
        if !is_pattern(counts, cons, vars, pattern) {
            return false;
        }
    }
    true
}

#[cycle(expressions)]
fn is_expression(counts: Counts, cons: &[ConDef], vars: u32, exp: &RExp) -> bool
    ensures { result ≡ exp_fits counts cons.now vars exp.now }
{
    match exp {
        RExp::Lit(lit) => is_literal(counts, *lit),
        RExp::Var(x) => *x < vars,
        RExp::Val(v) => (*v as usize) < counts.vals,
        RExp::Rel(r) => (*r as usize) < counts.rels,
        RExp::Con(c, es) => {
            is_application(cons, *c, es.len()) && are_expressions(counts, cons, vars, es.as_slice())
        }
        RExp::Tuple(es) => are_expressions(counts, cons, vars, es.as_slice()),
        RExp::List(es) => are_expressions(counts, cons, vars, es.as_slice()),
        RExp::Cons(es) => 2 <= es.len() && are_expressions(counts, cons, vars, es.as_slice()),
    }
}

#[cycle(expressions)]
fn are_expressions(counts: Counts, cons: &[ConDef], vars: u32, exps: &[RExp]) -> bool
    ensures { result ≡ exps_fit counts cons.now vars exps.now }
{
    for exp in exps {
        if !is_expression(counts, cons, vars, exp) {
            return false;
        }
    }
    true
}

fn is_callee(counts: Counts, vars: u32, callee: Callee) -> bool
    ensures { result ≡ callee_fits counts vars callee }
{
    match callee {
        Callee::Rel(r) => (r as usize) < counts.rels,
        Callee::Built(number) => (number as usize) < ROWS.len(),
        Callee::Var(x) => x < vars,
        Callee::Val(v) => (v as usize) < counts.vals,
    }
}

#[cycle(goals)]
fn is_goal(counts: Counts, cons: &[ConDef], vars: u32, goal: &RGoal) -> bool
    ensures { result ≡ goal_fits counts cons.now vars goal.now }
{
    match goal {
        RGoal::Call(callee, es, ps) => {
            is_callee(counts, vars, *callee)
                && are_expressions(counts, cons, vars, es.as_slice())
                && are_patterns(counts, cons, vars, ps.as_slice())
        }
        RGoal::Equal(a, b) => {
            is_expression(counts, cons, vars, a) && is_expression(counts, cons, vars, b)
        }
        RGoal::Let(p, e) => {
            is_pattern(counts, cons, vars, p) && is_expression(counts, cons, vars, e)
        }
        RGoal::Not(inner) => is_goal(counts, cons, vars, inner.get()),
        RGoal::All(goals) => are_goals(counts, cons, vars, goals.as_slice()),
    }
}

#[cycle(goals)]
fn are_goals(counts: Counts, cons: &[ConDef], vars: u32, goals: &[RGoal]) -> bool
    ensures { result ≡ goals_fit counts cons.now vars goals.now }
{
    for goal in goals {
        if !is_goal(counts, cons, vars, goal) {
            return false;
        }
    }
    true
}

fn is_rule(counts: Counts, cons: &[ConDef], rule: &RRule) -> bool
    ensures { result ≡ rule_fits counts cons.now rule.now }
{
    are_patterns(counts, cons, rule.vars, rule.inputs.as_slice())
        && are_goals(counts, cons, rule.vars, rule.goals.as_slice())
        && are_expressions(counts, cons, rule.vars, rule.results.as_slice())
}

fn are_rules(counts: Counts, cons: &[ConDef], rules: &[RRule]) -> bool
    ensures { result ≡ list_all (rule_fits counts cons.now) rules.now }
{
    rules.iter().all(|rule| is_rule(counts, cons, rule))
}

/// Whether a relation has names, rules that fit, one at least, and a relation type that fits where its type is
/// declared.
pub fn is_relation(counts: Counts, types: &[TypeDef], cons: &[ConDef], rel: &RelDef) -> bool
    ensures { result ≡ relation_fits counts types.now cons.now rel.now }
{
    (rel.module as usize) < counts.names
        && (rel.name as usize) < counts.names
        && is_scheme_whole(types, &rel.scheme)
        && 0 < rel.rules.len()
        && are_rules(counts, cons, rel.rules.as_slice())
}

/// Whether a val has names, a type that fits, and an expression that fits and has no variable.
pub fn is_val(counts: Counts, types: &[TypeDef], cons: &[ConDef], val: &ValDef) -> bool
    ensures { result ≡ val_fits counts types.now cons.now val.now }
{
    (val.module as usize) < counts.names
        && (val.name as usize) < counts.names
        && is_type_whole(types, &val.scheme.body)
        && is_expression(counts, cons, 0, &val.value)
}
