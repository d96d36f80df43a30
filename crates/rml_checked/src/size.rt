//! How large rules and vals are. A count stands still at the end of its type.

ghost use Rattle.std.specs.Prelude.{◌≡◌, ◌^◌, ◌-◌, min, max, fold, sum_by};
ghost use Rattle.std.specs.List.{list_all};
ghost use Rattle.rml_resolved.specs.Size.{pattern_size, exp_size, goal_size, rule_size, rule_is_small, relation_is_small, relation_tokens, tokens_of, longest as longest_of, has_long_rule, val_size, is_light};

use rml_resolved::limits::{FEW_PARTS, PRELUDE_TOKENS, WEIGHT};
use rml_resolved::{RExp, RGoal, RPat, RRule, RelDef, ValDef, longest};

#[cycle(patterns)]
fn count_pattern(pattern: &RPat) -> u64
    ensures { result ≡ min (pattern_size pattern.now) (2 ^ 64 - 1) }
{
    match pattern {
        RPat::Any => 1,
        RPat::Lit(_) => 1,
        RPat::Var(_) => 1,
        RPat::Con(_, ps) => count_patterns(ps.as_slice()).saturating_add(1),
        RPat::Tuple(ps) => count_patterns(ps.as_slice()).saturating_add(1),
        RPat::List(ps) => count_patterns(ps.as_slice()).saturating_add(1),
        RPat::Cons(ps) => count_patterns(ps.as_slice()).saturating_add(1),
        RPat::Bind(_, inner) => count_pattern(inner.get()).saturating_add(1),
    }
}

#[cycle(patterns)]
fn count_patterns(patterns: &[RPat]) -> u64
    ensures { result ≡ min (sum_by pattern_size patterns.now) (2 ^ 64 - 1) }
{
    let mut count = 0u64;
    for pattern in patterns {
        count = count.saturating_add(count_pattern(pattern));
    }
    count
}

#[cycle(expressions)]
fn count_expression(exp: &RExp) -> u64
    ensures { result ≡ min (exp_size exp.now) (2 ^ 64 - 1) }
{
    match exp {
        RExp::Lit(_) => 1,
        RExp::Var(_) => 1,
        RExp::Val(_) => 1,
        RExp::Rel(_) => 1,
        RExp::Con(_, es) => count_expressions(es.as_slice()).saturating_add(1),
        RExp::Tuple(es) => count_expressions(es.as_slice()).saturating_add(1),
        RExp::List(es) => count_expressions(es.as_slice()).saturating_add(1),
        RExp::Cons(es) => count_expressions(es.as_slice()).saturating_add(1),
    }
}

#[cycle(expressions)]
fn count_expressions(exps: &[RExp]) -> u64
    ensures { result ≡ min (sum_by exp_size exps.now) (2 ^ 64 - 1) }
{
    let mut count = 0u64;
    for exp in exps {
        count = count.saturating_add(count_expression(exp));
    }
    count
}

#[cycle(goals)]
fn count_goal(goal: &RGoal) -> u64
    ensures { result ≡ min (goal_size goal.now) (2 ^ 64 - 1) }
{
    match goal {
        RGoal::Call(_, es, ps) => {
            let before = count_expressions(es.as_slice()).saturating_add(1);
            before.saturating_add(count_patterns(ps.as_slice()))
        }
        RGoal::Equal(a, b) => {
            let before = count_expression(a).saturating_add(1);
            before.saturating_add(count_expression(b))
        }
        RGoal::Let(p, e) => {
            let before = count_pattern(p).saturating_add(1);
            before.saturating_add(count_expression(e))
        }
        RGoal::Not(inner) => count_goal(inner.get()).saturating_add(1),
        RGoal::All(goals) => count_goals(goals.as_slice()).saturating_add(1),
    }
}

#[cycle(goals)]
fn count_goals(goals: &[RGoal]) -> u64
    ensures { result ≡ min (sum_by goal_size goals.now) (2 ^ 64 - 1) }
{
    let mut count = 0u64;
    for goal in goals {
        count = count.saturating_add(count_goal(goal));
    }
    count
}

fn count_rule(rule: &RRule) -> u64
    ensures { result ≡ min (rule_size rule.now) (2 ^ 64 - 1) }
{
    let before = count_patterns(rule.inputs.as_slice());
    let before = before.saturating_add(count_goals(rule.goals.as_slice()));
    before.saturating_add(count_expressions(rule.results.as_slice()))
}

fn is_small(rule: &RRule) -> bool
    ensures { result ≡ rule_is_small rule.now }
{
    let count = count_rule(rule);
    0 < rule.tokens && (count <= u64::from(rule.tokens) || count <= FEW_PARTS)
}

/// Whether each rule has at least one token, and no more parts than tokens or at most `FEW_PARTS`.
pub fn are_rules_small(rel: &RelDef) -> bool
    ensures { result ≡ relation_is_small rel.now }
{
    rel.rules.as_slice().iter().all(|rule| is_small(rule))
}

fn count_tokens(rel: &RelDef) -> u64
    ensures { result ≡ min (relation_tokens rel.now) (2 ^ 64 - 1) }
{
    let mut count = 0u64;
    for rule in rel.rules.as_slice() {
        count = count.saturating_add(u64::from(rule.tokens));
    }
    count
}

fn count_all_tokens(rels: &[RelDef]) -> u64
    ensures { result ≡ min (sum_by relation_tokens rels.now) (2 ^ 64 - 1) }
{
    let mut count = 0u64;
    for rel in rels {
        count = count.saturating_add(count_tokens(rel));
    }
    count
}

/// Whether a rule has as many tokens as the longest of the prelude's, or more.
pub fn is_one_long(rels: &[RelDef]) -> bool
    ensures { result ≡ has_long_rule rels.now }
{
    PRELUDE_TOKENS <= longest(rels)
}

fn count_vals(vals: &[ValDef]) -> u64
    ensures { result ≡ min (sum_by val_size vals.now) (2 ^ 64 - 1) }
{
    let mut count = 0u64;
    for val in vals {
        count = count.saturating_add(count_expression(&val.value));
    }
    count
}

/// Whether the tokens of all rules and the expressions in all vals are together fewer than `WEIGHT`.
pub fn are_light(vals: &[ValDef], rels: &[RelDef]) -> bool
    ensures { result ≡ is_light vals.now rels.now }
{
    count_all_tokens(rels).saturating_add(count_vals(vals)) < WEIGHT
}
