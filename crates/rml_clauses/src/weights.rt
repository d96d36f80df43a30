//! How much the tables of a program in clause form weigh. A count stands still at the end of its type.

ghost use Rattle.std.specs.Prelude.{◌≡◌, ◌<◌, ◌^◌, ◌+◌, ◌-◌, min, sum_by};
ghost use Rattle.rml_fol.specs.Size.{nodes, weight_of};

use rml_fol::{Expression, Relation, Val};
use rml_resolved::RRule;

/// The tokens of rules, of which there are few enough.
pub fn tokens_of(rules: &[RRule]) -> u32
    requires { sum_by (λ r. r.tokens) rules.now < 2 ^ 32 }
    ensures { result ≡ sum_by (λ r. r.tokens) rules.now }
{
    let mut tokens = 0;
    for rule in rules {
        tokens += rule.tokens;
    }
    tokens
}

#[cycle(expressions)]
fn count_nodes(expression: &Expression) -> u64
    ensures { result ≡ min (nodes expression.now) (2 ^ 64 - 1) }
{
    match expression {
        Expression::Lit(_) => 1,
        Expression::Var(_) => 1,
        Expression::Val(_) => 1,
        Expression::Rel(_) => 1,
        Expression::Con(_, es) => count_all_nodes(es.as_slice()).saturating_add(1),
        Expression::Tuple(es) => count_all_nodes(es.as_slice()).saturating_add(1),
        Expression::List(es) => count_all_nodes(es.as_slice()).saturating_add(1),
        Expression::Cons(es) => count_all_nodes(es.as_slice()).saturating_add(1),
    }
}

#[cycle(expressions)]
fn count_all_nodes(expressions: &[Expression]) -> u64
    ensures { result ≡ min (sum_by nodes expressions.now) (2 ^ 64 - 1) }
{
    let mut count = 0u64;
    for expression in expressions {
        count = count.saturating_add(count_nodes(expression));
    }
    count
}

fn count_vals(vals: &[Val]) -> u64
    ensures { result ≡ min (sum_by (λ v. nodes v.value) vals.now) (2 ^ 64 - 1) }
{
    let mut count = 0u64;
    for val in vals {
        count = count.saturating_add(count_nodes(&val.value));
    }
    count
}

fn count_relations(rels: &[Relation]) -> u64
    ensures { result ≡ min (sum_by (λ r. r.tokens) rels.now) (2 ^ 64 - 1) }
{
    let mut count = 0u64;
    for relation in rels {
        count = count.saturating_add(u64::from(relation.tokens));
    }
    count
}

/// The tokens of all rules and the expressions in all vals.
pub fn weight(vals: &[Val], rels: &[Relation]) -> u64
    ensures { result ≡ min (weight_of vals.now rels.now) (2 ^ 64 - 1) }
{
    count_relations(rels).saturating_add(count_vals(vals))
}
