//! Rules as alternatives, and the body of a relation.

ghost use Rattle.std.specs.Prelude.{◌≡◌, ◌-◌, ◌^◌, All, IfOk, IsTrue, length};
ghost use Rattle.std.specs.List.{list_all};
ghost use Rattle.rml_clause.specs.Within.{rule_within};
ghost use Rattle.rml_clause.specs.Clauses.{IsBlock, AreClauses, HasRoom};

use super::making::Making;
use super::premises::{match_each, places, premises};
use rml_base::{Bytes, Memory};
use rml_fol::{Alternative, Block, Stmt};
use rml_resolved::RRule;
use sqlite_items::Items;
use std::alloc::Global;

/// The clauses of a relation.
#[derive(Drop)]
pub struct Clauses {
    pub body: Block,
    /// How many variables they have: each is a number below this.
    pub vars: u32,
}

/// A rule: the matches of its head, its premises, the sets of its results, and what it gives.
fn block_of(alloc: Global, names: &[Bytes], params: u32, rule: &RRule) -> Result<Making, Memory>
    requires within { IsTrue (rule_within (2 ^ 32 - params) rule.now) }
    requires counted { length rule.now.inputs ≡ params }
    requires room { HasRoom params rule.now }
    ensures { IfOk result (λ m. IsBlock names.now params rule.now m) }
{
    let mut making = Making::new(alloc, params + rule.vars);
    match_each(alloc, names, params, rule.inputs.as_slice(), 0, &mut making)?;
    premises(alloc, names, params, rule.goals.as_slice(), &mut making)?;
    let results = places(alloc, names, params, rule.results.as_slice(), &mut making)?;
    making.add(Stmt::Give(results))?;
    Ok(making)
}

/// The clauses of a relation with so many parameters: an alternative for each rule, in order.
pub fn clauses_of_relation(
    alloc: Global,
    names: &[Bytes],
    params: u32,
    rules: &[RRule],
) -> Result<Clauses, Memory>
    requires within { IsTrue (list_all (rule_within (2 ^ 32 - params)) rules.now) }
    requires counted { All (λ r. length r.inputs ≡ params) rules.now }
    requires room { All (HasRoom params) rules.now }
    ensures { IfOk result (λ c. AreClauses names.now params rules.now c.body c.vars) }
{
    let mut alternatives = Items::new(alloc);
    let mut vars = params;
    for rule in rules {
        let Making { stmts, next } = block_of(alloc, names, params, rule)?;
        alternatives.push(Alternative { block: stmts })?;
        vars = vars.max(next);
    }
    let mut body = Items::new(alloc);
    body.push(Stmt::Or(alternatives))?;
    Ok(Clauses { body, vars })
}
