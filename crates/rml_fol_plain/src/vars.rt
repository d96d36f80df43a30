//! Variables in a row.

ghost use Rattle.std.specs.Prelude.{◌≡◌, IfOk};
ghost use Rattle.rml_fol.specs.Statements.{bindings_of as bindings_in, values_of as values_by, bind_all as all_bound};
ghost use Rattle.rml_terms.specs.Env.{values_in as env_values};
ghost use Rattle.rml_fol.specs.Relations.{bound_from as numbered_from};

use rml_base::Memory;
use rml_evaluation::found;
use rml_terms::{Binding, Env};
use rml_value::{Value, Values, copy};
use sqlite_items::Items;
use std::alloc::Global;

/// Variables with what they stand for. None where one stands for nothing. The only error is want of memory.
pub fn bindings_of(alloc: Global, xs: &[u32], env: &[Binding]) -> Result<Option<Env>, Memory>
    ensures { IfOk result (λ all. all ≡ bindings_in xs.now env.now) }
{
    let mut all = Items::new(alloc);
    for x in xs {
        match found(alloc, *x, env)? {
            None => return Ok(None),
            Some(value) => all.push(Binding { var: *x, value })?,
        }
    }
    Ok(Some(all))
}

/// What the variables of an environment stand for. The only error is want of memory.
pub fn values_in(alloc: Global, env: &[Binding]) -> Result<Values, Memory>
    ensures { IfOk result (λ vs. vs ≡ env_values env.now) }
{
    let mut all = Items::new(alloc);
    for bound in env {
        all.push(copy(alloc, &bound.value)?)?;
    }
    Ok(all)
}

/// What variables stand for. None where one stands for nothing. The only error is want of memory.
pub fn values_of(alloc: Global, xs: &[u32], env: &[Binding]) -> Result<Option<Values>, Memory>
    ensures { IfOk result (λ vs. vs ≡ values_by xs.now env.now) }
{
    match bindings_of(alloc, xs, env)? {
        None => Ok(None),
        Some(all) => Ok(Some(values_in(alloc, all.as_slice())?)),
    }
}

/// As many values are bound to variables. None where they differ in number. The only error is want of memory.
pub fn bind_all(
    alloc: Global,
    xs: &[u32],
    values: &[Value],
    env: Env,
) -> Result<Option<Env>, Memory>
    ensures { IfOk result (λ next. next ≡ all_bound xs.now values.now env) }
{
    if xs.len() != values.len() {
        return Ok(None);
    }
    let mut env = env;
    for (i, x) in xs.iter().enumerate() {
        let value = copy(alloc, &values[i])?;
        env.push(Binding { var: *x, value })?;
    }
    Ok(Some(env))
}

/// The parameters of a relation: its first variables, as many as there are values. The only error is want of memory; more than
/// 2^32 values are answered as that.
pub fn parameters(alloc: Global, values: &[Value]) -> Result<Env, Memory>
    ensures { IfOk result (λ env. env ≡ numbered_from 0 values.now) }
{
    let mut env = Items::new(alloc);
    let mut var = 0_u32;
    for value in values {
        let value = copy(alloc, value)?;
        env.push(Binding { var, value })?;
        var = var.checked_add(1).ok_or(Memory)?;
    }
    Ok(env)
}
