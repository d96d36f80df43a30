//! What variables stand for.

ghost use Rattle.std.specs.Prelude.{◌≡◌, IfOk};
ghost use Rattle.std.specs.Option.{option_copied};
ghost use Rattle.rml_terms.specs.Env.{bind as bound, look};

use rml_base::Memory;
use rml_terms::{Binding, Env};
use rml_value::{Value, copy};
use sqlite_items::Items;
use std::alloc::Global;

/// What a variable stands for: what was bound to it first. None where nothing was.
pub fn find(x: u32, env: &[Binding]) -> Option<&Value>
    ensures { option_copied result ≡ look x env.now }
{
    for bound in env {
        if x == bound.var {
            return Some(&bound.value);
        }
    }
    None
}

/// A copy of what a variable stands for. The only error is want of memory.
pub fn found(alloc: Global, x: u32, env: &[Binding]) -> Result<Option<Value>, Memory>
    ensures { IfOk result (λ v. v ≡ look x env.now) }
{
    match find(x, env) {
        Some(value) => Ok(Some(copy(alloc, value)?)),
        None => Ok(None),
    }
}

/// A variable more, which stands for a copy of the value. The only error is want of memory.
pub fn bind(alloc: Global, x: u32, value: &Value, env: Env) -> Result<Env, Memory>
    ensures { IfOk result (λ next. next ≡ bound x value.now env) }
{
    let mut env = env;
    let value = copy(alloc, value)?;
    env.push(Binding { var: x, value })?;
    Ok(env)
}

/// The only error is want of memory.
pub fn copy_env(alloc: Global, env: &[Binding]) -> Result<Env, Memory>
    ensures { IfOk result (λ all. all ≡ env.now) }
{
    let mut all = Items::new(alloc);
    for bound in env {
        let value = copy(alloc, &bound.value)?;
        all.push(Binding {
            var: bound.var,
            value,
        })?;
    }
    Ok(all)
}
