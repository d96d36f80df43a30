//! Lists taken apart a cell at a time, and put together from a chain.

ghost use Rattle.std.specs.Prelude.{◌≡◌, [], IfOk};
ghost use Rattle.rml_value.specs.declared.value.Value.{out-Value};
ghost use Rattle.rml_value.specs.declared.value.TheConstants as constants;
ghost use Rattle.rml_terms.specs.Matching.{match_con};
ghost use Rattle.rml_terms.specs.Evaluating.{chain_of as chain_of_values};
ghost use Rattle.rml_evaluation.specs.Lists.{parts_at, head_of, tail_of};

use rml_base::Memory;
use rml_terms::{Env, Matched};
use rml_value::{CONS, NIL, Value, Values, list_onto};
use std::alloc::Global;

/// Whether a value has a head and a tail.
#[derive(Clone, Copy)]
pub enum ListParts {
    HeadAndTail,
    /// Another constructor.
    Other,
    /// No constructor, or `::` without its two arguments, which typing rules out.
    Wrong,
}

/// Whether a value is a cell of a list.
pub fn parts(value: &Value) -> ListParts
    ensures { result ≡ parts_at (out-Value value.now) }
{
    match value {
        Value::Con(c, vs) => {
            if *c != CONS {
                ListParts::Other
            } else if vs.len() == 2 {
                ListParts::HeadAndTail
            } else {
                ListParts::Wrong
            }
        }
        _ => ListParts::Wrong,
    }
}

/// The head of a value that has one; any other value is given back.
pub fn head(value: &Value) -> &Value
    ensures { result.now ≡ head_of value.now }
{
    match value {
        Value::Con(_, vs) => match vs.as_slice() {
            [head, _] => head,
            _ => value,
        },
        _ => value,
    }
}

/// The tail of a value that has one; any other value is given back.
pub fn tail(value: &Value) -> &Value
    ensures { result.now ≡ tail_of value.now }
{
    match value {
        Value::Con(_, vs) => match vs.as_slice() {
            [_, tail] => tail,
            _ => value,
        },
        _ => value,
    }
}

/// The end of a list against a value.
pub fn match_end(value: &Value, env: Env) -> Matched
    ensures { result ≡ match_con constants.NIL [] value.now env }
{
    match value {
        Value::Con(c, vs) => {
            if *c != NIL {
                Matched::No
            } else if vs.is_empty() {
                Matched::Yes(env)
            } else {
                Matched::Wrong
            }
        }
        _ => Matched::Wrong,
    }
}

/// A chain of `::`, whose last item is the tail. None where there is no item. The only error is want of memory.
#[tactic(auto, using(crate::proofs::Chains::chain_of_append))]
pub fn chain_of(alloc: Global, values: Values) -> Result<Option<Value>, Memory>
    ensures { IfOk result (λ v. v ≡ chain_of_values values) }
{
    let mut values = values;
    match values.pop() {
        None => Ok(None),
        Some(tail) => {
            let chain = list_onto(alloc, values, tail)?;
            Ok(Some(chain))
        }
    }
}
