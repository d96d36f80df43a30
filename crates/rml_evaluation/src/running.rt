//! What `main` is called with, and what its answer is to who ran it.

ghost use Rattle.std.specs.Prelude.{◌≡◌, IfOk, map};
ghost use Rattle.rml_simulation.specs.Partial.{trace_of};
ghost use Rattle.rml_value.specs.declared.value.Value.TheVariants as value;
ghost use Rattle.rml_terms.specs.Running.{integer_in, argument as argument_of};

use crate::literals::text_value;
use rml_base::{Bytes, Memory};
use rml_simulation::{Partial, Trace};
use rml_value::{Value, Values, list_of};
use sqlite_items::Items;
use std::alloc::Global;

fn texts(alloc: Global, args: &[Bytes]) -> Result<Values, Memory>
    ensures { IfOk result (λ vs. vs ≡ map value.Text args.now) }
{
    let mut texts = Items::new(alloc);
    for arg in args {
        texts.push(text_value(alloc, arg.as_slice())?)?;
    }
    Ok(texts)
}

/// The list of the arguments, as texts. The only error is want of memory.
pub fn argument(alloc: Global, args: &[Bytes]) -> Result<Value, Memory>
    ensures { IfOk result (λ v. v ≡ argument_of args.now) }
{
    let texts = texts(alloc, args)?;
    list_of(alloc, texts)
}

/// The integer that one result is. None where there are none or several, or one that is no integer.
pub fn integer(values: &[Value]) -> Option<i64>
    ensures { result ≡ integer_in values.now }
{
    match values {
        [Value::Int(n)] => Some(*n),
        _ => None,
    }
}

/// What a part printed, made and weighed.
pub fn trace<A>(part: &Partial<A>) -> &Trace
    ensures { result.now ≡ trace_of part.now }
{
    match part {
        Partial::Yes(_, trace, _) => trace,
        Partial::No(trace, _) => trace,
        Partial::CutOff(trace) => trace,
        Partial::GoneWrong(trace) => trace,
    }
}
