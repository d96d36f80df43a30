//! Literals against values.

ghost use Rattle.std.specs.Prelude.{◌≡◌, IfOk};
ghost use Rattle.rml_value.specs.declared.value.Value.{out-Value};
ghost use Rattle.rml_value.specs.declared.value.Value.TheVariants as value;
ghost use Rattle.rml_terms.specs.Matching.{when as when_holds, match_int as int_matched, match_char as char_matched, match_text as text_matched};

use rml_base::{Bytes, Memory};
use rml_terms::{Env, Matched};
use rml_value::Value;
use std::alloc::Global;

fn when(holds: bool, env: Env) -> Matched
    ensures { result ≡ when_holds holds env }
{
    if holds {
        Matched::Yes(env)
    } else {
        Matched::No
    }
}

/// An integer against a value, which is Wrong where it is of another kind.
pub fn match_int(n: i64, value: &Value, env: Env) -> Matched
    ensures { result ≡ int_matched n (out-Value value.now) env }
{
    match value {
        Value::Int(m) => when(n == *m, env),
        _ => Matched::Wrong,
    }
}

/// A character against a value, which is Wrong where it is of another kind.
pub fn match_char(c: u8, value: &Value, env: Env) -> Matched
    ensures { result ≡ char_matched c (out-Value value.now) env }
{
    match value {
        Value::Char(d) => when(c == *d, env),
        _ => Matched::Wrong,
    }
}

/// A text against a value, which is Wrong where it is of another kind.
pub fn match_text(bytes: &[u8], value: &Value, env: Env) -> Matched
    ensures { result ≡ text_matched bytes.now (out-Value value.now) env }
{
    match value {
        Value::Text(text) => when(bytes == text.as_slice(), env),
        _ => Matched::Wrong,
    }
}

/// The text of these bytes. The only error is want of memory.
pub fn text_value(alloc: Global, bytes: &[u8]) -> Result<Value, Memory>
    ensures { IfOk result (λ v. v ≡ value.Text bytes.now) }
{
    let bytes = Vec::from_slice(alloc, bytes)?;
    Ok(Value::Text(Bytes::of(bytes)))
}
