//! The arguments of built-ins, by their kinds.

ghost use Rattle.std.specs.Prelude.{◌≡◌, IfOk, Some};
ghost use Rattle.std.specs.Option.{option_copied};
ghost use Rattle.rml_value.specs.Lists.{items_of as items_of_value};
ghost use Rattle.rml_builtin.specs.Arguments.{one, two, int_of, char_of, chars_in, chars_of};

use rml_base::{Bytes, Memory};
use rml_value::{Value, Values, items_of};
use std::alloc::Global;

/// One argument that is an integer.
pub fn one_int(args: &[Value]) -> Option<i64>
    ensures { result ≡ one int_of args.now }
{
    match args {
        [Value::Int(n)] => Some(*n),
        _ => None,
    }
}

/// One argument that is a character.
pub fn one_char(args: &[Value]) -> Option<u8>
    ensures { result ≡ one char_of args.now }
{
    match args {
        [Value::Char(c)] => Some(*c),
        _ => None,
    }
}

/// Two arguments that are integers.
pub fn two_ints(args: &[Value]) -> Option<(i64, i64)>
    ensures { result ≡ two int_of int_of args.now }
{
    match args {
        [Value::Int(m), Value::Int(n)] => Some((*m, *n)),
        _ => None,
    }
}

/// The items of one argument that is a list.
pub fn one_list(alloc: Global, args: &[Value]) -> Result<Option<Values>, Memory>
    ensures { IfOk result (λ items. items ≡ one items_of_value args.now) }
{
    match args {
        [list] => items_of(alloc, list),
        _ => Ok(None),
    }
}

fn chars(alloc: Global, values: &[Value]) -> Result<Option<Bytes>, Memory>
    ensures { IfOk result (λ cs. cs ≡ chars_in values.now) }
{
    let mut all = Vec::new(alloc);
    for value in values {
        match value {
            Value::Char(c) => all.push(*c)?,
            _ => return Ok(None),
        }
    }
    Ok(Some(Bytes::of(all)))
}

/// The characters of one argument that is a list of characters.
pub fn one_list_of_chars(alloc: Global, args: &[Value]) -> Result<Option<Bytes>, Memory>
    ensures { IfOk result (λ cs. cs ≡ one chars_of args.now) }
{
    match args {
        [list] => match items_of(alloc, list)? {
            Some(items) => chars(alloc, items.as_slice()),
            None => Ok(None),
        },
        _ => Ok(None),
    }
}
