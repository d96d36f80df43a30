//! The rows over texts and their characters. Arguments of other kinds are Wrong.

ghost use Rattle.std.specs.Prelude.{◌≡◌, IfOk, map};
ghost use Rattle.rml_value.specs.declared.value.Value.TheVariants as value;
ghost use Rattle.rml_builtin.specs.BuiltIns.{apply};
ghost use Rattle.rml_builtin.specs.Texts.{char_from, nth_char, printed};

use crate::answers::{answer_one, length_in_range};
use crate::applied::{Answer, Applied, Store};
use crate::arguments::{one_char, one_int, one_list_of_chars};
use crate::decimal::{read_int, write_int};
use crate::row::Row;
use rml_base::{Bytes, Memory};
use rml_value::{Value, Values, list_of};
use sqlite_items::{Items, at};
use std::alloc::Global;

/// The decimal of an integer.
pub fn written(alloc: Global, args: &[Value], store: Store) -> Result<Applied, Memory>
    ensures { IfOk result (λ g. g ≡ apply Row.IntString args.now store) }
{
    match one_int(args) {
        Some(n) => answer_one(alloc, Value::Text(write_int(alloc, n)?), store),
        None => Ok(Applied::Wrong),
    }
}

/// The integer that a text writes, or no answer where it writes none.
pub fn read(alloc: Global, args: &[Value], store: Store) -> Result<Applied, Memory>
    ensures { IfOk result (λ g. g ≡ apply Row.StringInt args.now store) }
{
    match args {
        [Value::Text(text)] => match read_int(text.as_slice()) {
            Some(n) => answer_one(alloc, Value::Int(n), store),
            None => Ok(Applied::No),
        },
        _ => Ok(Applied::Wrong),
    }
}

fn char_of(alloc: Global, n: i64, store: Store) -> Result<Applied, Memory>
    ensures { IfOk result (λ g. g ≡ char_from n store) }
{
    if 0 <= n && n <= 255 {
        answer_one(alloc, Value::Char(n as u8), store)
    } else {
        Ok(Applied::No)
    }
}

/// The character of a number, or no answer for a number that is not from 0 to 255.
pub fn character(alloc: Global, args: &[Value], store: Store) -> Result<Applied, Memory>
    ensures { IfOk result (λ g. g ≡ apply Row.IntChar args.now store) }
{
    match one_int(args) {
        Some(n) => char_of(alloc, n, store),
        None => Ok(Applied::Wrong),
    }
}

/// The number of a character.
pub fn code(alloc: Global, args: &[Value], store: Store) -> Result<Applied, Memory>
    ensures { IfOk result (λ g. g ≡ apply Row.CharInt args.now store) }
{
    match one_char(args) {
        Some(c) => answer_one(alloc, Value::Int(i64::from(c)), store),
        None => Ok(Applied::Wrong),
    }
}

/// How many characters a text has, or no answer out of range.
pub fn length(alloc: Global, args: &[Value], store: Store) -> Result<Applied, Memory>
    ensures { IfOk result (λ g. g ≡ apply Row.StringLength args.now store) }
{
    match args {
        [Value::Text(text)] => length_in_range(alloc, text.as_slice().len(), store),
        _ => Ok(Applied::Wrong),
    }
}

fn char_at(alloc: Global, text: &[u8], n: i64, store: Store) -> Result<Applied, Memory>
    ensures { IfOk result (λ g. g ≡ nth_char text.now n store) }
{
    if n < 0 {
        return Ok(Applied::No);
    }
    match at(text, n as usize) {
        None => Ok(Applied::No),
        Some(c) => answer_one(alloc, Value::Char(*c), store),
    }
}

/// The character of a text at an index, from 0, or no answer outside.
pub fn nth(alloc: Global, args: &[Value], store: Store) -> Result<Applied, Memory>
    ensures { IfOk result (λ g. g ≡ apply Row.StringNth args.now store) }
{
    match args {
        [Value::Text(text), Value::Int(n)] => char_at(alloc, text.as_slice(), *n, store),
        _ => Ok(Applied::Wrong),
    }
}

/// One text and then another.
pub fn joined(alloc: Global, args: &[Value], store: Store) -> Result<Applied, Memory>
    ensures { IfOk result (λ g. g ≡ apply Row.StringAppend args.now store) }
{
    match args {
        [Value::Text(first), Value::Text(second)] => {
            let mut text = Vec::from_slice(alloc, first.as_slice())?;
            text.extend_from_slice(second.as_slice())?;
            answer_one(alloc, Value::Text(Bytes::of(text)), store)
        }
        _ => Ok(Applied::Wrong),
    }
}

fn chars_of(alloc: Global, text: &[u8]) -> Result<Values, Memory>
    ensures { IfOk result (λ vs. vs ≡ map value.Char text.now) }
{
    let mut all = Items::new(alloc);
    for c in text {
        all.push(Value::Char(*c))?;
    }
    Ok(all)
}

/// The list of the characters of a text.
pub fn characters(alloc: Global, args: &[Value], store: Store) -> Result<Applied, Memory>
    ensures { IfOk result (λ g. g ≡ apply Row.StringList args.now store) }
{
    match args {
        [Value::Text(text)] => {
            let characters = chars_of(alloc, text.as_slice())?;
            answer_one(alloc, list_of(alloc, characters)?, store)
        }
        _ => Ok(Applied::Wrong),
    }
}

/// The text of a list of characters.
pub fn text(alloc: Global, args: &[Value], store: Store) -> Result<Applied, Memory>
    ensures { IfOk result (λ g. g ≡ apply Row.ListString args.now store) }
{
    match one_list_of_chars(alloc, args)? {
        Some(text) => answer_one(alloc, Value::Text(text), store),
        None => Ok(Applied::Wrong),
    }
}

fn with_text(alloc: Global, text: &[u8], store: Store) -> Result<Applied, Memory>
    ensures { IfOk result (λ g. g ≡ printed text.now store) }
{
    let answer = Answer {
        values: Items::new(alloc),
        store,
    };
    Ok(Applied::Yes(answer, Bytes::of(Vec::from_slice(alloc, text)?)))
}

/// No result; it prints a text.
pub fn print(alloc: Global, args: &[Value], store: Store) -> Result<Applied, Memory>
    ensures { IfOk result (λ g. g ≡ apply Row.Print args.now store) }
{
    match args {
        [Value::Text(text)] => with_text(alloc, text.as_slice(), store),
        _ => Ok(Applied::Wrong),
    }
}
