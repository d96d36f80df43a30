//! Lines that are being made, of which the last is the first, and the numbers that are not used yet.

ghost use Rattle.std.specs.Prelude.{◌≡◌, [], ◌∷◌, ◌++◌, IfOk, OnOk, reverse, length};
ghost use Rattle.rml_fol.specs.declared.statements.Tag.TheVariants as tag;
ghost use Rattle.rml_conversion.specs.Hand.{hand, one_variable, more_variables, one_name, only, tested};

use rml_base::Memory;
use rml_cps::{Block, Case, Continuation, Stmt};
use rml_fol::Tag;
use rml_tocps::Numbers;
use sqlite_items::Items;
use std::alloc::Global;
use std::mem;

/// Takes what is made, as a block in the order in which it is read; nothing is in hand then.
pub fn closed(alloc: Global, made: &mut Vec<Stmt>) -> Block
    ensures block { result ≡ reverse made.old.items }
    ensures nothing { made.new.items ≡ [] }
{
    let mut lines = mem::replace(made, Vec::new(alloc));
    lines.reverse();
    Items::from_vec(lines)
}

/// One line in front of what is made.
pub fn put(line: Stmt, made: &mut Vec<Stmt>) -> Result<(), Memory>
    ensures { OnOk result (made.new.items ≡ made.old.items ++ line ∷ []) }
{
    made.push(line)?;
    Ok(())
}

/// A line that nothing follows.
pub fn only_line(alloc: Global, line: Stmt, made: &mut Vec<Stmt>) -> Result<(), Memory>
    ensures { OnOk result (made.new.items ≡ line ∷ []) }
{
    *made = Vec::new(alloc);
    made.push(line)?;
    Ok(())
}

/// What is made goes on where a variable has this tag; else the failure follows.
pub fn test(
    alloc: Global,
    tag: Tag,
    x: u32,
    failure: Continuation,
    numbers: Numbers,
    made: &mut Vec<Stmt>,
) -> Result<(), Memory>
    ensures { OnOk result (hand made.new.items numbers ≡ tested tag x failure (hand made.old.items numbers)) }
{
    let block = closed(alloc, made);
    let mut otherwise = Items::new(alloc);
    otherwise.push(Stmt::Fail(failure))?;
    let mut cases = Items::new(alloc);
    cases.push(Case { tag, block })?;
    only_line(alloc, Stmt::Switch(x, cases, otherwise), made)
}

/// How many there are. With more than there are numbers there is no room in memory.
pub fn counted<T>(items: &[T]) -> Result<u32, Memory>
    ensures { IfOk result (λ n. n ≡ length items.now) }
{
    match u32::try_from(items.len()) {
        Ok(count) => Ok(count),
        Err(_) => Err(Memory),
    }
}

/// One more variable. A relation with more than there are numbers has no room in memory.
pub fn fresh(numbers: &mut Numbers) -> Result<u32, Memory>
    ensures value { IfOk result (λ x. x ≡ numbers.old.variable) }
    ensures next { OnOk result (numbers.new ≡ one_variable numbers.old) }
{
    let variable = numbers.variable;
    match variable.checked_add(1) {
        None => Err(Memory),
        Some(next) => {
            numbers.variable = next;
            Ok(variable)
        }
    }
}

/// As many more variables in a row: the first of them.
pub fn fresh_row(numbers: &mut Numbers, count: u32) -> Result<u32, Memory>
    ensures value { IfOk result (λ x. x ≡ numbers.old.variable) }
    ensures next { OnOk result (numbers.new ≡ more_variables count numbers.old) }
{
    let first = numbers.variable;
    match first.checked_add(count) {
        None => Err(Memory),
        Some(next) => {
            numbers.variable = next;
            Ok(first)
        }
    }
}

/// The number of one more continuation.
pub fn fresh_name(numbers: &mut Numbers) -> Result<u32, Memory>
    ensures value { IfOk result (λ n. n ≡ numbers.old.name) }
    ensures next { OnOk result (numbers.new ≡ one_name numbers.old) }
{
    let name = numbers.name;
    match name.checked_add(1) {
        None => Err(Memory),
        Some(next) => {
            numbers.name = next;
            Ok(name)
        }
    }
}
