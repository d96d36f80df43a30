//! Blocks and their statements as text. Blocks may be nested deeper than a stack is deep, so what is still to be written waits in a
//! list, and is taken from it piece by piece.

ghost use Rattle.std.specs.Prelude.{◌≡◌, ◌+◌, ◌*◌, ◌<◌, ◌≤◌, ◌++◌, OnOk, codes, length, map, sum_by};
ghost use Rattle.rml_fol.specs.declared.parts.Parts.{Parts};
ghost use Rattle.rml_fol.specs.Size.{size};
ghost use Rattle.rml_fol.specs.Text.{line, deeper, stmt_lines};
ghost use Rattle.rml_fol.specs.Waiting.{waiting_lines, stmts_lines, alternatives_lines, cases_lines, all_waiting_lines, work, block_work, alternatives_work, cases_work};

use crate::lines::{
    write_body, write_built_in, write_call, write_case, write_equal, write_give, write_line,
    write_match, write_set, write_switch,
};
use crate::parts::Parts;
use crate::statements::{Alternative, Case, Stmt};
use rml_base::Memory;
use std::alloc::Global;

/// What is still to be written, behind so many blanks.
#[derive(Drop)]
pub enum Waiting<'a> {
    Stmts(&'a [Stmt], u64),
    Alternatives(&'a [Alternative], u64),
    Cases(&'a [Case], u64),
    /// A line of words, and the block that is deeper than it.
    Under(&'static [u8], &'a [Stmt], u64),
}

/// Lets this wait, to be written before what waits already.
fn wait<'a>(next: Waiting<'a>, waiting: &mut Vec<Waiting<'a>>) -> Result<(), Memory>
    ensures lines { OnOk result ((p : Parts) → all_waiting_lines p waiting.new.items ≡ waiting_lines p next.entry ++ all_waiting_lines p waiting.old.items) }
    ensures work { OnOk result (sum_by work waiting.new.items ≡ work next.entry + sum_by work waiting.old.items) }
{
    waiting.push(next)?;
    Ok(())
}

/// Lets a block wait that is deeper than a line. That is written, so its blanks are far from too many.
fn wait_deeper<'a>(
    out: &Vec<u8>,
    block: &'a [Stmt],
    indent: u64,
    waiting: &mut Vec<Waiting<'a>>,
) -> Result<(), Memory>
    requires { indent ≤ length out.now.items }
    ensures lines { OnOk result ((p : Parts) → all_waiting_lines p waiting.new.items ≡ stmts_lines p block.now (indent + 2) ++ all_waiting_lines p waiting.old.items) }
    ensures work { OnOk result (sum_by work waiting.new.items ≡ block_work block.now + sum_by work waiting.old.items) }
{
    wait(Waiting::Stmts(block, indent + 2), waiting)
}

/// The three blocks of a `cond`.
fn write_cond<'a>(
    out: &mut Vec<u8>,
    first: &'a [Stmt],
    second: &'a [Stmt],
    third: &'a [Stmt],
    indent: u64,
    waiting: &mut Vec<Waiting<'a>>,
) -> Result<(), Memory>
    ensures lines { OnOk result ((p : Parts) → out.new.items ++ all_waiting_lines p waiting.new.items ≡ (out.old.items ++ (line indent (codes "cond") ++ deeper (map (stmt_lines p) first.now) indent ++ line indent (codes "then") ++ deeper (map (stmt_lines p) second.now) indent ++ line indent (codes "else") ++ deeper (map (stmt_lines p) third.now) indent)) ++ all_waiting_lines p waiting.old.items) }
    ensures work { OnOk result (sum_by work waiting.new.items < 8 * (1 + sum_by size first.now + sum_by size second.now + sum_by size third.now) + sum_by work waiting.old.items) }
{
    write_line(out, indent, b"cond")?;
    wait(Waiting::Under(b"else", third, indent), waiting)?;
    wait(Waiting::Under(b"then", second, indent), waiting)?;
    wait_deeper(out, first, indent, waiting)?;
    Ok(())
}

/// A statement: its line, and its blocks wait.
fn write_stmt<'a>(
    alloc: Global,
    out: &mut Vec<u8>,
    parts: &Parts,
    stmt: &'a Stmt,
    indent: u64,
    waiting: &mut Vec<Waiting<'a>>,
) -> Result<(), Memory>
    ensures lines { OnOk result (out.new.items ++ all_waiting_lines parts.now waiting.new.items ≡ (out.old.items ++ stmt_lines parts.now stmt.now indent) ++ all_waiting_lines parts.now waiting.old.items) }
    ensures work { OnOk result (sum_by work waiting.new.items < 8 * size stmt.now + sum_by work waiting.old.items) }
{
    match stmt {
        Stmt::Match(x, pattern) => write_match(alloc, out, parts, indent, *x, pattern),
        Stmt::Set(x, expression) => write_set(alloc, out, parts, indent, *x, expression),
        Stmt::Call(callee, xs, ys) => {
            write_call(
                alloc,
                out,
                parts,
                indent,
                *callee,
                xs.as_slice(),
                ys.as_slice(),
            )
        }
        Stmt::Builtin(number, xs, ys) => {
            write_built_in(alloc, out, indent, *number, xs.as_slice(), ys.as_slice())
        }
        Stmt::Equal(x, y) => write_equal(alloc, out, indent, *x, *y),
        Stmt::Not(block) => {
            write_line(out, indent, b"not")?;
            wait_deeper(out, block.as_slice(), indent, waiting)
        }
        Stmt::Or(alternatives) => {
            write_line(out, indent, b"or")?;
            wait(
                Waiting::Alternatives(alternatives.as_slice(), indent),
                waiting,
            )
        }
        Stmt::Cond(first, second, third) => {
            write_cond(
                out,
                first.as_slice(),
                second.as_slice(),
                third.as_slice(),
                indent,
                waiting,
            )
        }
        Stmt::Switch(x, cases, otherwise) => {
            write_switch(alloc, out, indent, *x)?;
            wait(
                Waiting::Under(b"else", otherwise.as_slice(), indent),
                waiting,
            )?;
            wait(Waiting::Cases(cases.as_slice(), indent), waiting)
        }
        Stmt::Body(j, xs, block) => {
            write_body(alloc, out, indent, b"body ", *j, xs.as_slice())?;
            wait_deeper(out, block.as_slice(), indent, waiting)
        }
        Stmt::Goto(j, xs) => write_body(alloc, out, indent, b"goto ", *j, xs.as_slice()),
        Stmt::Give(xs) => write_give(alloc, out, indent, xs.as_slice()),
        Stmt::Fail => write_line(out, indent, b"fail"),
    }
}

/// The first of some statements, and the others wait.
fn write_first_stmt<'a>(
    alloc: Global,
    out: &mut Vec<u8>,
    parts: &Parts,
    stmts: &'a [Stmt],
    indent: u64,
    waiting: &mut Vec<Waiting<'a>>,
) -> Result<(), Memory>
    ensures lines { OnOk result (out.new.items ++ all_waiting_lines parts.now waiting.new.items ≡ (out.old.items ++ stmts_lines parts.now stmts.now indent) ++ all_waiting_lines parts.now waiting.old.items) }
    ensures work { OnOk result (sum_by work waiting.new.items < block_work stmts.now + sum_by work waiting.old.items) }
{
    match stmts {
        [] => Ok(()),
        [first, rest @ ..] => {
            wait(Waiting::Stmts(rest, indent), waiting)?;
            write_stmt(alloc, out, parts, first, indent, waiting)
        }
    }
}

/// The first of some alternatives, and the others wait.
fn write_first_alternative<'a>(
    out: &mut Vec<u8>,
    alternatives: &'a [Alternative],
    indent: u64,
    waiting: &mut Vec<Waiting<'a>>,
) -> Result<(), Memory>
    ensures lines { OnOk result ((p : Parts) → out.new.items ++ all_waiting_lines p waiting.new.items ≡ (out.old.items ++ alternatives_lines p alternatives.now indent) ++ all_waiting_lines p waiting.old.items) }
    ensures work { OnOk result (sum_by work waiting.new.items < alternatives_work alternatives.now + sum_by work waiting.old.items) }
{
    match alternatives {
        [] => Ok(()),
        [first, rest @ ..] => {
            wait(Waiting::Alternatives(rest, indent), waiting)?;
            write_line(out, indent, b"alt")?;
            wait_deeper(out, first.block.as_slice(), indent, waiting)
        }
    }
}

/// The first of some cases, and the others wait.
fn write_first_case<'a>(
    alloc: Global,
    out: &mut Vec<u8>,
    parts: &Parts,
    cases: &'a [Case],
    indent: u64,
    waiting: &mut Vec<Waiting<'a>>,
) -> Result<(), Memory>
    ensures lines { OnOk result (out.new.items ++ all_waiting_lines parts.now waiting.new.items ≡ (out.old.items ++ cases_lines parts.now cases.now indent) ++ all_waiting_lines parts.now waiting.old.items) }
    ensures work { OnOk result (sum_by work waiting.new.items < cases_work cases.now + sum_by work waiting.old.items) }
{
    match cases {
        [] => Ok(()),
        [first, rest @ ..] => {
            wait(Waiting::Cases(rest, indent), waiting)?;
            write_case(alloc, out, parts, indent, &first.tag, first.vars.as_slice())?;
            wait_deeper(out, first.block.as_slice(), indent, waiting)
        }
    }
}

/// What comes next.
fn write_next<'a>(
    alloc: Global,
    out: &mut Vec<u8>,
    parts: &Parts,
    next: Waiting<'a>,
    waiting: &mut Vec<Waiting<'a>>,
) -> Result<(), Memory>
    ensures lines { OnOk result (out.new.items ++ all_waiting_lines parts.now waiting.new.items ≡ (out.old.items ++ waiting_lines parts.now next.entry) ++ all_waiting_lines parts.now waiting.old.items) }
    ensures work { OnOk result (sum_by work waiting.new.items < work next.entry + sum_by work waiting.old.items) }
{
    match next {
        Waiting::Stmts(stmts, indent) => {
            write_first_stmt(alloc, out, parts, stmts, indent, waiting)
        }
        Waiting::Alternatives(alternatives, indent) => {
            write_first_alternative(out, alternatives, indent, waiting)
        }
        Waiting::Cases(cases, indent) => write_first_case(
            alloc, out, parts, cases, indent, waiting,
        ),
        Waiting::Under(words, block, indent) => {
            write_line(out, indent, words)?;
            wait_deeper(out, block, indent, waiting)
        }
    }
}

/// Statements behind so many blanks, with the blocks inside them.
pub fn write_stmts(
    alloc: Global,
    out: &mut Vec<u8>,
    parts: &Parts,
    stmts: &[Stmt],
    indent: u64,
) -> Result<(), Memory>
    ensures { OnOk result (out.new.items ≡ out.old.items ++ stmts_lines parts.now stmts.now indent) }
{
    let mut waiting = Vec::new(alloc);
    waiting.push(Waiting::Stmts(stmts, indent))?;
    while let Some(next) = waiting.pop() {
        write_next(alloc, out, parts, next, &mut waiting)?;
    }
    Ok(())
}
