//! What is made, a statement after another in brackets.

use rml_base::Memory;
use rml_cps::{Case, Continuation, Stmt};
use rml_fol::{Callee, Expression, Literal, Tag};
use std::alloc::Global;

fn write_continuation(
    alloc: Global,
    out: &mut String,
    letter: &str,
    c: Continuation,
) -> Result<(), Memory> {
    let text = match c {
        Continuation::Own => format!(in alloc; "{letter}")?,
        Continuation::Named(n) => format!(in alloc; "{letter}{n}")?,
    };
    out.push_str(&text)?;
    Ok(())
}

fn write_vars(alloc: Global, out: &mut String, xs: &[u32]) -> Result<(), Memory> {
    for x in xs {
        let text = format!(in alloc; " {x}")?;
        out.push_str(&text)?;
    }
    Ok(())
}

fn write_tag(alloc: Global, out: &mut String, tag: &Tag) -> Result<(), Memory> {
    let text = match tag {
        Tag::Con(c) => format!(in alloc; "{c}")?,
        Tag::Lit(Literal::Int(n)) => format!(in alloc; "int {n}")?,
        Tag::Lit(Literal::Char(c)) => format!(in alloc; "char {c}")?,
        Tag::Lit(Literal::Text(_)) => format!(in alloc; "text")?,
    };
    out.push_str(&text)?;
    Ok(())
}

#[cycle(write)]
pub fn write_block(alloc: Global, out: &mut String, stmts: &[Stmt]) -> Result<(), Memory> {
    out.push_str("{")?;
    for stmt in stmts {
        write_stmt(alloc, out, stmt)?;
        out.push_str(";")?;
    }
    out.push_str("}")?;
    Ok(())
}

#[cycle(write)]
fn write_case(alloc: Global, out: &mut String, case: &Case) -> Result<(), Memory> {
    out.push_str(" case ")?;
    write_tag(alloc, out, &case.tag)?;
    write_block(alloc, out, case.block.as_slice())
}

#[cycle(write)]
fn write_cases(alloc: Global, out: &mut String, cases: &[Case]) -> Result<(), Memory> {
    for case in cases {
        write_case(alloc, out, case)?;
    }
    Ok(())
}

#[cycle(write)]
fn write_stmt(alloc: Global, out: &mut String, stmt: &Stmt) -> Result<(), Memory> {
    match stmt {
        Stmt::Set(x, Expression::Var(y)) => {
            let text = format!(in alloc; "set {x} {y}")?;
            out.push_str(&text)?;
        }
        Stmt::Set(x, _) => {
            let text = format!(in alloc; "set {x} ..")?;
            out.push_str(&text)?;
        }
        Stmt::Field(x, y, i) => {
            let text = format!(in alloc; "field {x} {y} {i}")?;
            out.push_str(&text)?;
        }
        Stmt::Builtin(k, xs, ys, h) => {
            let text = format!(in alloc; "builtin {k}")?;
            out.push_str(&text)?;
            write_vars(alloc, out, xs.as_slice())?;
            out.push_str(" =>")?;
            write_vars(alloc, out, ys.as_slice())?;
            out.push_str(" else ")?;
            write_continuation(alloc, out, "h", *h)?;
        }
        Stmt::Equal(x, y, h) => {
            let text = format!(in alloc; "equal {x} {y} else ")?;
            out.push_str(&text)?;
            write_continuation(alloc, out, "h", *h)?;
        }
        Stmt::Success(k, xs, block) => {
            let text = format!(in alloc; "success k{k}")?;
            out.push_str(&text)?;
            write_vars(alloc, out, xs.as_slice())?;
            write_block(alloc, out, block.as_slice())?;
        }
        Stmt::Failure(h, block) => {
            let text = format!(in alloc; "failure h{h}")?;
            out.push_str(&text)?;
            write_block(alloc, out, block.as_slice())?;
        }
        Stmt::Body(j, xs, h, block) => {
            let text = format!(in alloc; "body j{j}")?;
            out.push_str(&text)?;
            write_vars(alloc, out, xs.as_slice())?;
            let told = format!(in alloc; " ; h{h}")?;
            out.push_str(&told)?;
            write_block(alloc, out, block.as_slice())?;
        }
        Stmt::Call(Callee::Rel(f), xs, k, h) => {
            let text = format!(in alloc; "call {f}")?;
            out.push_str(&text)?;
            write_vars(alloc, out, xs.as_slice())?;
            out.push_str(" ; ")?;
            write_continuation(alloc, out, "k", *k)?;
            out.push_str(", ")?;
            write_continuation(alloc, out, "h", *h)?;
        }
        Stmt::Call(Callee::Var(_), _, _, _) => out.push_str("call *")?,
        Stmt::Answer(k, xs) => {
            out.push_str("answer ")?;
            write_continuation(alloc, out, "k", *k)?;
            write_vars(alloc, out, xs.as_slice())?;
        }
        Stmt::Fail(h) => {
            out.push_str("fail ")?;
            write_continuation(alloc, out, "h", *h)?;
        }
        Stmt::Goto(j, xs, h) => {
            let text = format!(in alloc; "goto j{j}")?;
            out.push_str(&text)?;
            write_vars(alloc, out, xs.as_slice())?;
            out.push_str(" ; ")?;
            write_continuation(alloc, out, "h", *h)?;
        }
        Stmt::Switch(x, cases, otherwise) => {
            let text = format!(in alloc; "switch {x}")?;
            out.push_str(&text)?;
            write_cases(alloc, out, cases.as_slice())?;
            out.push_str(" else")?;
            write_block(alloc, out, otherwise.as_slice())?;
        }
    }
    Ok(())
}
