//! Trees in a short notation: what a tree has, and not where it stands.

use rml_syntax::{
    ConBind, DataBind, Decl, Exp, Goal, Lit, Long, Pattern, Rule, Sig, Text, TypeExp,
};
use std::alloc::{AllocError, Global};

/// The declarations of the interface and of the body, a `/` behind the former.
pub fn spelled(alloc: Global, tree: &Text) -> Result<String, AllocError> {
    let mut out = String::new(alloc);
    decls(&mut out, tree.specs.as_slice())?;
    out.push('/')?;
    decls(&mut out, tree.decls.as_slice())?;
    Ok(out)
}

/// Declarations, a blank behind each.
fn decls(out: &mut String, trees: &[Decl]) -> Result<(), AllocError> {
    for tree in trees {
        decl(out, tree)?;
        out.push(' ')?;
    }
    Ok(())
}

fn decl(out: &mut String, tree: &Decl) -> Result<(), AllocError> {
    match tree {
        Decl::Datatype(datas) => datatypes(out, datas.as_slice()),
        Decl::Abbrev(head, means) => {
            name(out, head.name)?;
            out.push('=')?;
            type_exp(out, means)
        }
        Decl::Abstype(head) => name(out, head.name),
        Decl::Val(number, _, of, value) => {
            name(out, *number)?;
            val_type(out, of)?;
            val_value(out, value)
        }
        Decl::Relation(number, _, of, trees) => {
            name(out, *number)?;
            relation_type(out, of)?;
            rules(out, trees.as_slice())
        }
    }
}

fn val_type(out: &mut String, of: &Option<TypeExp>) -> Result<(), AllocError> {
    let Some(of) = of else {
        return Ok(());
    };
    out.push(':')?;
    type_exp(out, of)
}

fn val_value(out: &mut String, value: &Option<Exp>) -> Result<(), AllocError> {
    let Some(value) = value else {
        return Ok(());
    };
    out.push('=')?;
    exp(out, value)
}

fn relation_type(out: &mut String, of: &Option<Sig>) -> Result<(), AllocError> {
    match of {
        Some(of) => signature(out, of),
        None => Ok(()),
    }
}

fn datatypes(out: &mut String, trees: &[DataBind]) -> Result<(), AllocError> {
    for tree in trees {
        names(out, tree.head.vars.as_slice())?;
        name(out, tree.head.name)?;
        constructors(out, tree.cons.as_slice())?;
        out.push(';')?;
    }
    Ok(())
}

fn constructors(out: &mut String, trees: &[ConBind]) -> Result<(), AllocError> {
    for tree in trees {
        out.push('|')?;
        name(out, tree.name)?;
        types(out, "(", tree.parts.as_slice(), ")")?;
    }
    Ok(())
}

fn rules(out: &mut String, trees: &[Rule]) -> Result<(), AllocError> {
    for tree in trees {
        rule(out, tree)?;
    }
    Ok(())
}

fn names(out: &mut String, numbers: &[u32]) -> Result<(), AllocError> {
    for number in numbers {
        name(out, *number)?;
    }
    Ok(())
}

fn name(out: &mut String, number: u32) -> Result<(), AllocError> {
    out.push(u8::try_from(number).map_or('?', char::from))
}

fn long(out: &mut String, long: &Long) -> Result<(), AllocError> {
    if let Some(module) = long.module {
        name(out, module)?;
        out.push('.')?;
    }
    name(out, long.name)
}

fn longs(out: &mut String, names: &[Long]) -> Result<(), AllocError> {
    for each in names {
        long(out, each)?;
    }
    Ok(())
}

fn lit(out: &mut String, lit: Lit) -> Result<(), AllocError> {
    match lit {
        Lit::Int(value) => name(out, u32::try_from(value).unwrap_or(0)),
        Lit::Char(byte) => out.push(char::from(byte)),
        Lit::Text(text) => {
            out.push('"')?;
            name(out, text)
        }
    }
}

#[cycle(show_exp)]
fn exp(out: &mut String, tree: &Exp) -> Result<(), AllocError> {
    match tree {
        Exp::Lit(value) => lit(out, *value),
        Exp::Name(callee) => long(out, callee),
        Exp::App(callee, items) => {
            long(out, callee)?;
            exps(out, "(", items.as_slice(), ")")
        }
        Exp::Tuple(items) => exps(out, "(", items.as_slice(), ")"),
        Exp::List(items) => exps(out, "[", items.as_slice(), "]"),
        Exp::Cons(items) => exps(out, "<", items.as_slice(), ">"),
    }
}

#[cycle(show_exp)]
fn exps(out: &mut String, open: &str, items: &[Exp], close: &str) -> Result<(), AllocError> {
    out.push_str(open)?;
    for item in items {
        out.push(' ')?;
        exp(out, item)?;
    }
    out.push_str(close)
}

#[cycle(show_pattern)]
fn pattern(out: &mut String, tree: &Pattern) -> Result<(), AllocError> {
    match tree {
        Pattern::Any => out.push('_'),
        Pattern::Lit(value) => lit(out, *value),
        Pattern::Name(callee) => long(out, callee),
        Pattern::App(callee, items) => {
            long(out, callee)?;
            patterns(out, "(", items.as_slice(), ")")
        }
        Pattern::Tuple(items) => patterns(out, "(", items.as_slice(), ")"),
        Pattern::List(items) => patterns(out, "[", items.as_slice(), "]"),
        Pattern::Cons(items) => patterns(out, "<", items.as_slice(), ">"),
        Pattern::Bind(bound, _, inner) => {
            name(out, *bound)?;
            out.push('@')?;
            pattern(out, inner.get())
        }
    }
}

#[cycle(show_pattern)]
fn patterns(
    out: &mut String,
    open: &str,
    items: &[Pattern],
    close: &str,
) -> Result<(), AllocError> {
    out.push_str(open)?;
    for item in items {
        out.push(' ')?;
        pattern(out, item)?;
    }
    out.push_str(close)
}

#[cycle(show_type)]
fn type_exp(out: &mut String, tree: &TypeExp) -> Result<(), AllocError> {
    match tree {
        TypeExp::Var(number, _) => {
            out.push('\'')?;
            name(out, *number)
        }
        TypeExp::App(items, names) => {
            types(out, "(", items.as_slice(), ")")?;
            longs(out, names.as_slice())
        }
        TypeExp::Tuple(items) => types(out, "<", items.as_slice(), ">"),
        TypeExp::Rel(sig) => signature(out, sig.get()),
    }
}

#[cycle(show_type)]
fn signature(out: &mut String, tree: &Sig) -> Result<(), AllocError> {
    types(out, "{", tree.inputs.as_slice(), " =>")?;
    types(out, "", tree.outputs.as_slice(), "}")
}

#[cycle(show_type)]
fn types(out: &mut String, open: &str, items: &[TypeExp], close: &str) -> Result<(), AllocError> {
    out.push_str(open)?;
    for item in items {
        out.push(' ')?;
        type_exp(out, item)?;
    }
    out.push_str(close)
}

#[cycle(show_goal)]
fn goal(out: &mut String, tree: &Goal) -> Result<(), AllocError> {
    match tree {
        Goal::Call(callee, inputs, outputs) => {
            long(out, callee)?;
            exps(out, "(", inputs.as_slice(), " =>")?;
            patterns(out, "", outputs.as_slice(), ")")
        }
        Goal::Equal(left, right) => {
            long(out, left)?;
            out.push('=')?;
            exp(out, right)
        }
        Goal::Let(left, right) => {
            pattern(out, left.get())?;
            out.push('=')?;
            exp(out, right)
        }
        Goal::Not(inner) => {
            out.push('!')?;
            goal(out, inner.get())
        }
        Goal::All(items) => goals(out, "(", items.as_slice(), ")"),
    }
}

#[cycle(show_goal)]
fn goals(out: &mut String, open: &str, items: &[Goal], close: &str) -> Result<(), AllocError> {
    out.push_str(open)?;
    for item in items {
        out.push(' ')?;
        goal(out, item)?;
    }
    out.push_str(close)
}

fn rule(out: &mut String, tree: &Rule) -> Result<(), AllocError> {
    goals(out, "", tree.goals.as_slice(), " -- ")?;
    name(out, tree.head)?;
    patterns(out, "(", tree.inputs.as_slice(), ")")?;
    exps(out, " =>", tree.results.as_slice(), ";")
}
