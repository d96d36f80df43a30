//! Circles: types that stand for a type that they are part of, and vals that need themselves.

ghost use Rattle.std.specs.Prelude.{◌≡◌, ◌++◌, IfOk, map, slice_get, unwrap_or, length, false};
ghost use Rattle.std.specs.List.{list_all, concat};
ghost use Rattle.rml_types.specs.Schemes.{every};
ghost use Rattle.rml_resolved.specs.Circles.{are_finished as are_finished_in, rounds, has_no_circle, types_in, type_needs, vals_in, val_needs};

use rml_base::Memory;
use rml_resolved::{RExp, TypeDef, ValDef};
use rml_types::SchemeTree;
use sqlite_items::{Items, at};
use std::alloc::Global;

fn is_finished(done: &[bool], k: u32) -> bool
    ensures { result ≡ unwrap_or (slice_get done.now k) false }
{
    match at(done, k as usize) {
        Some(finished) => *finished,
        None => false,
    }
}

fn are_finished(done: &[bool], needs: &[u32]) -> bool
    ensures { result ≡ are_finished_in done.now needs.now }
{
    needs.iter().all(|k| is_finished(done, *k))
}

fn none_finished(alloc: Global, graph: &[Items<u32>]) -> Result<Items<bool>, Memory>
    ensures { IfOk result (λ done. done ≡ rounds graph.now 0) }
{
    let mut done = Items::new(alloc);
    for needs in graph {
        let _ = needs;
        done.push(false)?;
    }
    Ok(done)
}

fn next_round(alloc: Global, graph: &[Items<u32>], done: &[bool]) -> Result<Items<bool>, Memory>
    ensures { IfOk result (λ next. next ≡ map (are_finished_in done.now) graph.now) }
{
    let mut next = Items::new(alloc);
    for needs in graph {
        next.push(are_finished(done, needs.as_slice()))?;
    }
    Ok(next)
}

fn after_all_rounds(alloc: Global, graph: &[Items<u32>]) -> Result<Items<bool>, Memory>
    ensures { IfOk result (λ done. done ≡ rounds graph.now (length graph.now)) }
{
    let mut done = none_finished(alloc, graph)?;
    for round in 0..graph.len() {
        let _ = round;
        done = next_round(alloc, graph, done.as_slice())?;
    }
    Ok(done)
}

fn is_free_of_circles(alloc: Global, graph: &[Items<u32>]) -> Result<bool, Memory>
    ensures { IfOk result (λ b. b ≡ has_no_circle graph.now) }
{
    let done = after_all_rounds(alloc, graph)?;
    Ok(done.as_slice().iter().all(|finished| *finished))
}

/// The types of `all`, and then those that a type names.
#[cycle(types)]
fn with_types(tree: &SchemeTree, all: Items<u32>) -> Result<Items<u32>, Memory>
    ensures { IfOk result (λ r. r ≡ all ++ types_in tree.now) }
{
    let mut all = all;
    match tree {
        SchemeTree::Var(_) => Ok(all),
        SchemeTree::Named(c, args) => {
            all.push(*c)?;
            with_all_types(args.as_slice(), all)
        }
        SchemeTree::Tuple(parts) => with_all_types(parts.as_slice(), all),
        SchemeTree::Rel(inputs, outputs) => {
            let all = with_all_types(inputs.as_slice(), all)?;
            with_all_types(outputs.as_slice(), all)
        }
    }
}

#[cycle(types)]
fn with_all_types(trees: &[SchemeTree], all: Items<u32>) -> Result<Items<u32>, Memory>
    ensures { IfOk result (λ r. r ≡ all ++ concat (map types_in trees.now)) }
{
    let mut all = all;
    for tree in trees {
        all = with_types(tree, all)?;
    }
    Ok(all)
}

fn needs_of_type(alloc: Global, def: &TypeDef) -> Result<Items<u32>, Memory>
    ensures { IfOk result (λ r. r ≡ type_needs def.now) }
{
    match &def.means {
        Some(scheme) => with_types(&scheme.body, Items::new(alloc)),
        None => Ok(Items::new(alloc)),
    }
}

/// Whether no type stands for one that it is part of.
pub fn do_types_end(alloc: Global, types: &[TypeDef]) -> Result<bool, Memory>
    ensures { IfOk result (λ b. b ≡ has_no_circle (map type_needs types.now)) }
{
    let mut graph = Items::new(alloc);
    for def in types {
        graph.push(needs_of_type(alloc, def)?)?;
    }
    is_free_of_circles(alloc, graph.as_slice())
}

/// The vals of `all`, and then those that an expression names.
#[cycle(expressions)]
fn with_vals(exp: &RExp, all: Items<u32>) -> Result<Items<u32>, Memory>
    ensures { IfOk result (λ r. r ≡ all ++ vals_in exp.now) }
{
    let mut all = all;
    match exp {
        RExp::Lit(_) => Ok(all),
        RExp::Var(_) => Ok(all),
        RExp::Rel(_) => Ok(all),
        RExp::Val(v) => {
            all.push(*v)?;
            Ok(all)
        }
        RExp::Con(_, es) => with_all_vals(es.as_slice(), all),
        RExp::Tuple(es) => with_all_vals(es.as_slice(), all),
        RExp::List(es) => with_all_vals(es.as_slice(), all),
        RExp::Cons(es) => with_all_vals(es.as_slice(), all),
    }
}

#[cycle(expressions)]
fn with_all_vals(exps: &[RExp], all: Items<u32>) -> Result<Items<u32>, Memory>
    ensures { IfOk result (λ r. r ≡ all ++ concat (map vals_in exps.now)) }
{
    let mut all = all;
    for exp in exps {
        all = with_vals(exp, all)?;
    }
    Ok(all)
}

/// Whether no val needs itself.
pub fn do_vals_end(alloc: Global, vals: &[ValDef]) -> Result<bool, Memory>
    ensures { IfOk result (λ b. b ≡ has_no_circle (map val_needs vals.now)) }
{
    let mut graph = Items::new(alloc);
    for def in vals {
        graph.push(with_vals(&def.value, Items::new(alloc))?)?;
    }
    is_free_of_circles(alloc, graph.as_slice())
}
