//! The nodes of patterns.

ghost use Rattle.rml_typed.specs.Typed.{PatternOf, PatternsOf};
ghost use Rattle.rml_generator.specs.Scopes.{FindsNode, FindsNodes, Serves, reads};

use crate::scope::Scope;
use crate::wholes::{any_type, made, same, whole_chain, whole_literal, whole_tuple};
use rml_equations::{Stop, list};
use rml_resolved::RPat;
use rml_types::Graph;
use std::alloc::Global;

/// A node of the types of a pattern.
#[cycle(patterns)]
pub fn pattern(alloc: Global, graph: &mut Graph, scope: &Scope, one: &RPat) -> Result<usize, Stop>
    requires { Serves scope.now graph.old }
    ensures { FindsNode scope.now graph.old graph.new (λ told t. PatternOf (reads scope.now) told.vars one.now t) result }
{
    match one {
        RPat::Any => any_type(graph),
        RPat::Lit(lit) => whole_literal(graph, *lit),
        RPat::Var(x) => scope.variable(graph, *x),
        RPat::Con(c, parts) => {
            let nodes = patterns(alloc, graph, scope, parts.as_slice())?;
            made(alloc, graph, scope, *c, &nodes)
        }
        RPat::Tuple(parts) => {
            let nodes = patterns(alloc, graph, scope, parts.as_slice())?;
            whole_tuple(graph, &nodes)
        }
        RPat::List(items) => {
            let nodes = patterns(alloc, graph, scope, items.as_slice())?;
            list(graph, &nodes)
        }
        RPat::Cons(items) => {
            let nodes = patterns(alloc, graph, scope, items.as_slice())?;
            whole_chain(graph, &nodes)
        }
        RPat::Bind(x, part) => {
            let node = pattern(alloc, graph, scope, part.get())?;
            let named = scope.variable(graph, *x)?;
            same(graph, node, named)?;
            Ok(node)
        }
    }
}

/// A node for each of some patterns.
#[cycle(patterns)]
pub fn patterns(
    alloc: Global,
    graph: &mut Graph,
    scope: &Scope,
    all: &[RPat],
) -> Result<Vec<usize>, Stop>
    requires { Serves scope.now graph.old }
    ensures { FindsNodes scope.now graph.old graph.new (λ told ts. PatternsOf (reads scope.now) told.vars all.now ts) result }
{
    let mut nodes = Vec::new(alloc);
    for part in all {
        let node = pattern(alloc, graph, scope, part)?;
        nodes.push(node)?;
    }
    Ok(nodes)
}
