//! The nodes of expressions.

ghost use Rattle.rml_typed.specs.Typed.{ExpOf, ExpsOf};
ghost use Rattle.rml_generator.specs.Scopes.{FindsNode, FindsNodes, Serves, reads, uses};

use crate::scope::Scope;
use crate::wholes::{made, whole_chain, whole_literal, whole_tuple};
use rml_equations::{Stop, list};
use rml_resolved::RExp;
use rml_types::Graph;
use std::alloc::Global;

/// A node of the types of an expression.
#[cycle(expressions)]
pub fn expression(
    alloc: Global,
    graph: &mut Graph,
    scope: &Scope,
    exp: &RExp,
) -> Result<usize, Stop>
    requires { Serves scope.now graph.old }
    ensures { FindsNode scope.now graph.old graph.new (λ told t. ExpOf (reads scope.now) (uses scope.now told) told.vars exp.now t) result }
{
    match exp {
        RExp::Lit(lit) => whole_literal(graph, *lit),
        RExp::Var(x) => scope.variable(graph, *x),
        RExp::Val(v) => scope.val(alloc, graph, *v),
        RExp::Rel(r) => scope.relation(alloc, graph, *r),
        RExp::Con(c, parts) => {
            let nodes = expressions(alloc, graph, scope, parts.as_slice())?;
            made(alloc, graph, scope, *c, &nodes)
        }
        RExp::Tuple(parts) => {
            let nodes = expressions(alloc, graph, scope, parts.as_slice())?;
            whole_tuple(graph, &nodes)
        }
        RExp::List(items) => {
            let nodes = expressions(alloc, graph, scope, items.as_slice())?;
            list(graph, &nodes)
        }
        RExp::Cons(items) => {
            let nodes = expressions(alloc, graph, scope, items.as_slice())?;
            whole_chain(graph, &nodes)
        }
    }
}

/// A node for each of some expressions.
#[cycle(expressions)]
pub fn expressions(
    alloc: Global,
    graph: &mut Graph,
    scope: &Scope,
    all: &[RExp],
) -> Result<Vec<usize>, Stop>
    requires { Serves scope.now graph.old }
    ensures { FindsNodes scope.now graph.old graph.new (λ told ts. ExpsOf (reads scope.now) (uses scope.now told) told.vars all.now ts) result }
{
    let mut nodes = Vec::new(alloc);
    for exp in all {
        let node = expression(alloc, graph, scope, exp)?;
        nodes.push(node)?;
    }
    Ok(nodes)
}
