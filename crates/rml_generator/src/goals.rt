//! The equations of goals.

ghost use Rattle.std.specs.Prelude.{◌≡◌, [], None, List};
ghost use Rattle.rml_types.specs.declared.tree.SchemeTree.{SchemeTree};
ghost use Rattle.rml_types.specs.declared.tree.SchemeTree.TheVariants as tree;
ghost use Rattle.rml_typed.specs.Typed.{CalleeOf, ExpOf, ExpsOf, GoalOf, GoalsOf, HasInstance, PatternOf, PatternsOf, built_in_type};
ghost use Rattle.rml_equations.specs.Joins.{Links};
ghost use Rattle.rml_generator.specs.Scopes.{FindsFact, FindsNode, Serves, reads, uses};

use crate::expressions::{expression, expressions};
use crate::patterns::{pattern, patterns};
use crate::scope::{Scope, instance_as_is};
use crate::wholes::same;
use rml_builtin::{ROWS, scheme_of};
use rml_equations::{Coding, Stop, relation};
use rml_resolved::{Callee, RExp, RGoal, RPat};
use rml_types::Graph;
use std::alloc::Global;

/// Adds the equations of a goal.
#[cycle(goals)]
pub fn goal(alloc: Global, graph: &mut Graph, scope: &Scope, one: &RGoal) -> Result<(), Stop>
    requires { Serves scope.now graph.old }
    ensures { FindsFact scope.now graph.old graph.new (λ told. GoalOf (reads scope.now) (uses scope.now told) told.vars one.now) result }
{
    match one {
        RGoal::Call(f, inputs, outputs) => call(
            alloc,
            graph,
            scope,
            *f,
            inputs.as_slice(),
            outputs.as_slice(),
        ),
        RGoal::Equal(a, b) => equal(alloc, graph, scope, a, b),
        RGoal::Let(p, e) => define(alloc, graph, scope, p, e),
        RGoal::Not(inner) => goal(alloc, graph, scope, inner.get()),
        RGoal::All(inner) => goals(alloc, graph, scope, inner.as_slice()),
    }
}

/// Adds the equations of some goals.
#[cycle(goals)]
pub fn goals(alloc: Global, graph: &mut Graph, scope: &Scope, all: &[RGoal]) -> Result<(), Stop>
    requires { Serves scope.now graph.old }
    ensures { FindsFact scope.now graph.old graph.new (λ told. GoalsOf (reads scope.now) (uses scope.now told) told.vars all.now) result }
{
    for one in all {
        goal(alloc, graph, scope, one)?;
    }
    Ok(())
}

/// Adds the equations of a call: the callee takes the types of the expressions and gives those of the patterns.
fn call(
    alloc: Global,
    graph: &mut Graph,
    scope: &Scope,
    f: Callee,
    inputs: &[RExp],
    outputs: &[RPat],
) -> Result<(), Stop>
    requires { Serves scope.now graph.old }
    ensures { FindsFact scope.now graph.old graph.new (λ told. (t : SchemeTree) × CalleeOf (reads scope.now) (uses scope.now told) told.vars f t
        × ((us : List SchemeTree) × (ws : List SchemeTree) × ExpsOf (reads scope.now) (uses scope.now told) told.vars inputs.now us × PatternsOf (reads scope.now) told.vars outputs.now ws × (t ≡ tree.Rel us ws))) result }
{
    let called = callee(alloc, graph, scope, f)?;
    let wanted = signature(alloc, graph, scope, inputs, outputs)?;
    same(graph, called, wanted)
}

/// A node of the relation types from the types of some expressions to those of some patterns.
fn signature(
    alloc: Global,
    graph: &mut Graph,
    scope: &Scope,
    inputs: &[RExp],
    outputs: &[RPat],
) -> Result<usize, Stop>
    requires { Serves scope.now graph.old }
    ensures { FindsNode scope.now graph.old graph.new (λ told t. (us : List SchemeTree) × (ws : List SchemeTree)
        × ExpsOf (reads scope.now) (uses scope.now told) told.vars inputs.now us × PatternsOf (reads scope.now) told.vars outputs.now ws × (t ≡ tree.Rel us ws)) result }
{
    let taken = expressions(alloc, graph, scope, inputs)?;
    let given = patterns(alloc, graph, scope, outputs)?;
    Ok(relation(alloc, graph, scope.coding, &taken, &given)?)
}

/// A node of the types of a callee.
fn callee(alloc: Global, graph: &mut Graph, scope: &Scope, f: Callee) -> Result<usize, Stop>
    requires { Serves scope.now graph.old }
    ensures { FindsNode scope.now graph.old graph.new (λ told t. CalleeOf (reads scope.now) (uses scope.now told) told.vars f t) result }
{
    match f {
        Callee::Rel(r) => scope.relation(alloc, graph, r),
        Callee::Built(k) => built_in(alloc, graph, scope.coding, k),
        Callee::Var(x) => scope.variable(graph, x),
        Callee::Val(v) => scope.val(alloc, graph, v),
    }
}

/// A node of the instances of the type of a built-in.
fn built_in(alloc: Global, graph: &mut Graph, coding: Coding, number: u16) -> Result<usize, Stop>
    requires { graph.old.failed ≡ None }
    ensures { Links coding graph.old graph.new [] (λ ts t. HasInstance (built_in_type number) t) result }
{
    if number as usize >= ROWS.len() {
        return Err(Stop::Untyped);
    }
    let scheme = scheme_of(alloc, number)?;
    instance_as_is(alloc, graph, coding, &scheme)
}

/// Adds the equations of two expressions that are of one type.
fn equal(alloc: Global, graph: &mut Graph, scope: &Scope, a: &RExp, b: &RExp) -> Result<(), Stop>
    requires { Serves scope.now graph.old }
    ensures { FindsFact scope.now graph.old graph.new (λ told. (t : SchemeTree) × ExpOf (reads scope.now) (uses scope.now told) told.vars a.now t
        × ExpOf (reads scope.now) (uses scope.now told) told.vars b.now t) result }
{
    let left = expression(alloc, graph, scope, a)?;
    let right = expression(alloc, graph, scope, b)?;
    same(graph, left, right)
}

/// Adds the equations of a pattern and an expression of its type.
fn define(alloc: Global, graph: &mut Graph, scope: &Scope, p: &RPat, e: &RExp) -> Result<(), Stop>
    requires { Serves scope.now graph.old }
    ensures { FindsFact scope.now graph.old graph.new (λ told. (t : SchemeTree) × PatternOf (reads scope.now) told.vars p.now t
        × ExpOf (reads scope.now) (uses scope.now told) told.vars e.now t) result }
{
    let left = pattern(alloc, graph, scope, p)?;
    let right = expression(alloc, graph, scope, e)?;
    same(graph, left, right)
}
