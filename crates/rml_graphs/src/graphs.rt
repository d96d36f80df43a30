//! What no clause says: that these calls answer at all, on the cases that a reader would try first.

ghost use Rattle.std.specs.Prelude.{◌≡◌, ◌<◌, length, None, IfOk};
ghost use Rattle.rml_types.specs.Nodes.{HasNoFixed};

use rml_base::Memory;
use rml_types::{Graph, Scheme, SchemeTree, TypeCon, UnifyErr, copy_tree, forget};
use sqlite_items::Items;
use std::alloc::Global;
use std::test::Fail;

const INT: TypeCon = TypeCon::Named(0);

const LIST: TypeCon = TypeCon::Named(1);

#[test]
fn a_list_of_itself_is_no_finite_type(rt: HostRuntime) -> Result<(), Fail> {
    let mut graph = Graph::new(rt.alloc());
    let x = graph.var()?;
    let xs = graph.app(LIST, &[x])?;
    let again = graph.app(LIST, &[xs])?;
    assert_eq!(rt; graph.unify(x, xs), Ok(()));
    assert!(rt; !graph.acyclic());
    assert_eq!(rt; graph.unify(again, x), Ok(()), "cyclic types that agree");
    Ok(())
}

#[test]
fn a_clash_stays(rt: HostRuntime) -> Result<(), Fail> {
    let mut graph = Graph::new(rt.alloc());
    let int = graph.app(INT, &[])?;
    let ints = graph.app(LIST, &[int])?;
    assert!(rt; graph.acyclic());
    assert_eq!(rt; graph.unify(int, ints), Err(UnifyErr::Clash));
    assert_eq!(rt; graph.unify(int, int), Err(UnifyErr::Clash));
    Ok(())
}

#[test]
fn numbers_of_arguments_clash(rt: HostRuntime) -> Result<(), Fail> {
    let mut graph = Graph::new(rt.alloc());
    let int = graph.app(INT, &[])?;
    let two = graph.app(TypeCon::Tuple, &[int, int])?;
    let three = graph.app(TypeCon::Tuple, &[int, int, int])?;
    assert_eq!(rt; graph.unify(two, three), Err(UnifyErr::Clash));
    Ok(())
}

#[test]
fn inputs_are_no_outputs_deep_inside(rt: HostRuntime) -> Result<(), Fail> {
    let mut graph = Graph::new(rt.alloc());
    let x = graph.var()?;
    let takes = graph.app(TypeCon::Rel(1), &[x])?;
    let gives = graph.app(TypeCon::Rel(0), &[x])?;
    let left = graph.app(LIST, &[takes])?;
    let right = graph.app(LIST, &[gives])?;
    assert_eq!(rt; graph.unify(left, right), Err(UnifyErr::Clash));
    Ok(())
}

#[test]
fn instances_are_nodes_of_their_own(rt: HostRuntime) -> Result<(), Fail> {
    let scheme = Scheme::checked(rt.alloc(), 1, SchemeTree::Var(0))?.ok_or("a scheme")?;
    let mut graph = Graph::new(rt.alloc());
    let int = graph.app(INT, &[])?;
    let ints = graph.app(LIST, &[int])?;
    let first = graph.instance(&scheme)?;
    let second = graph.instance(&scheme)?;
    assert_eq!(rt; graph.unify(first, int), Ok(()));
    assert_eq!(rt; graph.unify(second, ints), Ok(()), "at another type");
    Ok(())
}

#[test]
fn variables_that_stand_fixed_are_types_of_their_own(rt: HostRuntime) -> Result<(), Fail> {
    let mut graph = Graph::new(rt.alloc());
    let first = graph.fixed(&SchemeTree::Var(0))?;
    let again = graph.fixed(&SchemeTree::Var(0))?;
    let other = graph.fixed(&SchemeTree::Var(1))?;
    assert_eq!(rt; graph.unify(first, again), Ok(()));
    assert_eq!(rt; graph.unify(first, other), Err(UnifyErr::Clash));
    Ok(())
}

/// The most general type of a node, if it has finite types.
fn general_of(graph: &mut Graph, node: usize, limit: u32) -> Result<Option<Scheme>, Memory>
    requires within { node < length graph.old.forms }
    requires accepted { graph.old.failed ≡ None }
    requires unfixed { HasNoFixed graph.old }
{
    if !graph.acyclic() {
        return Ok(None);
    }
    graph.general(node, limit)
}

#[test]
fn variables_are_numbered_as_they_come(rt: HostRuntime) -> Result<(), Fail> {
    let mut graph = Graph::new(rt.alloc());
    let a = graph.var()?;
    let b = graph.var()?;
    let node = graph.app(TypeCon::Tuple, &[b, a, b])?;
    let scheme = general_of(&mut graph, node, 4)?.ok_or("four nodes")?;
    let SchemeTree::Tuple(parts) = &scheme.body else {
        return Err("a tuple".into());
    };
    assert!(rt;
        matches!(
            parts.as_slice(),
            [SchemeTree::Var(0), SchemeTree::Var(1), SchemeTree::Var(0)]
        )
    );
    Ok(())
}

/// A relation without inputs that gives pairs of pairs, so many deep.
fn relation_to_pairs(graph: &mut Graph, depth: u32) -> Result<usize, Memory>
    ensures failed { graph.new.failed ≡ graph.old.failed }
    ensures unfixed { HasNoFixed graph.old → HasNoFixed graph.new }
    ensures within { IfOk result (λ n. n < length graph.new.forms) }
{
    let mut pair = graph.app(INT, &[])?;
    for _ in 0..depth {
        pair = graph.app(TypeCon::Tuple, &[pair, pair])?;
    }
    graph.app(TypeCon::Rel(0), &[pair])
}

fn is_narrow(alloc: Global, depth: u32) -> Result<bool, Memory> {
    let mut graph = Graph::new(alloc);
    let node = relation_to_pairs(&mut graph, depth)?;
    Ok(general_of(&mut graph, node, 65536)?.is_some())
}

#[test]
fn wide_types_are_not_written_out(rt: HostRuntime) -> Result<(), Fail> {
    assert!(rt; is_narrow(rt.alloc(), 15)?);
    assert!(rt; !is_narrow(rt.alloc(), 16)?);
    assert!(rt; !is_narrow(rt.alloc(), 60)?);
    Ok(())
}

/// A variable in so many tuples of one.
fn nested(alloc: Global, depth: u32) -> Result<SchemeTree, Memory> {
    let mut tree = SchemeTree::Var(0);
    for _ in 0..depth {
        let mut parts = Items::new(alloc);
        parts.push(tree)?;
        tree = SchemeTree::Tuple(parts);
    }
    Ok(tree)
}

#[test]
fn deep_types_need_no_deep_stack(rt: HostRuntime) -> Result<(), Fail> {
    let tree = nested(rt.alloc(), 100000)?;
    let again = copy_tree(rt.alloc(), &tree)?;
    assert!(rt; Scheme::checked(rt.alloc(), 0, tree)?.is_none());
    let scheme = Scheme::checked(rt.alloc(), 1, again)?.ok_or("a scheme")?;
    let copy = scheme.copy(rt.alloc())?;
    forget(copy_tree(rt.alloc(), &copy.body)?);
    Ok(())
}
