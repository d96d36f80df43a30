//! Whether the equations have a solution in finite types: whether no class is below itself. Each class is visited once, on
//! a way that is kept in the graph's own room, so that deep types need no deep stack.

ghost use Rattle.std.specs.Prelude.{◌≡◌, ℕ, ◌+◌, ◌<◌, ◌≤◌, ◌↔◌, [], ◌∷◌, ◌++◌, length, slice_index, slice_set, Option, Some, None, false, IsTrue, IfSome, IfNone, IfOk, vec_capacity};
ghost use Rattle.rml_types.specs.Finite.{HasTypes};
ghost use Rattle.rml_types.specs.Kept.{IsOpen, known_by};
ghost use Rattle.rml_types.specs.Nodes.{root_in};
ghost use Rattle.rml_types.specs.Walks.{Advance, DoneFrom, Ends, NextBelow, Sizes, Visited, Walks, mark_of, new_marks};
ghost use Rattle.rml_types.specs.declared.form.Form.{Form};
ghost use Rattle.rml_types.specs.declared.tree.SchemeTree.{SchemeTree};
ghost use Rattle.rml_types.specs.declared.graph.Mark.TheVariants as mark;

use crate::form::Form;
use crate::graph::{Graph, Mark, form_at};
use crate::union_find::UnionFind;

impl Graph {
    /// Whether the equations have a solution in finite types. It takes no memory.
    pub fn acyclic(&mut self) -> bool
        requires { self.old.failed ≡ None }
        ensures exact { IsTrue result ↔ ((types : ℕ → SchemeTree) × HasTypes self.old types) }
        ensures same { self.new ≡ self.old }
    {
        self.path.clear();
        forget(&mut self.marks);
        let count = self.forms.len();
        end_all(
            &self.forms,
            &mut self.classes,
            &self.shapes,
            &mut self.marks,
            &mut self.path,
            count,
        )
    }
}

/// Makes all classes new again.
fn forget(marks: &mut [Mark])
    ensures { (c : ℕ) → mark_of marks.new c ≡ mark.New }
{
    for mark in marks.iter_mut() {
        *mark = Mark::New;
    }
}

/// Visits the classes of all nodes. True where no class is below itself.
fn end_all(
    forms: &[Option<Form>],
    classes: &mut UnionFind,
    shapes: &[Option<usize>],
    marks: &mut [Mark],
    path: &mut Vec<(usize, usize)>,
    count: usize,
) -> bool
    requires graph { IsOpen forms.now classes.old shapes.now }
    requires marked { length marks.old ≡ length forms.now }
    requires room { length marks.old ≤ vec_capacity path.old }
    requires empty { path.old.items ≡ [] }
    requires fresh { (c : ℕ) → mark_of marks.old c ≡ mark.New }
    requires all { count ≡ length forms.now }
    ensures same { classes.new ≡ classes.old }
    ensures room { vec_capacity path.old ≤ vec_capacity path.new }
    ensures ends { IsTrue result → ((levels : ℕ) × ((n : ℕ) → n < length forms.now → Ends (root_in classes.old) (known_by forms.now shapes.now) levels (root_in classes.old n))) }
    ensures circle { result ≡ false → (size : ℕ → ℕ) → Sizes (root_in classes.old) (known_by forms.now shapes.now) size → ⊥ }
{
    for node in 0..count {
        let class = classes.find(node);
        if !visit(forms, classes, shapes, marks, path, class) {
            return false;
        }
    }
    true
}

/// Of some nodes, from one on, the first whose class is not done with, by its place and its class.
fn next_unfinished(
    args: &[usize],
    from: usize,
    classes: &mut UnionFind,
    marks: &[Mark],
) -> Option<(usize, usize)>
    requires within { (i : ℕ) → i < length args.now → slice_index args.now i < length classes.old }
    requires marked { length marks.now ≡ length classes.old }
    ensures same { classes.new ≡ classes.old }
    ensures found { IfSome result (λ r. (r.0 < length args.now) × (from ≤ r.0) × (r.1 ≡ slice_index classes.old (slice_index args.now r.0)) × (r.1 < length classes.old) × (slice_index classes.old r.1 ≡ r.1)
        × (mark_of marks.now r.1 ≡ mark.Done → ⊥) × DoneFrom (root_in classes.old) marks.now args.now from r.0) }
    ensures none { IfNone result (DoneFrom (root_in classes.old) marks.now args.now from (length args.now)) }
{
    for i in from..args.len() {
        let class = classes.find(args[i]);
        if marks[class] != Mark::Done {
            return Some((i, class));
        }
    }
    None
}

/// Of a class, the first argument from one on whose class is not done with.
fn next_below(
    forms: &[Option<Form>],
    classes: &mut UnionFind,
    shapes: &[Option<usize>],
    marks: &[Mark],
    class: usize,
    from: usize,
) -> Option<(usize, usize)>
    requires graph { IsOpen forms.now classes.old shapes.now }
    requires marked { length marks.now ≡ length forms.now }
    requires within { class < length forms.now }
    requires own { root_in classes.old class ≡ class }
    ensures same { classes.new ≡ classes.old }
    ensures found { IfSome result (λ r. NextBelow (root_in classes.old) (known_by forms.now shapes.now) marks.now class from r.0 r.1) }
    ensures none { IfNone result ((f : Form) → known_by forms.now shapes.now class ≡ Some f → DoneFrom (root_in classes.old) marks.now f.args from (length f.args)) }
{
    match form_at(forms, shapes[class]) {
        Some(form) => next_unfinished(form.args.as_slice(), from, classes, marks),
        None => None,
    }
}

/// A step of the search from the last class of the way, which was taken off it. False where there is a circle.
fn advance(
    forms: &[Option<Form>],
    classes: &mut UnionFind,
    shapes: &[Option<usize>],
    marks: &mut [Mark],
    path: &mut Vec<(usize, usize)>,
    class: usize,
    from: usize,
) -> bool
    requires graph { IsOpen forms.now classes.old shapes.now }
    requires marked { length marks.old ≡ length forms.now }
    requires room { length marks.old ≤ vec_capacity path.old }
    requires walks { Walks (root_in classes.old) (known_by forms.now shapes.now) marks.old (path.old.items ++ (class, from) ∷ []) }
    ensures same { classes.new ≡ classes.old }
    ensures room { vec_capacity path.old ≤ vec_capacity path.new }
    ensures on { IsTrue result → Advance (root_in classes.old) (known_by forms.now shapes.now) marks.old (path.old.items ++ (class, from) ∷ []) marks.new path.new.items }
    ensures circle { result ≡ false → (size : ℕ → ℕ) → Sizes (root_in classes.old) (known_by forms.now shapes.now) size → ⊥ }
{
    let Some((i, child)) = next_below(forms, classes, shapes, marks, class, from) else {
        marks[class] = Mark::Done;
        return true;
    };
    if marks[child] == Mark::Open {
        return false;
    }
    marks[child] = Mark::Open;
    path.push((class, i)).unwrap();
    path.push((child, 0)).unwrap();
    true
}

/// Searches for a circle below a class, once. True where there is none: then the class is done with.
fn visit(
    forms: &[Option<Form>],
    classes: &mut UnionFind,
    shapes: &[Option<usize>],
    marks: &mut [Mark],
    path: &mut Vec<(usize, usize)>,
    class: usize,
) -> bool
    requires graph { IsOpen forms.now classes.old shapes.now }
    requires marked { length marks.old ≡ length forms.now }
    requires room { length marks.old ≤ vec_capacity path.old }
    requires empty { path.old.items ≡ [] }
    requires walks { Walks (root_in classes.old) (known_by forms.now shapes.now) marks.old [] }
    requires within { class < length forms.now }
    requires own { root_in classes.old class ≡ class }
    ensures same { classes.new ≡ classes.old }
    ensures room { vec_capacity path.old ≤ vec_capacity path.new }
    ensures empty { IsTrue result → path.new.items ≡ [] }
    ensures done { IsTrue result → Visited (root_in classes.old) (known_by forms.now shapes.now) marks.old marks.new class }
    ensures circle { result ≡ false → (size : ℕ → ℕ) → Sizes (root_in classes.old) (known_by forms.now shapes.now) size → ⊥ }
{
    if marks[class] != Mark::New {
        return true;
    }
    marks[class] = Mark::Open;
    path.push((class, 0)).unwrap();
    while let Some((at, from)) = path.pop() {
        if !advance(forms, classes, shapes, marks, path, at, from) {
            return false;
        }
    }
    true
}
