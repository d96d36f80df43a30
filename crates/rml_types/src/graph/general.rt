//! From a node back to a scheme: its most general type, written out as a tree. The type is first spelled by classes, in
//! reverse Polish order, which stops as soon as more classes are called for than there may be nodes.

ghost use Rattle.std.specs.Prelude.{◌≡◌, ℕ, ◌+◌, ◌<◌, ◌≤◌, ◌^◌, length, None, All, IfOk, IfNone, IfSome, OnOk, option_and_then};
ghost use Rattle.std.specs.Option.{option_copied};
ghost use Rattle.rml_types.specs.Finite.{HasTypes, nodes};
ghost use Rattle.rml_types.specs.General.{IsGeneral, IsNumbered, IsWide};
ghost use Rattle.rml_types.specs.Kept.{IsOpen, known_by};
ghost use Rattle.rml_types.specs.Labels.{labels};
ghost use Rattle.rml_types.specs.Nodes.{HasNoFixed, form_in, root_in};
ghost use Rattle.rml_types.specs.Runs.{Ready};
ghost use Rattle.rml_types.specs.Spelled.{Numbered, Spells, Unfixed, Unfolds, args_in, class_labels, label_by, place, vars_with};
ghost use Rattle.rml_types.specs.declared.tree.SchemeTree.{SchemeTree};

use crate::form::{Form, TypeCon};
use crate::graph::{Graph, form_at};
use crate::labels::{Label, tree_of};
use crate::scheme::Scheme;
use crate::union_find::UnionFind;
use indexmap::IndexSet;
use rml_base::Memory;
use std::alloc::Global;

impl Graph {
    /// The most general type of a node, its variables numbered in order of first occurrence. None exactly where it has more
    /// than `limit` nodes; no larger tree is written out for that, and time and memory are bounded by the limit.
    pub fn general(&mut self, node: usize, limit: u32) -> Result<Option<Scheme>, Memory>
        requires within { node < length self.old.forms }
        requires accepted { self.old.failed ≡ None }
        requires finite { (types : ℕ → SchemeTree) × HasTypes self.old types }
        requires unfixed { HasNoFixed self.old }
        ensures same { self.new ≡ self.old }
        ensures general { IfOk result (λ o. IfSome o (λ s. IsGeneral self.old node s.body)) }
        ensures numbered { IfOk result (λ o. IfSome o (λ s. IsNumbered s.vars s.body)) }
        ensures narrow { IfOk result (λ o. IfSome o (λ s. nodes s.body ≤ limit)) }
        ensures wide { IfOk result (λ o. IfNone o (IsWide self.old node limit)) }
    {
        let spelled = spelled(
            self.alloc,
            &self.forms,
            &mut self.classes,
            &self.shapes,
            node,
            limit as usize,
        )?;
        let Some(classes) = spelled else {
            return Ok(None);
        };
        let scheme = scheme_of(self.alloc, &self.forms, &self.shapes, &classes)?;
        Ok(Some(scheme))
    }
}

/// The classes that spell the type of a node, at most `limit` of them.
fn spelled(
    alloc: Global,
    forms: &[Option<Form>],
    classes: &mut UnionFind,
    shapes: &[Option<usize>],
    node: usize,
    limit: usize,
) -> Result<Option<Vec<usize>>, Memory>
    requires graph { IsOpen forms.now classes.old shapes.now }
    requires within { node < length forms.now }
    requires unfixed { Unfixed (known_by forms.now shapes.now) }
    ensures same { classes.new ≡ classes.old }
    ensures some { IfOk result (λ o. IfSome o (λ v. Spells (root_in classes.old) (known_by forms.now shapes.now) (length forms.now) node v.items)) }
    ensures narrow { IfOk result (λ o. IfSome o (λ v. length v.items ≤ limit)) }
    ensures wide { IfOk result (λ o. IfNone o ((leaf types : ℕ → SchemeTree) → Unfolds (root_in classes.old) (known_by forms.now shapes.now) leaf types → limit < nodes (types node))) }
{
    let mut spelled = Vec::new(alloc);
    let mut waiting = Vec::new(alloc);
    waiting.push(node)?;
    while let Some(node) = waiting.pop() {
        let class = classes.find(node);
        let args = args_of(forms, shapes[class]);
        // What waits is at least one node each, and so is each argument.
        let room = (limit - spelled.len()).saturating_sub(waiting.len());
        if args.len() >= room {
            return Ok(None);
        }
        waiting.extend_from_slice(args)?;
        spelled.push(class)?;
    }
    spelled.reverse();
    Ok(Some(spelled))
}

/// The arguments of what is known of a class.
fn args_of(forms: &[Option<Form>], shape: Option<usize>) -> &[usize]
    ensures { result.now ≡ args_in (option_and_then (form_in forms.now) shape) }
{
    match form_at(forms, shape) {
        Some(form) => form.args.as_slice(),
        None => &[],
    }
}

/// The scheme of the type that some classes spell.
fn scheme_of(
    alloc: Global,
    forms: &[Option<Form>],
    shapes: &[Option<usize>],
    classes: &[usize],
) -> Result<Scheme, Memory>
    requires within { All (λ c. c < length shapes.now) classes.now }
    requires unfixed { Unfixed (known_by forms.now shapes.now) }
    requires ready { (count : ℕ) × Ready count (class_labels (known_by forms.now shapes.now) classes.now) 0 }
    requires few { length classes.now < 2 ^ 32 }
    ensures { IfOk result (λ s. Numbered (known_by forms.now shapes.now) classes.now (labels s.body) s.vars) }
{
    let (labels, vars) = numbered(alloc, forms, shapes, classes)?;
    let body = tree_of(alloc, &labels)?;
    Ok(Scheme { vars, body })
}

/// The labels of classes, and the number of variables: each class without a form is one, and they are numbered as they come.
fn numbered(
    alloc: Global,
    forms: &[Option<Form>],
    shapes: &[Option<usize>],
    classes: &[usize],
) -> Result<(Vec<Label>, u32), Memory>
    requires within { All (λ c. c < length shapes.now) classes.now }
    requires unfixed { Unfixed (known_by forms.now shapes.now) }
    requires few { length classes.now < 2 ^ 32 }
    ensures { IfOk result (λ r. Numbered (known_by forms.now shapes.now) classes.now r.0.items r.1) }
{
    let mut labels = Vec::new(alloc);
    let mut vars = IndexSet::new(alloc);
    for class in classes {
        let label = name(forms, shapes[*class], *class, &mut vars)?;
        labels.push(label)?;
    }
    Ok((labels, vars.len() as u32))
}

/// The label of a class: that of its form, or the variable of its place among those that came so far.
fn name(
    forms: &[Option<Form>],
    shape: Option<usize>,
    class: usize,
    vars: &mut IndexSet<usize>,
) -> Result<Label, Memory>
    requires { length vars.old.keys < 2 ^ 32 }
    ensures label { IfOk result (λ l. l ≡ label_by (place vars.old.keys class) (option_and_then (form_in forms.now) shape)) }
    ensures vars { OnOk result (vars.new.keys ≡ vars_with vars.old.keys class (option_and_then (form_in forms.now) shape)) }
{
    match form_at(forms, shape) {
        Some(form) => Ok((form.con, form.args.len())),
        None => {
            let (number, _) = vars.insert_full(class)?;
            Ok((TypeCon::Fixed(number as u32), 0))
        }
    }
}
