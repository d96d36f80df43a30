//! Equations between nodes. Pairs of nodes wait to be made equal; where two classes become one, the pairs of their
//! arguments wait in turn. Each equation takes time that grows with what it makes one, since shared nodes are met once.

ghost use Rattle.std.specs.Prelude.{◌≡◌, ℕ, ◌<◌, ◌++◌, ◌∷◌, [], length, map, slice_index, slice_set, get_or, min, max, Option, Some, None, IfNone, IfErr, MatchResult, OnOk, OnErr, option_and_then};
ghost use Rattle.std.specs.Option.{option_copied, option_or};
ghost use Rattle.std.specs.Result.{result_err};
ghost use Rattle.rml_types.specs.Finite.{CannotEquateTypes, EquatesTypes};
ghost use Rattle.rml_types.specs.Kept.{IsGraph, IsOpen, known_by};
ghost use Rattle.rml_types.specs.Nodes.{CannotEquate, Equates, Nodes, Solves, form_in};
ghost use Rattle.rml_types.specs.Trees.{Tree};
ghost use Rattle.rml_types.specs.Turns.{Stuck, Turn};
ghost use Rattle.rml_types.specs.UnionFind.{moved};
ghost use Rattle.rml_types.specs.Waiting.{CanMeet, argument_pairs, met_pairs};

use crate::form::{Form, UnifyErr};
use crate::graph::{Graph, form_at};
use crate::union_find::UnionFind;
use std::alloc::Global;

type Pair = (usize, usize);

impl Graph {
    /// Makes two nodes equal. Clash comes exactly where the equations so far with this one have no solution in finite or
    /// cyclic trees. After an error each later call answers the same error.
    pub fn unify(&mut self, a: usize, b: usize) -> Result<(), UnifyErr>
        requires a_within { a < length self.old.forms }
        requires b_within { b < length self.old.forms }
        ensures forms { self.new.forms ≡ self.old.forms }
        ensures failed { self.new.failed ≡ result_err result }
        ensures again { (e : UnifyErr) → self.old.failed ≡ Some e → (result ≡ Err e) × (self.new ≡ self.old) }
        ensures ok { OnOk result (Equates self.old self.new a b) }
        ensures types { OnOk result (EquatesTypes self.old self.new a b) }
        ensures solvable { OnOk result ((tree : ℕ → Tree) × Solves self.new tree) }
        ensures clash { result ≡ Err UnifyErr.Clash → self.old.failed ≡ None → CannotEquate self.old a b }
        ensures no_types { result ≡ Err UnifyErr.Clash → self.old.failed ≡ None → CannotEquateTypes self.old a b }
    {
        if let Some(error) = self.failed {
            return Err(error);
        }
        let done = settle(
            self.alloc,
            &self.forms,
            &mut self.classes,
            &mut self.shapes,
            a,
            b,
        );
        self.failed = done.err();
        done
    }
}

/// Makes two nodes of a graph without an error equal, and what follows from it.
fn settle(
    alloc: Global,
    forms: &[Option<Form>],
    classes: &mut UnionFind,
    shapes: &mut [Option<usize>],
    a: usize,
    b: usize,
) -> Result<(), UnifyErr>
    requires graph { IsGraph (record { forms = forms.now; roots = classes.old; failed = None }) shapes.old }
    requires a_within { a < length forms.now }
    requires b_within { b < length forms.now }
    ensures graph { IsGraph (record { forms = forms.now; roots = classes.new; failed = result_err result }) shapes.new }
    ensures ok { OnOk result (Equates (record { forms = forms.now; roots = classes.old; failed = None }) (record { forms = forms.now; roots = classes.new; failed = None }) a b) }
    ensures clash { result ≡ Err UnifyErr.Clash → CannotEquate (record { forms = forms.now; roots = classes.old; failed = None }) a b }
{
    let mut work = Vec::new(alloc);
    if work.push((a, b)).is_err() {
        return Err(UnifyErr::Memory);
    }
    while let Some((m, n)) = work.pop() {
        equate(forms, classes, shapes, m, n, &mut work)?;
    }
    Ok(())
}

/// Makes the two nodes of a pair equal, and lets the pairs of their arguments wait.
fn equate(
    forms: &[Option<Form>],
    classes: &mut UnionFind,
    shapes: &mut [Option<usize>],
    m: usize,
    n: usize,
    work: &mut Vec<Pair>,
) -> Result<(), UnifyErr>
    requires graph { IsOpen forms.now classes.old shapes.old }
    requires m_within { m < length forms.now }
    requires n_within { n < length forms.now }
    ensures ok { OnOk result (Turn forms.now classes.old shapes.old work.old.items m n classes.new shapes.new work.new.items) }
    ensures clash { result ≡ Err UnifyErr.Clash → Stuck forms.now classes.old shapes.old work.old.items m n }
    ensures err { OnErr result (IsOpen forms.now classes.new shapes.new) }
{
    let one = classes.find(m);
    let other = classes.find(n);
    if one == other {
        return Ok(());
    }
    let kept = one.min(other);
    let lost = one.max(other);
    unite(forms, classes, shapes, kept, lost, work)
}

/// Makes two classes one, of which the lesser root stays, and lets the pairs of their arguments wait.
fn unite(
    forms: &[Option<Form>],
    classes: &mut UnionFind,
    shapes: &mut [Option<usize>],
    kept: usize,
    lost: usize,
    work: &mut Vec<Pair>,
) -> Result<(), UnifyErr>
    requires graph { IsOpen forms.now classes.old shapes.old }
    requires order { kept < lost }
    requires within { lost < length forms.now }
    requires kept_root { slice_index classes.old kept ≡ kept }
    requires lost_root { slice_index classes.old lost ≡ lost }
    ensures classes { OnOk result (classes.new ≡ map (moved kept lost) classes.old) }
    ensures shapes { OnOk result (shapes.new ≡ slice_set shapes.old kept (option_or (get_or shapes.old kept None) (get_or shapes.old lost None))) }
    ensures can { OnOk result (CanMeet (known_by forms.now shapes.old kept) (known_by forms.now shapes.old lost)) }
    ensures work { OnOk result (work.new.items ≡ work.old.items ++ met_pairs (known_by forms.now shapes.old kept) (known_by forms.now shapes.old lost)) }
    ensures clash { result ≡ Err UnifyErr.Clash → CanMeet (known_by forms.now shapes.old kept) (known_by forms.now shapes.old lost) → ⊥ }
    ensures err { OnErr result ((classes.new ≡ classes.old) × (shapes.new ≡ shapes.old)) }
{
    let form = form_at(forms, shapes[kept]);
    let other = form_at(forms, shapes[lost]);
    if let (Some(form), Some(other)) = (form, other) {
        meet(form, other, work)?;
    }
    shapes[kept] = shapes[kept].or(shapes[lost]);
    classes.union(kept, lost);
    Ok(())
}

/// Lets the pairs of the arguments of two forms wait, where the forms can be one.
fn meet(form: &Form, other: &Form, work: &mut Vec<Pair>) -> Result<(), UnifyErr>
    ensures can { OnOk result (CanMeet (Some form.now) (Some other.now)) }
    ensures work { OnOk result (work.new.items ≡ work.old.items ++ argument_pairs form.now.args other.now.args) }
    ensures clash { result ≡ Err UnifyErr.Clash → CanMeet (Some form.now) (Some other.now) → ⊥ }
{
    let args = form.args.as_slice();
    let others = other.args.as_slice();
    if form.con != other.con || args.len() != others.len() {
        return Err(UnifyErr::Clash);
    }
    for (i, arg) in args.iter().enumerate() {
        if work.push((*arg, others[i])).is_err() {
            return Err(UnifyErr::Memory);
        }
    }
    Ok(())
}
