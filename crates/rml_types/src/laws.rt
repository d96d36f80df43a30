//! What holds of schemes, of substitutions and the instances that they give, of types by their labels and as trees, and of
//! most general types. These functions do nothing: their contracts are the laws.

ghost use Rattle.std.specs.Prelude.{◌≡◌, ◌<◌, ◌≤◌, ℕ, List, IsTrue, get_or, length, map};
ghost use Rattle.rml_types.specs.declared.scheme.Scheme.{Scheme};
ghost use Rattle.rml_types.specs.declared.tree.SchemeTree.{SchemeTree};
ghost use Rattle.rml_types.specs.declared.tree.SchemeTree.TheVariants as tree;
ghost use Rattle.rml_types.specs.Schemes.{inst, unit, vars_below};
ghost use Rattle.rml_types.specs.Finite.{nodes, tree_of};
ghost use Rattle.rml_types.specs.General.{HasType, IsGeneral, variables_in};
ghost use Rattle.rml_types.specs.Nodes.{Nodes};
ghost use Rattle.rml_types.specs.Trees.{Same};
ghost use Rattle.rml_types.specs.Instances.{IsInstance};
ghost use Rattle.rml_types.specs.Labels.{labels};
ghost use Rattle.rml_types.specs.Runs.{Ready};
ghost use Rattle.rml_types.specs.Spelled.{numbers_in};

/// Substitution by lists of types.
pub fn substitutions()
    // substituting twice is substituting once
    ensures twice { (rs ts : List SchemeTree) (t : SchemeTree) → inst rs (inst ts t) ≡ inst (map (inst rs) ts) t }
    // only the types of variables that are named matter
    ensures named { (vars : ℕ) (rs ts : List SchemeTree) (t : SchemeTree) → IsTrue (vars_below vars t)
        → ((k : ℕ) → k < vars → get_or rs k unit ≡ get_or ts k unit) → inst rs t ≡ inst ts t }
    // each variable for itself changes nothing
    ensures same { (vars : ℕ) (ts : List SchemeTree) (t : SchemeTree) → IsTrue (vars_below vars t)
        → ((k : ℕ) → k < vars → get_or ts k unit ≡ tree.Var k) → inst ts t ≡ t }
{}

/// Each scheme's variables are below its count.
pub fn scheme_vars()
    ensures { (s : Scheme) → IsTrue (vars_below s.vars s.body) }
{}

/// The instances of a type are what substitutions give.
pub fn instances()
    ensures body { (body : SchemeTree) → IsInstance body body }
    ensures instances { (body t : SchemeTree) (ts : List SchemeTree) → IsInstance body t → IsInstance body (inst ts t) }
{}

/// Types by their labels.
pub fn types_by_labels()
    // types with the same labels are one type
    ensures one { (s t : SchemeTree) → labels s ≡ labels t → s ≡ t }
    // a type can be made of the labels of a type
    ensures ready { (t : SchemeTree) → (vars : ℕ) × Ready vars (labels t) 0 }
    // each node of a type has a label
    ensures nodes { (t : SchemeTree) → length (labels t) ≡ nodes t }
    // the variables among the labels are those of the type, from left to right
    ensures variables { (t : SchemeTree) → numbers_in (labels t) ≡ variables_in t }
{}

/// Finite types, as trees.
pub fn finite_types()
    // types with one tree are one type
    ensures trees { (s t : SchemeTree) → Same (tree_of s) (tree_of t) → s ≡ t }
{}

/// The most general type of a node is the narrowest of its types.
pub fn general_types()
    ensures narrowest { (g : Nodes) (node : ℕ) (body t : SchemeTree) → IsGeneral g node body → HasType g node t → nodes body ≤ nodes t }
{}
