//! What holds of types that are one up to the names of their variables. These functions do nothing: their
//! contracts are the laws.

ghost use Rattle.std.specs.Prelude.{◌↔◌};
ghost use Rattle.rml_type_ops.specs.Renaming.{IsSameUpToNames};
ghost use Rattle.rml_types.specs.Instances.{IsInstance};
ghost use Rattle.rml_types.specs.declared.tree.SchemeTree.{SchemeTree};

/// Types that are one up to the names of their variables, and no others, have the same instances.
pub fn instances_up_to_names()
    ensures instances { (a b t : SchemeTree) → IsSameUpToNames a b → IsInstance a t ↔ IsInstance b t }
    // types that are instances of each other are one up to names
    ensures mutual_instances { (a b : SchemeTree) → (IsInstance a b × IsInstance b a) ↔ IsSameUpToNames a b }
{}

/// To be the same up to names is an equivalence.
pub fn same_up_to_names_is_an_equivalence()
    ensures reflexive { (a : SchemeTree) → IsSameUpToNames a a }
    ensures symmetric { (a b : SchemeTree) → IsSameUpToNames a b → IsSameUpToNames b a }
    ensures transitive { (a b c : SchemeTree) → IsSameUpToNames a b → IsSameUpToNames b c → IsSameUpToNames a c }
{}
