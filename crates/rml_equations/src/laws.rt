//! What holds of the codings of types. These functions do nothing: their contracts are the laws.

ghost use Rattle.std.specs.Prelude.{◌≡◌, List, map};
ghost use Rattle.rml_types.specs.declared.tree.SchemeTree.{SchemeTree};
ghost use Rattle.rml_types.specs.declared.tree.SchemeTree.TheVariants as tree;
ghost use Rattle.rml_types.specs.Schemes.{inst};
ghost use Rattle.rml_equations.specs.declared.coding.Coding.{Coding};
ghost use Rattle.rml_equations.specs.Coding.{coded, decoded, relation_as};

/// What is coded is decoded; instances are coded to instances, and decoded to instances; and relation types of types as they
/// stand are relation types as they stand.
pub fn codings_keep_instances()
    ensures undone { (c : Coding) (t : SchemeTree) → decoded c (coded c t) ≡ t }
    ensures instances_coded { (c : Coding) (ts : List SchemeTree) (t : SchemeTree) → coded c (inst ts t) ≡ inst (map (coded c) ts) (coded c t) }
    ensures instances_decoded { (c : Coding) (ts : List SchemeTree) (t : SchemeTree) → decoded c (inst ts (coded c t)) ≡ inst (map (decoded c) ts) t }
    ensures relations_coded { (c : Coding) (us ws : List SchemeTree) → coded c (tree.Rel us ws) ≡ relation_as c (map (coded c) us) (map (coded c) ws) }
    ensures relations_decoded { (c : Coding) (us ws : List SchemeTree) → decoded c (relation_as c us ws) ≡ tree.Rel (map (decoded c) us) (map (decoded c) ws) }
{}
