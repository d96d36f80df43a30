//! What the pass makes fits. These functions do nothing: their contracts are the laws.

ghost use Rattle.std.specs.Prelude.{◌≡◌, ◌≤◌, true, length};
ghost use Rattle.std.specs.List.{list_all};
ghost use Rattle.rml_fol.specs.declared.parts.Relation as clause;
ghost use Rattle.rml_fol.specs.declared.parts.Parts as clauses;
ghost use Rattle.rml_fol.specs.Fits as old;
ghost use Rattle.rml_fol.specs.Fits.{Signatures, signatures_of, cons_begin, names_are_bytes};
ghost use Rattle.rml_cps.specs.Fits as new;
ghost use Rattle.rml_cps.specs.Tables.{tables_of};
ghost use Rattle.rml_conversion.specs.Tables.{relation_made, tables_made};

/// Where a relation fits what is declared, so does what is made of it, if the constructors of lists are declared; what is made of tables
/// declares what they do, has their names, and its relations fit where theirs do.
pub fn what_is_made_fits()
    ensures relations { (n : Signatures) (r : clause.Relation) → 2 ≤ length n.cons → old.relation_fits n r ≡ true → new.relation_fits n (relation_made r) ≡ true }
    ensures signatures { (p : clauses.Parts) → signatures_of (tables_of (tables_made p)) ≡ signatures_of p }
    ensures names { (p : clauses.Parts) → names_are_bytes p ≡ true → names_are_bytes (tables_of (tables_made p)) ≡ true }
    ensures tables { (p : clauses.Parts) → cons_begin p.cons ≡ true → list_all (old.relation_fits (signatures_of p)) p.rels ≡ true
        → list_all (new.relation_fits (signatures_of (tables_of (tables_made p)))) (tables_made p).rels ≡ true }
{}
