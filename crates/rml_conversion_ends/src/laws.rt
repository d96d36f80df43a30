//! What the pass makes keeps. These functions do nothing: their contracts are the laws.

ghost use Rattle.std.specs.Prelude.{◌≡◌, true};
ghost use Rattle.std.specs.List.{list_all};
ghost use Rattle.rml_fol.specs.declared.parts.Relation as clause;
ghost use Rattle.rml_fol.specs.declared.parts.Parts as clauses;
ghost use Rattle.rml_fol.specs.Ends as old;
ghost use Rattle.rml_cps.specs.Ends as new;
ghost use Rattle.rml_conversion.specs.Tables.{relation_made, tables_made};

/// Where the blocks of a relation end, those of what is made of it do; and so it is for tables.
pub fn what_is_made_ends()
    ensures relations { (r : clause.Relation) → old.relation_ends r ≡ true → new.relation_ends (relation_made r) ≡ true }
    ensures tables { (p : clauses.Parts) → list_all old.relation_ends p.rels ≡ true → list_all new.relation_ends (tables_made p).rels ≡ true }
{}
