//! What the pass makes is small. These functions do nothing: their contracts are the laws.

ghost use Rattle.std.specs.Prelude.{◌≡◌, ◌≤◌, ◌+◌, ◌*◌, true, sum_by};
ghost use Rattle.rml_fol.specs.declared.parts.Relation as clause;
ghost use Rattle.rml_fol.specs.declared.parts.Parts as clauses;
ghost use Rattle.rml_fol.specs.Size as old;
ghost use Rattle.rml_cps.specs.Size as new;
ghost use Rattle.rml_conversion.specs.Tables.{relation_made, tables_made};
ghost use Rattle.rml_conversion_sizes.specs.Extent.{extent};

/// A relation becomes at most eight statements for each statement, pattern and variable of a case that it has, and at most two more
/// variables and one more name for each; and tables weigh what they weighed.
pub fn what_is_made_is_small()
    ensures statements { (r : clause.Relation) → sum_by new.size (relation_made r).body.stmts ≤ 8 * sum_by extent r.body.stmts }
    ensures variables { (r : clause.Relation) → (relation_made r).vars ≤ 2 * sum_by extent r.body.stmts + r.vars }
    ensures names { (r : clause.Relation) → (relation_made r).names ≤ sum_by extent r.body.stmts + r.bodies }
    ensures light { (p : clauses.Parts) → old.is_light p ≡ true → new.is_light (tables_made p) ≡ true }
{}
