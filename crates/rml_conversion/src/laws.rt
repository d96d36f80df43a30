//! What holds of what the pass makes. These functions do nothing: their contracts are the laws.

ghost use Rattle.std.specs.Prelude.{◌≡◌, ◌≤◌, ℕ, true, List, map};
ghost use Rattle.std.specs.List.{list_all};
ghost use Rattle.rml_base.specs.Light.{Light, NoWrong};
ghost use Rattle.rml_fol.specs.declared.parts.Relation as clause;
ghost use Rattle.rml_fol.specs.declared.parts.Parts as clauses;
ghost use Rattle.rml_fol.specs.declared.statements.Stmt.{Stmt as Clause};
ghost use Rattle.rml_fol.specs.Ends.{relation_ends};
ghost use Rattle.rml_fol.specs.Expressions.{Vals};
ghost use Rattle.rml_fol.specs.Fits.{Signatures, signatures_of, relation_fits};
ghost use Rattle.rml_fol.specs.Paid.{relation_is_paid};
ghost use Rattle.rml_fol.specs.Runs as clause_runs;
ghost use Rattle.rml_fol.specs.Scoped.{relation_is_scoped};
ghost use Rattle.rml_cps.specs.Runs.{runs_of};
ghost use Rattle.rml_cps.specs.declared.statements.Continuation.{Continuation};
ghost use Rattle.rml_tocps.specs.declared.pass.numbers.Numbers.{Numbers};
ghost use Rattle.rml_tocps.specs.Blocks.{RelationCarries, AreCarried};
ghost use Rattle.rml_tocps.specs.Passing.{IsUnder, Passes, made};
ghost use Rattle.rml_conversion.specs.Statements.{block_of, stmt_made};
ghost use Rattle.rml_conversion.specs.Tables.{relation_made, tables_made};

/// What is made of a block passes, whatever its statements are; what is made of a relation carries it, by what a program in clause form
/// keeps; and what is made of tables costs no more than they do, and is never Wrong where they are not.
pub fn what_is_made_carries()
    ensures blocks { (own : ℕ) (xs : List Clause) (h : Continuation) (n : Numbers) → own ≤ n.variable → IsUnder h n.name
        → Passes own (block_of (map stmt_made xs) h n).numbers.variable h xs (made (block_of (map stmt_made xs) h n).lines) }
    ensures relations { (vals : Vals) (n : Signatures) (r : clause.Relation) → relation_fits n r ≡ true → relation_is_scoped r ≡ true → relation_ends r ≡ true → relation_is_paid r ≡ true
        → RelationCarries vals r (relation_made r) }
    ensures tables { (p : clauses.Parts) → list_all (relation_fits (signatures_of p)) p.rels ≡ true → list_all relation_is_scoped p.rels ≡ true → list_all relation_ends p.rels ≡ true → list_all relation_is_paid p.rels ≡ true
        → AreCarried p (tables_made p) }
    ensures programs { (p : clauses.Parts) → list_all (relation_fits (signatures_of p)) p.rels ≡ true → list_all relation_is_scoped p.rels ≡ true → list_all relation_ends p.rels ≡ true → list_all relation_is_paid p.rels ≡ true
        → NoWrong (clause_runs.runs_of p) → Light (clause_runs.runs_of p) (runs_of (tables_made p)) }
    ensures right { (p : clauses.Parts) → list_all (relation_fits (signatures_of p)) p.rels ≡ true → list_all relation_is_scoped p.rels ≡ true → list_all relation_ends p.rels ≡ true → list_all relation_is_paid p.rels ≡ true
        → NoWrong (clause_runs.runs_of p) → NoWrong (runs_of (tables_made p)) }
{}
