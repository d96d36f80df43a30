//! What holds of the meaning of continuation form. These functions do nothing: their contracts are the laws.

ghost use Rattle.std.specs.Prelude.{◌≡◌, ◌+◌, ◌<◌, ℕ, List, map};
ghost use Rattle.rml_base.specs.Run.{Rest};
ghost use Rattle.rml_base.specs.Monotone.{IsMonotone};
ghost use Rattle.rml_base.specs.Limit.{LooksAtNoLimit};
ghost use Rattle.rml_simulation.specs.Acts.{StepsToAct, LongerWithActs};
ghost use Rattle.rml_builtin.specs.Called.{Called};
ghost use Rattle.rml_fol.specs.declared.terms.Expression.{Expression};
ghost use Rattle.rml_fol.specs.declared.statements.Callee.{Callee};
ghost use Rattle.rml_fol.specs.Expressions.{Vals};
ghost use Rattle.rml_cps.specs.declared.parts.Parts.{Parts};
ghost use Rattle.rml_cps.specs.declared.parts.Relation.{Relation};
ghost use Rattle.rml_cps.specs.declared.statements.Continuation.{Continuation};
ghost use Rattle.rml_cps.specs.declared.statements.Stmt.{Stmt};
ghost use Rattle.rml_cps.specs.declared.statements.Stmt.TheVariants as stmt;
ghost use Rattle.rml_cps.specs.declared.statements.Stmt.TheOpen.{Stmt-F};
ghost use Rattle.rml_cps.specs.declared.statements.Case.{Case};
ghost use Rattle.rml_cps.specs.Statements.{OnAnswer, RelationActs, act, action, choice};
ghost use Rattle.rml_cps.specs.Relations.{relation_body, relations};
ghost use Rattle.rml_cps.specs.Runs.{runs_of};

/// What each statement does is what stands in the line of its kind, with what its blocks and cases do.
pub fn statements_act()
    ensures sets { (vals : Vals) (calls : RelationActs) (x : ℕ) (e : Expression) → action vals calls (stmt.Set x e) ≡ act vals calls (Stmt-F.Set x e) }
    ensures fields { (vals : Vals) (calls : RelationActs) (x y i : ℕ) → action vals calls (stmt.Field x y i) ≡ act vals calls (Stmt-F.Field x y i) }
    ensures built_ins { (vals : Vals) (calls : RelationActs) (number : ℕ) (xs ys : List ℕ) (h : Continuation)
        → action vals calls (stmt.Builtin number xs ys h) ≡ act vals calls (Stmt-F.Builtin number xs ys h) }
    ensures equals { (vals : Vals) (calls : RelationActs) (x y : ℕ) (h : Continuation) → action vals calls (stmt.Equal x y h) ≡ act vals calls (Stmt-F.Equal x y h) }
    ensures successes { (vals : Vals) (calls : RelationActs) (k : ℕ) (xs : List ℕ) (b : List Stmt)
        → action vals calls (stmt.Success k xs b) ≡ act vals calls (Stmt-F.Success k xs (map (action vals calls) b)) }
    ensures failures { (vals : Vals) (calls : RelationActs) (h : ℕ) (b : List Stmt) → action vals calls (stmt.Failure h b) ≡ act vals calls (Stmt-F.Failure h (map (action vals calls) b)) }
    ensures bodies { (vals : Vals) (calls : RelationActs) (j : ℕ) (xs : List ℕ) (h : ℕ) (b : List Stmt)
        → action vals calls (stmt.Body j xs h b) ≡ act vals calls (Stmt-F.Body j xs h (map (action vals calls) b)) }
    ensures calls { (vals : Vals) (calls : RelationActs) (f : Callee) (xs : List ℕ) (k h : Continuation) → action vals calls (stmt.Call f xs k h) ≡ act vals calls (Stmt-F.Call f xs k h) }
    ensures answers { (vals : Vals) (calls : RelationActs) (k : Continuation) (xs : List ℕ) → action vals calls (stmt.Answer k xs) ≡ act vals calls (Stmt-F.Answer k xs) }
    ensures fails { (vals : Vals) (calls : RelationActs) (h : Continuation) → action vals calls (stmt.Fail h) ≡ act vals calls (Stmt-F.Fail h) }
    ensures gotos { (vals : Vals) (calls : RelationActs) (j : ℕ) (xs : List ℕ) (h : Continuation) → action vals calls (stmt.Goto j xs h) ≡ act vals calls (Stmt-F.Goto j xs h) }
    ensures switches { (vals : Vals) (calls : RelationActs) (x : ℕ) (all : List Case) (b : List Stmt)
        → action vals calls (stmt.Switch x all b) ≡ act vals calls (Stmt-F.Switch x (map (choice vals calls) all) (map (action vals calls) b)) }
{}

/// An end is stable: with more steps it stays, and what is cut only goes on.
pub fn ends_are_stable()
    ensures relations { (vals : Vals) (rels : List Relation) → LongerWithActs (relation_body vals rels) }
    ensures runs { (p : Parts) (args : List (List ℕ)) (cells : ℕ) → IsMonotone (runs_of p args cells) }
{}

/// A relation looks at what it calls, and at what follows, with fewer steps alone. So what a relation does is what its body does, whose
/// calls are again what relations do, with the steps that are left.
pub fn acts_unroll()
    ensures local { (vals : Vals) (rels : List Relation) → StepsToAct (relation_body vals rels) }
    ensures unrolls { (vals : Vals) (rels : List Relation) (r : ℕ) (k : OnAnswer) (h : Rest) (s : Called) (n : ℕ)
        → relations vals rels r k h s n ≡ relation_body vals rels (relations vals rels) r k h s n }
{}

/// Continuation form looks at no limit of cells.
pub fn no_limit_is_looked_at()
    ensures { (p : Parts) → LooksAtNoLimit (runs_of p) }
{}
