//! What holds of the meaning of clause form. These functions do nothing: their contracts are the laws.

ghost use Rattle.std.specs.Prelude.{◌≡◌, ◌+◌, ◌<◌, ℕ, List, map};
ghost use Rattle.rml_base.specs.Monotone.{IsMonotone};
ghost use Rattle.rml_base.specs.Limit.{LooksAtNoLimit};
ghost use Rattle.rml_simulation.specs.Calls.{StepsToCall, GrowsWithCalls};
ghost use Rattle.rml_simulation.specs.Exact.{UsesExactly, SpendsWithCalls};
ghost use Rattle.rml_builtin.specs.Called.{Called};
ghost use Rattle.rml_terms.specs.Calling.{RelationCalls};
ghost use Rattle.rml_fol.specs.declared.parts.Parts.{Parts};
ghost use Rattle.rml_fol.specs.declared.parts.Relation.{Relation};
ghost use Rattle.rml_fol.specs.declared.terms.Pattern.{Pattern};
ghost use Rattle.rml_fol.specs.declared.terms.Expression.{Expression};
ghost use Rattle.rml_fol.specs.declared.statements.Callee.{Callee};
ghost use Rattle.rml_fol.specs.declared.statements.Stmt.{Stmt};
ghost use Rattle.rml_fol.specs.declared.statements.Stmt.TheVariants as stmt;
ghost use Rattle.rml_fol.specs.declared.statements.Stmt.TheOpen.{Stmt-F};
ghost use Rattle.rml_fol.specs.declared.statements.Alternative.{Alternative};
ghost use Rattle.rml_fol.specs.declared.statements.Case.{Case};
ghost use Rattle.rml_fol.specs.Expressions.{Vals};
ghost use Rattle.rml_fol.specs.Statements.{act, action, alternative, choice};
ghost use Rattle.rml_fol.specs.Relations.{relation_body, relations, relations_to};
ghost use Rattle.rml_fol.specs.Runs.{runs_of};

/// What each statement does is what stands in the line of its kind, with what its blocks, alternatives and cases do.
pub fn statements_act()
    ensures matches { (vals : Vals) (calls : RelationCalls) (x : ℕ) (p : Pattern) → action vals calls (stmt.Match x p) ≡ act vals calls (Stmt-F.Match x p) }
    ensures sets { (vals : Vals) (calls : RelationCalls) (x : ℕ) (e : Expression) → action vals calls (stmt.Set x e) ≡ act vals calls (Stmt-F.Set x e) }
    ensures calls { (vals : Vals) (calls : RelationCalls) (f : Callee) (xs ys : List ℕ) → action vals calls (stmt.Call f xs ys) ≡ act vals calls (Stmt-F.Call f xs ys) }
    ensures built_ins { (vals : Vals) (calls : RelationCalls) (k : ℕ) (xs ys : List ℕ) → action vals calls (stmt.Builtin k xs ys) ≡ act vals calls (Stmt-F.Builtin k xs ys) }
    ensures equals { (vals : Vals) (calls : RelationCalls) (x y : ℕ) → action vals calls (stmt.Equal x y) ≡ act vals calls (Stmt-F.Equal x y) }
    ensures nots { (vals : Vals) (calls : RelationCalls) (b : List Stmt) → action vals calls (stmt.Not b) ≡ act vals calls (Stmt-F.Not (map (action vals calls) b)) }
    ensures ors { (vals : Vals) (calls : RelationCalls) (all : List Alternative) → action vals calls (stmt.Or all) ≡ act vals calls (Stmt-F.Or (map (alternative vals calls) all)) }
    ensures conds { (vals : Vals) (calls : RelationCalls) (a b c : List Stmt)
        → action vals calls (stmt.Cond a b c) ≡ act vals calls (Stmt-F.Cond (map (action vals calls) a) (map (action vals calls) b) (map (action vals calls) c)) }
    ensures switches { (vals : Vals) (calls : RelationCalls) (x : ℕ) (all : List Case) (b : List Stmt)
        → action vals calls (stmt.Switch x all b) ≡ act vals calls (Stmt-F.Switch x (map (choice vals calls) all) (map (action vals calls) b)) }
    ensures bodies { (vals : Vals) (calls : RelationCalls) (j : ℕ) (xs : List ℕ) (b : List Stmt)
        → action vals calls (stmt.Body j xs b) ≡ act vals calls (Stmt-F.Body j xs (map (action vals calls) b)) }
    ensures gotos { (vals : Vals) (calls : RelationCalls) (j : ℕ) (xs : List ℕ) → action vals calls (stmt.Goto j xs) ≡ act vals calls (Stmt-F.Goto j xs) }
    ensures gives { (vals : Vals) (calls : RelationCalls) (xs : List ℕ) → action vals calls (stmt.Give xs) ≡ act vals calls (Stmt-F.Give xs) }
    ensures fails { (vals : Vals) (calls : RelationCalls) → action vals calls stmt.Fail ≡ act vals calls Stmt-F.Fail }
{}

/// An end is stable: with more steps it stays, and what is cut only goes on.
pub fn ends_are_stable()
    ensures relations { (vals : Vals) (rels : List Relation) → GrowsWithCalls (relation_body vals rels) }
    ensures runs { (p : Parts) (args : List (List ℕ)) (cells : ℕ) → IsMonotone (runs_of p args cells) }
{}

/// A relation looks at what it calls with fewer steps alone: a call is a step. So the depth of calls never decides, and what a relation
/// does is what its body does, whose calls are again what relations do, with the steps that are left.
pub fn calls_unroll()
    ensures local { (vals : Vals) (rels : List Relation) → StepsToCall (relation_body vals rels) }
    ensures depth { (vals : Vals) (rels : List Relation) (depth more r : ℕ) (s : Called) (n : ℕ) → n < depth → relations_to vals rels depth r s n ≡ relations_to vals rels (depth + more) r s n }
    ensures unrolls { (vals : Vals) (rels : List Relation) (r : ℕ) (s : Called) (n : ℕ) → relations vals rels r s n ≡ relation_body vals rels (relations vals rels) r s n }
{}

/// A relation uses its steps exactly.
pub fn calls_are_exact()
    ensures body { (vals : Vals) (rels : List Relation) → SpendsWithCalls (relation_body vals rels) }
    ensures relations { (vals : Vals) (rels : List Relation) (r : ℕ) (s : Called) → UsesExactly (relations vals rels r s) }
{}

/// Clause form looks at no limit of cells.
pub fn no_limit_is_looked_at()
    ensures { (p : Parts) → LooksAtNoLimit (runs_of p) }
{}
