//! The lemmas of the pass. These functions do nothing: their contracts are the laws.

ghost use Rattle.std.specs.Prelude.{◌≡◌, ◌+◌, ◌≤◌, ℕ, Bool, false, List, [], length};
ghost use Rattle.rml_fol.specs.declared.terms.Expression.{Expression};
ghost use Rattle.rml_fol.specs.declared.statements.Callee.{Callee};
ghost use Rattle.rml_fol.specs.declared.statements.Stmt.TheOpen.{Stmt-F as Clause-F};
ghost use Rattle.rml_fol.specs.Expressions.{Vals, cells_of};
ghost use Rattle.rml_fol.specs.Weights as clause;
ghost use Rattle.rml_fol.specs.Statements as clauses;
ghost use Rattle.rml_cps.specs.declared.statements.Continuation.{Continuation};
ghost use Rattle.rml_cps.specs.declared.statements.Continuation.TheVariants as continuation;
ghost use Rattle.rml_cps.specs.Weights as cps;
ghost use Rattle.rml_cps.specs.Statements.{RelationActs, Doing, is_named};
ghost use Rattle.rml_tocps.specs.Carries.{take, take_all, AreNew, Carries};
ghost use Rattle.rml_base.specs.Light.{Light, NoWrong};
ghost use Rattle.rml_terms.specs.Calling.{RelationCalls};
ghost use Rattle.rml_fol.specs.declared.parts.Relation as clause_relation;
ghost use Rattle.rml_fol.specs.declared.parts.Parts as clause_parts;
ghost use Rattle.rml_fol.specs.Statements.{Scoped};
ghost use Rattle.rml_fol.specs.Runs as clause_runs;
ghost use Rattle.rml_cps.specs.declared.statements.Stmt.TheOpen.{Stmt-F};
ghost use Rattle.rml_cps.specs.declared.parts.Relation.{Relation};
ghost use Rattle.rml_cps.specs.declared.parts.Parts.{Parts};
ghost use Rattle.rml_cps.specs.Statements.{block};
ghost use Rattle.rml_cps.specs.Runs.{runs_of};
ghost use Rattle.rml_tocps.specs.Blocks.{OldBlock, NewBlock, goto_spare, BlockCarries, FirstCarries, old_cond, old_before, new_before, old_last, new_last, old_or, old_others, new_or, old_body, new_body, first_taken, RelationCarries, AreCarried};
ghost use Rattle.rml_fol.specs.declared.parts.Name.{Name};
ghost use Rattle.rml_tocps.specs.Examples.{in_clauses, in_continuations};
ghost use Rattle.rml_tocps.specs.Cases.{BothCase, EachCarries, old_switch, new_switch};
ghost use Rattle.rml_value.specs.declared.value.Value.{out-Value};
ghost use Rattle.rml_terms.specs.declared.state.Matched.TheVariants as matched;
ghost use Rattle.rml_terms.specs.Env.{bind};
ghost use Rattle.rml_terms.specs.Matching.{Matcher, match_con, match_tuple_at};
ghost use Rattle.rml_fol.specs.declared.terms.Literal.{Literal};
ghost use Rattle.rml_fol.specs.declared.terms.Expression.TheVariants as expression;
ghost use Rattle.rml_fol.specs.declared.statements.Tag.TheVariants as tag;
ghost use Rattle.rml_fol.specs.Patterns.{match_literal, matching, binds};
ghost use Rattle.rml_fol.specs.declared.terms.Pattern.{Pattern};
ghost use Rattle.rml_tocps.specs.Matches.{Matches, new_test, PartOf, EachPart, parts_taken, new_parts, matchers};
ghost use Rattle.rml_tocps.specs.Pass.{Old, New, old_stmt, both_old, both_new, new_set, new_built_in, new_equal, new_call, new_not, GoalCarries};

/// The statements that go on carry those of clause form, whatever follows, with what there is to spare before and after them.
pub fn statements_carry()
    ensures both { (h : Continuation) (s t u : ℕ) (p q r : ℕ → Bool) (a b : Old) (x y : New) → Carries h s p t q a x → Carries h t q u r b y → Carries h s p u r (both_old a b) (both_new x y) }
    ensures sets { (h : Continuation) (s t : ℕ) (p : ℕ → Bool) (x : ℕ) (e : Expression) → p x ≡ false → cps.set_weight e + t ≤ clause.set_weight (cells_of e) + s
        → Carries h s p t (take x p) (old_stmt (Clause-F.Set x e)) (new_set x e) }
    ensures built_ins { (h : Continuation) (s t : ℕ) (p : ℕ → Bool) (number : ℕ) (xs ys : List ℕ) → AreNew ys p → cps.built_in_weight number (length ys) + t ≤ clause.built_in_weight number (length ys) + s
        → Carries h s p t (take_all ys p) (old_stmt (Clause-F.Builtin number xs ys)) (new_built_in number xs ys h) }
    ensures equals { (h : Continuation) (s t : ℕ) (p : ℕ → Bool) (x y : ℕ) → t ≤ clause.equal_weight + s → Carries h s p t p (old_stmt (Clause-F.Equal x y)) (new_equal x y h) }
    ensures calls { (h : Continuation) (s t : ℕ) (p : ℕ → Bool) (n : ℕ) (callee : Callee) (xs ys : List ℕ) → AreNew ys p → cps.entry_weight (length ys) + t ≤ clause.entry_weight (length ys) + (clause.call_weight + s)
        → Carries h s p t (take_all ys p) (old_stmt (Clause-F.Call callee xs ys)) (new_call n callee xs ys h) }
    ensures nots { (h : Continuation) (s u v t : ℕ) (p : ℕ → Bool) (n : ℕ) (block : Vals → RelationCalls → List clauses.Action) (goal : Vals → RelationActs → Doing) → is_named n h ≡ false
        → cps.failure_weight + (u + v) ≤ clause.not_weight + s → cps.entry_weight 0 + t ≤ clause.entry_weight 0 + v
        → GoalCarries h (continuation.Named n) u p (λ vals olds. clauses.in_turn (block vals olds)) goal
        → Carries h s p t p (λ vals olds. clauses.act vals olds (Clause-F.Not (block vals olds))) (new_not n goal) }
{}

/// Blocks: a statement before one, the statements that nothing follows, alternatives, and named bodies.
pub fn blocks_carry()
    ensures before { (h : Continuation) (s t : ℕ) (p q : ℕ → Bool) (a : Old) (x : New) (old : OldBlock) (new : NewBlock) → Carries h s p t q a x → BlockCarries h t q old new → BlockCarries h s p (old_before a old) (new_before x new) }
    ensures fails { (h : Continuation) (s : ℕ) (p : ℕ → Bool) → BlockCarries h s p (old_last Clause-F.Fail) (new_last (Stmt-F.Fail h)) }
    ensures gives { (h : Continuation) (s : ℕ) (p : ℕ → Bool) (xs : List ℕ) → BlockCarries h s p (old_last (Clause-F.Give xs)) (new_last (Stmt-F.Answer continuation.Own xs)) }
    ensures ors { (h : Continuation) (s u v t : ℕ) (p : ℕ → Bool) (n : ℕ) (a b : OldBlock) (rest : Vals → RelationCalls → List Scoped) (x y : NewBlock)
        → cps.failure_weight + (u + v) ≤ s → cps.entry_weight 0 + t ≤ clause.entry_weight 0 + v
        → BlockCarries (continuation.Named n) u p a x → BlockCarries h t p (old_others b rest) y → BlockCarries h s p (old_or a b rest) (new_or n x y) }
    ensures goals { (h inner : Continuation) (s t : ℕ) (p q : ℕ → Bool) (a : Old) (x : New) → Carries inner s p t q a x
        → GoalCarries h inner s p (old_before a (old_last (Clause-F.Give []))) (new_before x (new_last (Stmt-F.Fail h))) }
    ensures firsts { (h inner : Continuation) (s t : ℕ) (p q : ℕ → Bool) (a : Old) (x : New) (xs : List ℕ) (second : OldBlock) (new : NewBlock) → Carries inner s p t q a x → BlockCarries h t q second new
        → FirstCarries h inner s p (old_before a (old_last (Clause-F.Give xs))) second (new_before x new) }
    ensures conds { (h : Continuation) (s u v t : ℕ) (p : ℕ → Bool) (n : ℕ) (a b c : OldBlock) (x z : NewBlock) → is_named n h ≡ false
        → cps.failure_weight + (u + v) ≤ s → cps.entry_weight 0 + t ≤ clause.entry_weight 0 + v
        → FirstCarries h (continuation.Named n) u p a b x → BlockCarries h t p c z → BlockCarries h s p (old_cond a b c) (new_or n x z) }
    ensures switches { (h : Continuation) (s : ℕ) (p : ℕ → Bool) (x : ℕ) (ks : List BothCase) (old_else : OldBlock) (new_else : NewBlock) → EachCarries h s p ks → BlockCarries h s p old_else new_else
        → BlockCarries h s p (old_switch x ks old_else) (new_switch x ks new_else) }
    ensures gotos { (h : Continuation) (s : ℕ) (p : ℕ → Bool) (n : ℕ) (xs : List ℕ) → BlockCarries h s p (old_last (Clause-F.Goto n xs)) (new_last (Stmt-F.Goto n xs h)) }
    ensures bodies { (h : Continuation) (s : ℕ) (p : ℕ → Bool) (n : ℕ) (xs : List ℕ) (m : ℕ) (block rest : OldBlock) (x y : NewBlock) → AreNew xs p
        → BlockCarries (continuation.Named m) goto_spare (take_all xs p) block x → BlockCarries h s p rest y → BlockCarries h s p (old_body n xs block rest) (new_body n xs m x y) }
{}

/// A relation carries the one of clause form where its block does, with what a path's beginning spares; and programs whose relations
/// carry one another are `Light`.
pub fn relations_carry()
    ensures relations { (vals : Vals) (old : clause_relation.Relation) (new : Relation) (s : ℕ) → new.params ≡ old.params → cps.entry_weight 0 + s ≤ clause.entry_weight 0
        → BlockCarries continuation.Own s (first_taken old.params) (λ vals olds. clauses.block vals olds old.body.stmts) (λ vals news. block vals news new.body.stmts)
        → RelationCarries vals old new }
    ensures programs { (p : clause_parts.Parts) (q : Parts) → NoWrong (clause_runs.runs_of p) → AreCarried p q → Light (clause_runs.runs_of p) (runs_of q) }
{}

/// Patterns: `_`, a variable, `as`, a literal, a tuple, a constructor; and a `match`, by its pattern.
pub fn patterns_match()
    ensures anys { (h : Continuation) (p : ℕ → Bool) (x : ℕ) → Matches h p p (λ v env. matched.Yes env) x (λ vals news onward. onward) }
    ensures vars { (h : Continuation) (p : ℕ → Bool) (x y : ℕ) → p y ≡ false → Matches h p (take y p) (λ v env. matched.Yes (bind y v env)) x (new_set y (expression.Var x)) }
    ensures binds { (h : Continuation) (p q : ℕ → Bool) (m : Matcher) (x y : ℕ) (new : New) → p y ≡ false → Matches h (take y p) q m x new
        → Matches h p q (λ v env. m v (bind y v env)) x (both_new (new_set y (expression.Var x)) new) }
    ensures tuples { (h : Continuation) (p : ℕ → Bool) (x : ℕ) (parts : List PartOf) → EachPart h p x 1 parts
        → Matches h p (parts_taken p parts) (λ v env. match_tuple_at (matchers parts) (out-Value v) env) x (new_parts parts) }
    ensures constructors { (h : Continuation) (p : ℕ → Bool) (x c : ℕ) (parts : List PartOf) → EachPart h p x 1 parts
        → Matches h p (parts_taken p parts) (match_con c (matchers parts)) x (both_new (new_test (tag.Con c) x h) (new_parts parts)) }
    ensures matches { (h : Continuation) (s t : ℕ) (p q : ℕ → Bool) (x : ℕ) (pattern : Pattern) (new : New) → t ≤ clause.match_weight (binds pattern) + s → Matches h p q (matching pattern) x new
        → Carries h s p t q (old_stmt (Clause-F.Match x pattern)) new }
    ensures literals { (h : Continuation) (p : ℕ → Bool) (l : Literal) (x : ℕ) → Matches h p p (λ v env. match_literal l (out-Value v) env) x (new_test (tag.Lit l) x h) }
{}

/// A relation that begins with alternatives is carried: what a path spares where it begins is enough for them.
pub fn alternatives_are_carried()
    ensures { (vals : Vals) (name : Name) → RelationCarries vals (in_clauses name) (in_continuations name) }
{}
