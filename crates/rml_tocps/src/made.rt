//! What holds of what the pass makes, a statement and a pattern at a time, in front of what is made already. These functions do nothing: their
//! contracts are the laws.

ghost use Rattle.std.specs.Prelude.{◌≡◌, ℕ, suc, ◌<◌, ◌≤◌, true, List, [], ◌∷◌, ◌++◌, reverse};
ghost use Rattle.rml_value.specs.declared.value.Value.{out-Value};
ghost use Rattle.rml_value.specs.declared.value.TheConstants.{NIL, CONS};
ghost use Rattle.rml_terms.specs.declared.state.Matched.TheVariants as matched;
ghost use Rattle.rml_terms.specs.Env.{bind};
ghost use Rattle.rml_terms.specs.Matching.{Matcher, match_con, match_tuple_at, match_list};
ghost use Rattle.rml_fol.specs.declared.terms.Literal.{Literal};
ghost use Rattle.rml_fol.specs.declared.terms.Pattern.{Pattern};
ghost use Rattle.rml_fol.specs.declared.terms.Expression.{Expression};
ghost use Rattle.rml_fol.specs.declared.terms.Expression.TheVariants as expression;
ghost use Rattle.rml_fol.specs.declared.statements.Callee.{Callee};
ghost use Rattle.rml_fol.specs.declared.statements.Tag.TheVariants as tag;
ghost use Rattle.rml_fol.specs.declared.statements.Stmt.{Stmt as Clause};
ghost use Rattle.rml_fol.specs.declared.statements.Stmt.TheVariants as clause;
ghost use Rattle.rml_fol.specs.Ends.{goes_on, standing, relation_ends};
ghost use Rattle.rml_fol.specs.Patterns.{match_literal, matching, bound};
ghost use Rattle.rml_cps.specs.declared.statements.Continuation.{Continuation};
ghost use Rattle.rml_cps.specs.declared.statements.Continuation.TheVariants as continuation;
ghost use Rattle.rml_cps.specs.declared.statements.Stmt.{Stmt};
ghost use Rattle.rml_cps.specs.declared.statements.Stmt.TheVariants as line;
ghost use Rattle.rml_tocps.specs.declared.pass.numbers.Numbers.{Numbers};
ghost use Rattle.rml_fol.specs.declared.statements.Alternative.{Alternative, out-Alternative};
ghost use Rattle.rml_fol.specs.declared.parts.Relation as clause_relation;
ghost use Rattle.rml_fol.specs.Expressions.{Vals};
ghost use Rattle.rml_fol.specs.Fits.{Signatures, relation_fits};
ghost use Rattle.rml_fol.specs.Scoped.{relation_is_scoped};
ghost use Rattle.rml_fol.specs.Paid.{relation_is_paid};
ghost use Rattle.rml_cps.specs.declared.parts.Relation.{Relation};
ghost use Rattle.rml_tocps.specs.Blocks.{NewBlock, RelationCarries};
ghost use Rattle.rml_tocps.specs.Passing.{made, IsUnder, Before, Passes, AllPass, CasesMade};
ghost use Rattle.rml_fol.specs.declared.statements.Case.{Case};
ghost use Rattle.rml_cps.specs.declared.statements.Case.{Case as NewCase};
ghost use Rattle.rml_tocps.specs.Matching.{MatchMade, PartMade, PartsMade, TestMade};

/// Statements that go on: none, one more, and one before a block; `set`, `equal`, a built-in, a call, a `match` by what is made of its pattern,
/// and a `not` by what is made of its goal.
pub fn made_statements_go_before()
    ensures none { (own : ℕ) (from : Numbers) (h : Continuation) (rest : List Stmt) → Before own from from h [] rest rest }
    ensures more { (own : ℕ) (from mid to : Numbers) (h : Continuation) (x : Clause) (xs : List Clause) (rest between new : List Stmt) → from.name ≤ mid.name → Before own from mid h xs rest between
        → Before own mid to h (x ∷ []) between new → Before own from to h (x ∷ xs) rest new }
    ensures blocks { (own : ℕ) (from to : Numbers) (h : Continuation) (x : Clause) (xs : List Clause) (rest new : List Stmt) → standing x ≡ goes_on → IsUnder h from.name
        → Before own from to h (x ∷ []) rest new → Passes own from.variable h xs (made rest) → Passes own to.variable h (x ∷ xs) (made new) }
    ensures sets { (own : ℕ) (from : Numbers) (h : Continuation) (x : ℕ) (e : Expression) (rest : List Stmt) → Before own from from h (clause.Set x e ∷ []) rest (rest ++ line.Set x e ∷ []) }
    ensures equals { (own : ℕ) (from : Numbers) (h : Continuation) (x y : ℕ) (rest : List Stmt) → Before own from from h (clause.Equal x y ∷ []) rest (rest ++ line.Equal x y h ∷ []) }
    ensures built_ins { (own : ℕ) (from : Numbers) (h : Continuation) (k : ℕ) (xs ys : List ℕ) (rest : List Stmt) → Before own from from h (clause.Builtin k xs ys ∷ []) rest (rest ++ line.Builtin k xs ys h ∷ []) }
    ensures calls { (own : ℕ) (from to : Numbers) (h : Continuation) (n : ℕ) (f : Callee) (xs ys : List ℕ) (rest new : List Stmt) → to.variable ≡ from.variable
        → new ≡ line.Call f xs (continuation.Named n) h ∷ line.Success n ys (reverse rest) ∷ [] → Before own from to h (clause.Call f xs ys ∷ []) rest new }
    ensures matches { (own : ℕ) (from to : Numbers) (h : Continuation) (x : ℕ) (p : Pattern) (rest new : List Stmt) → own ≤ from.variable → from.variable ≤ to.variable
        → MatchMade own from.variable to.variable h (matching p) (bound p) x rest new → Before own from to h (clause.Match x p ∷ []) rest new }
    ensures nots { (own : ℕ) (from mid to : Numbers) (h : Continuation) (n : ℕ) (goal front : List Clause) (xs : List ℕ) (rest tried new : List Stmt) → n ≡ from.name → from.name < mid.name → from.variable ≡ mid.variable
        → mid.variable ≤ to.variable → goal ≡ front ++ clause.Give xs ∷ [] → Before own mid to (continuation.Named n) front (line.Fail h ∷ []) tried → new ≡ tried ++ line.Failure n (reverse rest) ∷ []
        → Before own from to h (clause.Not goal ∷ []) rest new }
{}

/// Blocks: `fail`, `give`, `goto`, an `or`, a `cond` and a `switch`, whatever stands behind them; alternatives, one, and one more in front of others; and a
/// named body before a block.
pub fn made_blocks_pass()
    ensures fails { (own to : ℕ) (h : Continuation) (xs : List Clause) → Passes own to h (clause.Fail ∷ xs) (made (line.Fail h ∷ [])) }
    ensures gives { (own to : ℕ) (h : Continuation) (ys : List ℕ) (xs : List Clause) → Passes own to h (clause.Give ys ∷ xs) (made (line.Answer continuation.Own ys ∷ [])) }
    ensures gotos { (own to : ℕ) (h : Continuation) (j : ℕ) (ys : List ℕ) (xs : List Clause) → Passes own to h (clause.Goto j ys ∷ xs) (made (line.Goto j ys h ∷ [])) }
    ensures ors { (own to : ℕ) (h : Continuation) (all : List Alternative) (xs : List Clause) (new : NewBlock) → AllPass own to h all new → Passes own to h (clause.Or all ∷ xs) new }
    ensures alternatives { (own to : ℕ) (h : Continuation) (a : Alternative) (new : NewBlock) → Passes own to h (out-Alternative a).block new → AllPass own to h (a ∷ []) new }
    ensures others { (own mid to : ℕ) (h : Continuation) (n : ℕ) (a b : Alternative) (rest : List Alternative) (other tried new : List Stmt) → mid ≤ to → Passes own to (continuation.Named n) (out-Alternative a).block (made tried)
        → AllPass own mid h (b ∷ rest) (made other) → new ≡ tried ++ line.Failure n (reverse other) ∷ [] → AllPass own to h (a ∷ b ∷ rest) (made new) }
    ensures conds { (own low : ℕ) (mid to : Numbers) (h : Continuation) (n : ℕ) (first second third front : List Clause) (xs : List ℕ) (after : List Clause) (other answered tried new : List Stmt) → IsUnder h n → n < mid.name → low ≤ to.variable
        → mid.variable ≤ to.variable → first ≡ front ++ clause.Give xs ∷ [] → Passes own low h third (made other) → Passes own mid.variable h second (made answered) → Before own mid to (continuation.Named n) front answered tried
        → new ≡ tried ++ line.Failure n (reverse other) ∷ [] → Passes own to.variable h (clause.Cond first second third ∷ after) (made new) }
    ensures bodies { (own low to : ℕ) (h : Continuation) (j : ℕ) (ys : List ℕ) (m : ℕ) (inner rest : List Clause) (made_rest named new : List Stmt) → low ≤ to → Passes own low h rest (made made_rest)
        → Passes own to (continuation.Named m) inner (made named) → new ≡ made_rest ++ line.Body j ys m (reverse named) ∷ [] → Passes own to h (clause.Body j ys inner ∷ rest) (made new) }
    ensures switches { (own to : ℕ) (h : Continuation) (x : ℕ) (ks : List Case) (cs : List NewCase) (otherwise xs : List Clause) (other : List Stmt) → CasesMade own to h x ks cs → Passes own to h otherwise (made other)
        → Passes own to h (clause.Switch x ks otherwise ∷ xs) (made (line.Switch x cs (reverse other) ∷ [])) }
{}

/// A relation is carried where its block passes, by what a program in clause form keeps of it.
pub fn made_relations_carry()
    ensures { (vals : Vals) (n : Signatures) (old : clause_relation.Relation) (new : Relation) (to : ℕ) (ms : List Stmt) → new.params ≡ old.params → new.body.stmts ≡ reverse ms → relation_fits n old ≡ true
        → relation_is_scoped old ≡ true → relation_ends old ≡ true → relation_is_paid old ≡ true → Passes old.vars to continuation.Own old.body.stmts (made ms) → RelationCarries vals old new }
{}

/// Patterns: `_`, a variable, `as`, a literal, a tuple, a constructor, the end of a list, and an item in front of what matches the rest.
pub fn made_patterns_match()
    ensures anys { (own from : ℕ) (h : Continuation) (x : ℕ) (rest : List Stmt) → MatchMade own from from h (λ v env. matched.Yes env) [] x rest rest }
    ensures vars { (own from : ℕ) (h : Continuation) (x y : ℕ) (rest : List Stmt) → MatchMade own from from h (λ v env. matched.Yes (bind y v env)) (y ∷ []) x rest (rest ++ line.Set y (expression.Var x) ∷ []) }
    ensures binds { (own from to : ℕ) (h : Continuation) (m : Matcher) (xs : List ℕ) (x y : ℕ) (rest between : List Stmt) → MatchMade own from to h m xs x rest between
        → MatchMade own from to h (λ v env. m v (bind y v env)) (y ∷ xs) x rest (between ++ line.Set y (expression.Var x) ∷ []) }
    ensures literals { (own from : ℕ) (h : Continuation) (l : Literal) (x : ℕ) (rest new : List Stmt) → TestMade (tag.Lit l) x h rest new → MatchMade own from from h (λ v env. match_literal l (out-Value v) env) [] x rest new }
    ensures tuples { (own from to : ℕ) (h : Continuation) (ms : List Matcher) (xs : List ℕ) (x : ℕ) (rest new : List Stmt) → PartsMade own from to h ms xs x 1 rest new
        → MatchMade own from to h (λ v env. match_tuple_at ms (out-Value v) env) xs x rest new }
    ensures constructors { (own from to : ℕ) (h : Continuation) (c : ℕ) (ms : List Matcher) (xs : List ℕ) (x : ℕ) (rest between new : List Stmt) → PartsMade own from to h ms xs x 1 rest between
        → TestMade (tag.Con c) x h between new → MatchMade own from to h (match_con c ms) xs x rest new }
    ensures nils { (own from : ℕ) (h : Continuation) (x : ℕ) (rest new : List Stmt) → TestMade (tag.Con NIL) x h rest new → MatchMade own from from h (match_list []) [] x rest new }
    ensures fronts { (own from mid to : ℕ) (h : Continuation) (m tail : Matcher) (xs ys : List ℕ) (x : ℕ) (rest inner behind between new : List Stmt) → suc from ≤ mid → mid ≤ to
        → MatchMade own (suc from) mid h tail ys from rest inner → behind ≡ inner ++ line.Field from x 2 ∷ [] → PartMade own mid to h m xs x 1 behind between → TestMade (tag.Con CONS) x h between new
        → MatchMade own from to h (match_con CONS (m ∷ tail ∷ [])) (xs ++ ys) x rest new }
{}

/// Their parts: none and one more in a row; `_`, a variable, `as`, and a part that is matched in a fresh variable.
pub fn made_parts_match()
    ensures none { (own from : ℕ) (h : Continuation) (x i : ℕ) (rest : List Stmt) → PartsMade own from from h [] [] x i rest rest }
    ensures more { (own from mid to : ℕ) (h : Continuation) (m : Matcher) (ms : List Matcher) (xs ys : List ℕ) (x i : ℕ) (rest between new : List Stmt) → from ≤ mid → mid ≤ to
        → PartsMade own from mid h ms ys x (suc i) rest between → PartMade own mid to h m xs x i between new → PartsMade own from to h (m ∷ ms) (xs ++ ys) x i rest new }
    ensures anys { (own from : ℕ) (h : Continuation) (x i : ℕ) (rest : List Stmt) → PartMade own from from h (λ v env. matched.Yes env) [] x i rest rest }
    ensures vars { (own from : ℕ) (h : Continuation) (x i y : ℕ) (rest : List Stmt) → PartMade own from from h (λ v env. matched.Yes (bind y v env)) (y ∷ []) x i rest (rest ++ line.Field y x i ∷ []) }
    ensures binds { (own from to : ℕ) (h : Continuation) (m : Matcher) (xs : List ℕ) (x i y : ℕ) (rest between : List Stmt) → MatchMade own from to h m xs y rest between
        → PartMade own from to h (λ v env. m v (bind y v env)) (y ∷ xs) x i rest (between ++ line.Field y x i ∷ []) }
    ensures fresh { (own from to : ℕ) (h : Continuation) (m : Matcher) (xs : List ℕ) (x i : ℕ) (rest between : List Stmt) → suc from ≤ to → MatchMade own (suc from) to h m xs from rest between
        → PartMade own from to h m xs x i rest (between ++ line.Field from x i ∷ []) }
{}
