//! What holds of the values of expressions and vals. These functions do nothing: their contracts are the laws.

ghost use Rattle.std.specs.Prelude.{◌≡◌, ◌<◌, [], ℕ, List, length, IsSome, IsTrue, option_and_then, slice_get};
ghost use Rattle.std.specs.List.{Contains};
ghost use Rattle.rml_simulation.specs.declared.partial.Trace.{Trace};
ghost use Rattle.rml_simulation.specs.declared.partial.Partial.TheVariants.{Yes};
ghost use Rattle.rml_value.specs.declared.value.Value.{Value};
ghost use Rattle.rml_builtin.specs.Applied.{Store};
ghost use Rattle.rml_resolved.specs.Binding.{binds, all_bind, uses, all_use, can_use, after_goal, after_goals};
ghost use Rattle.rml_resolved.specs.Fits.{counts_of, exp_fits, exps_fit};
ghost use Rattle.rml_resolved.specs.declared.program.Program.{Program};
ghost use Rattle.rml_resolved.specs.declared.tables.RelDef.{RelDef};
ghost use Rattle.rml_resolved.specs.declared.tables.ValDef.{ValDef};
ghost use Rattle.rml_resolved.specs.declared.tables.RRule.{RRule};
ghost use Rattle.rml_resolved.specs.declared.trees.RExp.{RExp};
ghost use Rattle.rml_resolved.specs.declared.trees.RPat.{RPat};
ghost use Rattle.rml_resolved.specs.declared.trees.RGoal.{RGoal, out-RGoal};
ghost use Rattle.rml_terms.specs.declared.state.Matched.TheVariants as matched;
ghost use Rattle.rml_search.specs.declared.state.State.{State};
ghost use Rattle.rml_terms.specs.Env.{Env, bound_in};
ghost use Rattle.rml_terms.specs.Calling.{RelationCalls};
ghost use Rattle.rml_search.specs.Matching.{matching, matching_all};
ghost use Rattle.rml_search.specs.Context.{Context};
ghost use Rattle.rml_search.specs.Values.{value_of, values_of};
ghost use Rattle.rml_search.specs.Search.{going, going_all};
ghost use Rattle.rml_search.specs.Whole.{context_of};
ghost use Rattle.rml_search.specs.Standing.{BindsAlso, HasBound, Stands, HasValues};

/// A val is its expression's value; the depth to which vals are found is no bound. A number that no val has is none on both
/// sides.
pub fn a_val_is_its_expression()
    ensures { (p : Program) (k : ℕ) → (context_of p).vals k ≡ option_and_then (λ (def : ValDef). value_of (context_of p) def.value []) (slice_get p.vals k) }
{}

/// Each val of a program has a value.
pub fn each_val_has_a_value()
    ensures { (p : Program) (k : ℕ) → k < length p.vals → IsSome ((context_of p).vals k) }
{}

/// Expressions whose numbers fit a program have values where the variables that they use are bound.
pub fn expressions_have_values()
    ensures one { (p : Program) (vars : ℕ) (e : RExp) (env : Env) → IsTrue (exp_fits (counts_of p.names p.vals p.rels) p.cons vars e)
        → IsTrue (can_use (uses e) (bound_in env)) → IsSome (value_of (context_of p) e env) }
    ensures several { (p : Program) (vars : ℕ) (es : List RExp) (env : Env) → IsTrue (exps_fit (counts_of p.names p.vals p.rels) p.cons vars es)
        → IsTrue (can_use (all_use es) (bound_in env)) → IsSome (values_of (context_of p) es env) }
{}

/// After a match, what was bound before is bound, and behind it the variables of the patterns, in their order.
pub fn matches_bind()
    ensures one { (names : List (List ℕ)) (q : RPat) (v : Value) (env : Env) → BindsAlso env (binds q) (matching names q v env) }
    ensures several { (names : List (List ℕ)) (qs : List RPat) (vs : List Value) (env : Env) → BindsAlso env (all_bind qs) (matching_all names qs vs env) }
{}

/// After an answer of goals, what these say is bound, given what was bound before.
pub fn goals_bind()
    ensures one { (c : Context) (calls : RelationCalls) (g : RGoal) (env : Env) (bound : List ℕ) → after_goal g (bound_in env) ≡ Some bound
        → (store : Store) (n : ℕ) → HasBound bound (going c calls g env store n) }
    ensures several { (c : Context) (calls : RelationCalls) (gs : List RGoal) (env : Env) (bound : List ℕ) → after_goals gs (bound_in env) ≡ Some bound
        → (store : Store) (n : ℕ) → HasBound bound (going_all c calls gs env store n) }
{}

/// In the search of a program each expression, and each variable and val that is called, has a value where it comes to be
/// evaluated: those of a goal where it stands, and the results of a rule behind its premises.
pub fn no_expression_is_without_a_value()
    ensures goals { (p : Program) (calls : RelationCalls) (g : RGoal) (env : Env) → Stands p calls g env → HasValues (context_of p) env (out-RGoal g) }
    ensures results { (p : Program) (calls : RelationCalls) (r : RelDef) (rule : RRule) (vs : List Value) (env : Env) (store : Store) (n m : ℕ) (s : State) (t : Trace)
        → Contains p.rels r → Contains r.rules rule → matching_all p.names rule.inputs vs [] ≡ matched.Yes env
        → going_all (context_of p) calls rule.goals env store n ≡ Yes s t m → IsSome (values_of (context_of p) rule.results s.env) }
{}
