//! What holds of the search. These functions do nothing: their contracts are the laws.

ghost use Rattle.std.specs.Prelude.{◌≡◌, ◌≢◌, ◌+◌, ◌*◌, ◌<◌, ℕ, Bool, List, IsTrue};
ghost use Rattle.rml_base.specs.declared.place.Place.{Place};
ghost use Rattle.rml_base.specs.Run.{Full, Wrong, goes};
ghost use Rattle.rml_base.specs.Same.{EndsAt};
ghost use Rattle.rml_base.specs.Monotone.{IsMonotone};
ghost use Rattle.rml_base.specs.Limit.{LooksAtNoLimit};
ghost use Rattle.rml_simulation.specs.Growing.{Grows};
ghost use Rattle.rml_simulation.specs.Exact.{UsesExactly};
ghost use Rattle.rml_resolved.specs.declared.program.Program.{Program};
ghost use Rattle.rml_value.specs.declared.value.Value.{Value};
ghost use Rattle.rml_search.specs.Context.{Context};
ghost use Rattle.rml_builtin.specs.Called.{Called};
ghost use Rattle.rml_search.specs.Search.{Rules, try, relations, relations_to, search_in};
ghost use Rattle.rml_search.specs.Whole.{context_of};
ghost use Rattle.rml_search.specs.Parts.{StandsAlone, rules_within};
ghost use Rattle.rml_search.specs.Loop.{loop_and, first_relation};
ghost use Rattle.rml_search.specs.Runs.{run_of, runs_of};
ghost use Rattle.rml_search.specs.Weights.{WeighsSteps, RunWeighsSteps};

/// An end is stable: with more steps it stays, and what is cut only goes on.
pub fn ends_are_stable()
    ensures searches { (c : Context) (rules : Rules) (more r : ℕ) (vs : List Value) (n : ℕ) → Grows more (search_in c rules r vs n) (search_in c rules r vs (n + more)) }
    ensures runs { (p : Program) (args : List (List ℕ)) (cells : ℕ) → IsMonotone (runs_of p args cells) }
{}

/// The depth of calls never decides: where it is more than the steps, still more of it changes nothing.
pub fn depth_is_no_bound()
    ensures { (c : Context) (rules : Rules) (depth more r : ℕ) (s : Called) (n : ℕ) → n < depth
        → relations_to c rules depth r s n ≡ relations_to c rules (depth + more) r s n }
{}

/// What a relation does is to try its rules, whose calls are again what relations do, with the steps that are left.
pub fn calls_unroll()
    ensures { (c : Context) (rules : Rules) (r : ℕ) (s : Called) (n : ℕ) → relations c rules r s n ≡ try c (relations c rules) (rules r) s n }
{}

/// A search weighs as much as the steps that it takes: all that are not left, and all where it is cut.
pub fn steps_are_weighed()
    ensures searches { (c : Context) (rules : Rules) (r : ℕ) (vs : List Value) (n : ℕ) → WeighsSteps c.step_weight n (search_in c rules r vs n) }
    ensures runs { (p : Program) (args : List (List ℕ)) (n : ℕ) → RunWeighsSteps (context_of p).step_weight n (run_of p args n) }
{}

/// A search uses its steps exactly. So at the step at which a run ends, with a meaning, it weighs as much as all its steps.
pub fn ends_are_exact()
    ensures searches { (c : Context) (rules : Rules) (r : ℕ) (vs : List Value) → UsesExactly (search_in c rules r vs) }
    ensures runs { (p : Program) (args : List (List ℕ)) (cells n : ℕ) → EndsAt (goes (runs_of p) args cells) n → (run_of p args n).outcome ≢ Wrong
        → (run_of p args n).weighed ≡ (context_of p).step_weight * n }
{}

/// Relations whose rules call one another alone, by number, can be searched apart from all others: with their own rules alone, and
/// what the names, the vals and the weight of a step are.
pub fn parts_are_searched_alone()
    ensures { (c : Context) (rules : Rules) (part : ℕ → Bool) → StandsAlone part rules → (r : ℕ) → IsTrue (part r) → (vs : List Value) (n : ℕ)
        → search_in c (rules_within part rules) r vs n ≡ search_in c rules r vs n }
{}

/// So is a relation of one rule, which calls it again, whatever rules the others have.
pub fn a_loop_stands_alone()
    ensures { (p : Place) (others : Rules) → StandsAlone first_relation (loop_and p others) }
{}

/// The search looks at no limit of cells.
pub fn no_limit_is_looked_at()
    ensures { (p : Program) → LooksAtNoLimit (runs_of p) }
{}

/// So a run is never Full.
pub fn never_full()
    ensures { (p : Program) (args : List (List ℕ)) (n : ℕ) → (run_of p args n).outcome ≢ Full }
{}
