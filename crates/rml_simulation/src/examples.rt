//! The laws tried on tiny relations, which shows that their premises can be met. Nothing rests on this.

ghost use Rattle.std.specs.Prelude.{◌≡◌, ◌+◌, ℕ};
ghost use Rattle.rml_simulation.specs.declared.partial.Partial.TheVariants.{Yes};
ghost use Rattle.rml_simulation.specs.Partial.{untraced};
ghost use Rattle.rml_simulation.specs.Calls.{calls_by_steps, StepsToCall, GrowsWithCalls};
ghost use Rattle.rml_simulation.specs.Acts.{acts_by_steps, StepsToAct};
ghost use Rattle.rml_simulation.specs.Exact.{UsesExactly, SpendsWithCalls};
ghost use Rattle.rml_simulation.specs.Simulates.{nothing, Simulates};
ghost use Rattle.rml_simulation.specs.Carries.{SimulatesAct, kept, acted, CarriesCall, CarriesAct, acted_before, CarriesTold, Corresponds};
ghost use Rattle.rml_simulation.specs.Known.{SimulatesPart, SimulatesKnown};
ghost use Rattle.rml_simulation.specs.Moves.{more_steps};
ghost use Rattle.rml_simulation.specs.Examples.{counted, plodding, late, fading, told, told_slowly, by_a_step, counting, once, twice, begun_late, ended_late};

/// A relation that calls itself meets what the laws on calls ask of its body, and so uses its steps exactly: as many as its number.
pub fn counting_takes_its_steps()
    ensures local { StepsToCall counted }
    ensures grows { GrowsWithCalls counted }
    ensures spends { SpendsWithCalls counted }
    ensures exact { (s : ℕ) → UsesExactly (counting s) }
    ensures answers { (s n : ℕ) → counting s (s + n) ≡ Yes 0 untraced n }
{}

/// Who counts once simulates who counts, fails, and counts again.
pub fn once_is_enough()
    ensures { (s i : ℕ) → Simulates i nothing (twice s) (once s) }
{}

/// A relation that takes two steps a call is simulated by one that takes one, at every number of steps.
pub fn one_step_a_call()
    ensures carries { (r : ℕ) → CarriesCall kept (λ f. plodding f r) (λ f. counted f r) }
    ensures simulates { (i r : ℕ) → SimulatesAct kept i (acted (calls_by_steps plodding r)) (acted (calls_by_steps counted r)) }
{}

/// A relation that fails in direct style, and one that is told what follows, to which a failure comes by a step, give the same runs.
pub fn failing_is_told()
    ensures local { StepsToAct told }
    ensures corresponds { (r : ℕ) → Corresponds by_a_step (λ f. fading f r) (λ f. told f r) }
{}

/// Who takes a step before it counts has earned it by the end, where one that counts and then takes a step pays it.
pub fn what_is_earned_is_paid()
    ensures local { StepsToCall late }
    ensures kept { (r : ℕ) → CarriesCall kept (λ f. late f r) (λ f. counted f r) }
    ensures earned { (r : ℕ) → CarriesCall (more_steps 1) (λ f. late f r) (λ f. counted f r) }
    ensures paid { (s i : ℕ) → Simulates i nothing (begun_late s) (ended_late s) }
{}

/// A relation that is told what follows and takes two steps a call is simulated by one that takes one.
pub fn telling_slowly()
    ensures local { StepsToAct told_slowly }
    ensures carries { (r : ℕ) → CarriesAct (λ f. told_slowly f r) (λ f. told f r) }
    ensures simulates { (i r : ℕ) → SimulatesAct kept i (acts_by_steps told_slowly r) (acts_by_steps told r) }
{}

/// A relation that fails in direct style is simulated by one that is told what follows.
pub fn from_direct_to_told()
    ensures local { StepsToCall fading }
    ensures carries { (r : ℕ) → CarriesTold by_a_step (λ f. fading f r) (λ f. told f r) }
    ensures simulates { (i r : ℕ) → SimulatesAct kept i (acted_before by_a_step (calls_by_steps fading r)) (acts_by_steps told r) }
{}

/// Of one that takes two steps a call it is learned how it ended from one that takes one.
pub fn the_end_is_learned()
    ensures part { (i r s : ℕ) → SimulatesPart i (calls_by_steps plodding r s) (calls_by_steps counted r s) }
    ensures known { (i r s : ℕ) → SimulatesKnown i (calls_by_steps plodding r s) (calls_by_steps counted r s) }
{}
