//! How a pass shows that what it makes costs no more than what it was given: step by step, by the relation Simulates of
//! specs/Simulates.antt. The functions are laws and do nothing. A pass's proof cites the lemmas of proofs/SimulatesMoves.antt.

ghost use Rattle.std.specs.Prelude.{◌≡◌, ◌≢◌, ◌⊎◌, ◌-◌, [], ℕ, List};
ghost use Rattle.rml_base.specs.Bytes.{AreBytes};
ghost use Rattle.rml_base.specs.Light.{Light, NoWrong};
ghost use Rattle.rml_base.specs.Run.{Rest, Runs, goes};
ghost use Rattle.rml_base.specs.Monotone.{IsMonotone};
ghost use Rattle.rml_base.specs.Same.{Same};
ghost use Rattle.rml_simulation.specs.declared.partial.Trace.{Trace};
ghost use Rattle.rml_simulation.specs.declared.partial.Partial.{Partial};
ghost use Rattle.rml_simulation.specs.declared.partial.Partial.TheVariants.{Yes, No};
ghost use Rattle.rml_simulation.specs.Partial.{followed};
ghost use Rattle.rml_simulation.specs.Calls.{Calls, calls_to, calls_by_steps, StepsToCall};
ghost use Rattle.rml_simulation.specs.Acts.{Acts, acts_to, acts_by_steps, StepsToAct};
ghost use Rattle.rml_simulation.specs.Exact.{UsesExactly, SpendsWithCalls};
ghost use Rattle.rml_simulation.specs.Carries.{SimulatesAct, kept, acted, CarriesCall, CarriesAct, Before, acted_before, CarriesTold, AreActed, Corresponds};
ghost use Rattle.rml_simulation.specs.Known.{SimulatesPart, SimulatesKnown};
ghost use Rattle.rml_simulation.specs.Simulates.{Credit, nothing, Simulates};
ghost use Rattle.rml_simulation.specs.Moves.{
  more_steps,
  more_made,
  more_weighed,
  Weaken,
  BothStep,
  OldStep,
  NewStep,
  OldRun,
  BothPrepend,
  BothMake,
  OldMake,
  NewMake,
  BothWeigh,
  OldWeigh,
  NewWeigh,
  BothTest,
  Equal,
  Itself,
  OldWrong,
  NewFull,
};

use rml_base::Meaning;

/// The moves by which a pass follows two runs.
pub fn moves()
    ensures weaken { Weaken }
    ensures both_step { BothStep }
    ensures old_step { OldStep }
    ensures new_step { NewStep }
    ensures old_run { OldRun }
    ensures both_prepend { BothPrepend }
    ensures both_make { BothMake }
    ensures old_make { OldMake }
    ensures new_make { NewMake }
    ensures both_weigh { BothWeigh }
    ensures old_weigh { OldWeigh }
    ensures new_weigh { NewWeigh }
    ensures both_test { BothTest }
    ensures equal { Equal }
    ensures itself { Itself }
    ensures old_wrong { OldWrong }
    ensures new_full { NewFull }
{}

/// Where no run of the old program is Wrong, and the new one simulates it at each index, the new one costs no more.
pub fn simulates_is_light<P: Meaning, X: Meaning>(_old: &P, _new: &X)
    requires right { NoWrong (P.runs _old.now) }
    requires simulates { (args : List (List ℕ)) (cells i : ℕ) → AreBytes args → Simulates i nothing (P.runs _old.now args cells) (X.runs _new.now args cells) }
    ensures { Light (P.runs _old.now) (X.runs _new.now) }
{}

/// A part that uses its steps exactly, prints nothing and is known to answer, or to fail, is gone through by the old run alone: with
/// the steps that it takes, what it makes and what it weighs as credit, the rest is to be shown of what follows.
pub fn silent_parts<A>()
    ensures answer { (part : ℕ → Partial A) → UsesExactly part → (i n m : ℕ) (a : A) (t : Trace) (c : Credit) (k : A → Rest) (h g : Rest)
        → part n ≡ Yes a t m → t.text ≡ [] → Simulates i (more_steps (n - m) (more_made t.made (more_weighed t.weighed c))) (k a) g → Simulates i c (λ j. followed (part j) k h) g }
    ensures failure { (part : ℕ → Partial A) → UsesExactly part → (i n m : ℕ) (t : Trace) (c : Credit) (k : A → Rest) (h g : Rest)
        → part n ≡ No t m → t.text ≡ [] → Simulates i (more_steps (n - m) (more_made t.made (more_weighed t.weighed c))) h g → Simulates i c (λ j. followed (part j) k h) g }
{}

/// A relation in direct style whose body looks at its calls with fewer steps alone, and uses its steps exactly where they do, uses
/// its steps exactly.
pub fn calls_are_exact<S, A>()
    ensures { (body : Calls S A → Calls S A) → StepsToCall body → SpendsWithCalls body → (r : ℕ) (s : S) → UsesExactly (calls_by_steps body r s) }
{}

/// Relations simulate relations where their bodies do, given that what they call does so with fewer steps: in direct style, and of
/// one relation with what it has earned by its end; told what follows; and from direct style to what is told.
pub fn relations_simulate<S, A>()
    ensures direct { (old new : Calls S A → Calls S A) → StepsToCall old → StepsToCall new → ((r : ℕ) → CarriesCall kept (λ f. old f r) (λ f. new f r))
        → (i r : ℕ) → SimulatesAct kept i (acted (calls_by_steps old r)) (acted (calls_by_steps new r)) }
    ensures first { (old new : Calls S A → Calls S A) → StepsToCall old → StepsToCall new → ((r : ℕ) → CarriesCall kept (λ f. old f r) (λ f. new f r))
        → (earned : Credit → Credit) (r : ℕ) → CarriesCall earned (λ f. old f r) (λ f. new f r) → (i : ℕ) → SimulatesAct earned i (acted (calls_by_steps old r)) (acted (calls_by_steps new r)) }
    ensures told { (old new : Acts S A → Acts S A) → StepsToAct old → StepsToAct new → ((r : ℕ) → CarriesAct (λ f. old f r) (λ f. new f r))
        → (i r : ℕ) → SimulatesAct kept i (acts_by_steps old r) (acts_by_steps new r) }
    ensures to_told { (before : Before) (old : Calls S A → Calls S A) (new : Acts S A → Acts S A) → StepsToCall old → StepsToAct new → ((r : ℕ) → CarriesTold before (λ f. old f r) (λ f. new f r))
        → (i r : ℕ) → SimulatesAct kept i (acted_before before (calls_by_steps old r)) (acts_by_steps new r) }
{}

/// Where bodies in direct style and bodies that are told what follows give the same runs over calls that do, so do the relations:
/// to each depth of calls, and by the steps alone.
pub fn calls_are_acts<S, A>()
    ensures to { (before : Before) (direct : Calls S A → Calls S A) (told : Acts S A → Acts S A) → ((r : ℕ) → Corresponds before (λ f. direct f r) (λ f. told f r))
        → (depth : ℕ) → AreActed before (calls_to direct depth) (acts_to told depth) }
    ensures by_steps { (before : Before) (direct : Calls S A → Calls S A) (told : Acts S A → Acts S A) → ((r : ℕ) → Corresponds before (λ f. direct f r) (λ f. told f r))
        → AreActed before (calls_by_steps direct) (acts_by_steps told) }
{}

/// Of a part that simulates another whatever follows, more can be shown: what follows needs to be shown only of the answer that the
/// old part gives, and only where it gives one, and what follows a failure only where it fails. Answers must be told apart.
pub fn what_is_learned<A>()
    ensures { (tell : (a b : A) → (a ≡ b) ⊎ (a ≢ b)) (i : ℕ) (old new : ℕ → Partial A) → UsesExactly new → SimulatesPart i old new → SimulatesKnown i old new }
{}

/// The relation between stages, said of runs as they are: where the later stage is no form of its own, as runs at a limit are not.
pub fn runs_at_a_limit()
    ensures same { (p x : Runs) → Light p x → Same (goes p) (goes x) }
    ensures equal { (p x : Runs) → ((args : List (List ℕ)) (cells n : ℕ) → AreBytes args → x args cells n ≡ p args cells n) → Light p x }
    ensures transitive { (p x y : Runs) → ((args : List (List ℕ)) (cells : ℕ) → AreBytes args → IsMonotone (p args cells)) → Light p x → Light x y → Light p y }
{}
