//! The laws of the grammar. Each is the contract of a function that does nothing.

ghost use Rattle.rml_base.specs.declared.place.Place.{Place};
ghost use Rattle.rml_grammar.specs.Beginnings.{Begins, GoesOn, IsText, IsTextWithin};
ghost use Rattle.rml_grammar.specs.Depths.{decl_depth};
ghost use Rattle.rml_grammar.specs.Laws.{Sound, Complete, IsLimit, Placed};
ghost use Rattle.rml_grammar.specs.Limits.{WithinLimits};
ghost use Rattle.rml_grammar.specs.Sizes.{HasPartsBelow, IsSmallRule, constructors_in, declarations, rules_in, weight};
ghost use Rattle.rml_grammar.specs.SpelledTexts.{Derives};
ghost use Rattle.rml_grammar.specs.Texts.{whole_text};
ghost use Rattle.rml_grammar.specs.declared.fault.Fault.{Fault};
ghost use Rattle.rml_syntax.specs.declared.texts.Text.{Text};
ghost use Rattle.rml_syntax.specs.declared.token.Spot.{Spot};
ghost use Rattle.std.specs.Prelude.{◌≡◌, ◌+◌, ◌*◌, ◌<◌, ◌≤◌, ◌++◌, ℕ, suc, List, All, Err, length, sum_by};

/// What the grammar of functions reads is what the grammar derives: each tree that it gives, and each tree that there
/// is unless a limit is met; and where it refuses a token, no tokens that begin with those up to there have a tree.
pub fn exact()
    ensures sound { Sound }
    ensures complete { Complete }
    ensures placed { Placed }
{}

/// Where reading stops, the tokens before begin a text within the limits: some tokens can follow them, so that the whole has a
/// tree. Where it is a limit that stops it, a text goes on with the token there too, and passes that limit.
pub fn begun()
    ensures before { (end : Place) (n k : ℕ) (before rest : List Spot) (f : Fault) → 0 < n → whole_text end n k (before ++ rest) ≡ Err f → f.left ≡ length rest → Begins (IsTextWithin n (suc k)) before }
    ensures beyond { (end : Place) (n k : ℕ) (before rest : List Spot) (f : Fault) → 0 < n → whole_text end n k (before ++ rest) ≡ Err f → f.left ≡ length rest → IsLimit f.kind → GoesOn IsText before rest }
{}

/// A text is no larger than its tokens: a rule has fewer patterns, goals and expressions, those inside others included, than
/// tokens; a constructor has fewer parts than the text has tokens; and the tokens of all rules and the expressions in all
/// vals are together no more than those of the text.
pub fn small_trees()
    ensures rules { (end : Place) (us : List Spot) (t : Text) → Derives end us t → All (λ d. All IsSmallRule (rules_in d)) (declarations t) }
    ensures constructors { (end : Place) (us : List Spot) (t : Text) → Derives end us t → All (λ d. All (HasPartsBelow (length us)) (constructors_in d)) (declarations t) }
    ensures weighs { (end : Place) (us : List Spot) (t : Text) → Derives end us t → sum_by weight (declarations t) ≤ length us }
{}

/// Where at most n brackets are open at once, what stands in a declaration is at most 4 n + 6 deep: its types, patterns,
/// expressions and goals.
pub fn shallow_trees()
    ensures { (end : Place) (n m : ℕ) (us : List Spot) (t : Text) → 0 < n → WithinLimits n m us → Derives end us t → All (λ d. decl_depth d ≤ 4 * n + 6) (declarations t) }
{}
