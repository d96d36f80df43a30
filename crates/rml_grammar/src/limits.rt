//! The limits, by counting tokens alone, beside a grammar that carries what is left of them. Each function is a law, and
//! does nothing.

ghost use Rattle.rml_base.specs.declared.place.Place.{Place};
ghost use Rattle.rml_grammar.specs.Laws.{IsLimit};
ghost use Rattle.rml_grammar.specs.Limits.{StandsAt, WithinLimits};
ghost use Rattle.rml_grammar.specs.SpelledTexts.{Derives};
ghost use Rattle.rml_grammar.specs.Texts.{whole_text};
ghost use Rattle.rml_grammar.specs.declared.fault.Fault.{Fault};
ghost use Rattle.rml_grammar.specs.declared.fault.ParseKind.TheVariants as kind;
ghost use Rattle.rml_syntax.specs.declared.texts.Text.{Text};
ghost use Rattle.rml_syntax.specs.declared.token.Spot.{Spot};
ghost use Rattle.std.specs.Prelude.{◌≡◌, ◌≤◌, ◌<◌, ℕ, suc, List, ◌∷◌, ◌++◌, Ok, Err, length};

/// Where a text is read, no bracket in it is one too many that is open, and no rule one too many of its relation. Where
/// none is read, none before the fault is, and a fault that names a limit stands at the first bracket or rule beyond it.
/// So a tree is read wherever there is one and no limit is passed; and whatever the fault, no list that begins with the
/// tokens up to it has a tree without passing one.
pub fn limits_counted()
    ensures within { (end : Place) (n k : ℕ) (us : List Spot) (t : Text) → 0 < n → whole_text end n k us ≡ Ok t → WithinLimits n (suc k) us }
    ensures fault { (end : Place) (n k : ℕ) (us : List Spot) (f : Fault) → 0 < n → whole_text end n k us ≡ Err f → StandsAt n (suc k) us f }
    ensures read { (end : Place) (n k : ℕ) (us : List Spot) (t : Text) → 0 < n → WithinLimits n (suc k) us → Derives end us t → whole_text end n k us ≡ Ok t }
    ensures refused { (end at : Place) (n k : ℕ) (c tail other : List Spot) (x : Spot) (f : Fault) (t : Text) → 0 < n → whole_text end n k (c ++ x ∷ tail) ≡ Err f → f.left ≡ suc (length tail) → Derives at (c ++ x ∷ other) t → WithinLimits n (suc k) (c ++ x ∷ other) → ⊥ }
{}

/// Limits as large as a list of tokens are not passed in it. So no tokens have two trees, however deep they nest.
pub fn one_tree()
    ensures large { (n m : ℕ) (us : List Spot) → length us ≤ n → length us ≤ m → WithinLimits n m us }
    ensures one { (end : Place) (us : List Spot) (a b : Text) → Derives end us a → Derives end us b → a ≡ b }
{}

/// A token that is unexpected is so whatever the limits are. Where a fault names a limit, larger limits meet none at its
/// token or before: so the token is not unexpected.
pub fn larger_limits()
    ensures same { (end : Place) (n m k j : ℕ) (us : List Spot) (f : Fault) → n < m → k < j → whole_text end n k us ≡ Err f → f.kind ≡ kind.Unexpected → whole_text end m j us ≡ Err f }
    ensures later { (end : Place) (n m k j : ℕ) (us : List Spot) (f g : Fault) → n < m → k < j → whole_text end n k us ≡ Err f → IsLimit f.kind → whole_text end m j us ≡ Err g → g.left < f.left }
{}
