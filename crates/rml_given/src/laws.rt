//! What holds of what each text is given. The function is a law: it says by its contract what is true, and does nothing.

ghost use Rattle.std.specs.Prelude.{◌≡◌, List, ℕ, true};
ghost use Rattle.rml_tables.specs.Words.{Grows};
ghost use Rattle.rml_given.specs.Built.{all_known, built_of};
ghost use Rattle.rml_prelude.specs.Text.{PreludeTree};

/// What is given stands as names grow, once all of it is among them.
pub fn what_is_given_stands()
    ensures tree { (names later : List (List ℕ)) → all_known names ≡ true → Grows names later → PreludeTree later ≡ PreludeTree names }
    ensures built { (names later : List (List ℕ)) → all_known names ≡ true → Grows names later → built_of later ≡ built_of names }
    ensures known { (names later : List (List ℕ)) → all_known names ≡ true → Grows names later → all_known later ≡ true }
{}
