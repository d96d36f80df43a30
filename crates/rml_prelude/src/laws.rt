//! What holds of the prelude's tree. The functions are laws: each says by its contract what is true, and does nothing.

ghost use Rattle.std.specs.Prelude.{◌≡◌, List, ℕ, true};
ghost use Rattle.rml_base.specs.Numbering.{number_in};
ghost use Rattle.rml_tables.specs.Words.{Grows};
ghost use Rattle.rml_prelude.specs.Text.{PreludeTree};
ghost use Rattle.rml_prelude.specs.Words.{are_known, number, text_of, words_of};
ghost use Rattle.rml_prelude.specs.declared.word.Word.{Word};

/// The tree stands as names grow, once all words are among them; and the number of a word is that of its spelling.
pub fn the_prelude_stands()
    ensures tree { (names later : List (List ℕ)) → are_known names ≡ true → Grows names later → PreludeTree later ≡ PreludeTree names }
    ensures words { (names later : List (List ℕ)) → are_known names ≡ true → Grows names later → words_of later ≡ words_of names }
    ensures known { (names later : List (List ℕ)) → are_known names ≡ true → Grows names later → are_known later ≡ true }
    ensures numbers { (names : List (List ℕ)) (word : Word) → number (words_of names) word ≡ number_in names (text_of word) }
{}
