//! What the forms of the command line mean together. The function is a law, and does nothing.

ghost use Rattle.rml_words.specs.Forms.{Asks, IsLine};
ghost use Rattle.std.specs.Prelude.{◌≡◌, ℕ, List};

/// No words are two lines.
pub fn one_line()
    ensures { (words : List (List ℕ)) (a b : Asks) → IsLine words a → IsLine words b → a ≡ b }
{}
