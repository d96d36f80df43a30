//! What the definitions mean together. Each function is a law, and does nothing.

ghost use Rattle.rml_syntax.specs.declared.texts.Text.{Text};
ghost use Rattle.rml_whole.specs.Whole.{text_is_whole};
ghost use Rattle.std.specs.Prelude.{◌≤◌, ℕ, IsTrue};

/// What is whole over some names is whole over more.
pub fn more_names()
    ensures { (n m : ℕ) (t : Text) → n ≤ m → IsTrue (text_is_whole n t) → IsTrue (text_is_whole m t) }
{}
