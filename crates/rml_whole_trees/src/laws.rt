//! What the trees of texts have. Each function is a law, and does nothing.

ghost use Rattle.rml_base.specs.Bytes.{AreBytes, IsBytes};
ghost use Rattle.rml_base.specs.declared.limits.TheConstants.{BYTES};
ghost use Rattle.rml_stages.specs.Over.{AreTreesOver, IsTreeOver};
ghost use Rattle.rml_stages.specs.Reading.{AreRead};
ghost use Rattle.rml_syntax.specs.declared.texts.Text.{Text};
ghost use Rattle.rml_whole.specs.Whole.{text_is_whole, texts_are_whole};
ghost use Rattle.std.specs.Prelude.{◌≤◌, ℕ, All, IsTrue, List, length};

/// The trees that texts are read as are whole over the names behind the last of them; and over all names that number what
/// texts spell, later ones too, so are their trees.
pub fn read_texts_are_whole()
    ensures read { (number : ℕ) (texts old new : List (List ℕ)) (trees : List Text) → AreBytes texts → All (λ b. length b ≤ BYTES) texts → AreRead number texts old trees new → IsTrue (texts_are_whole (length new) trees) }
    ensures over { (number : ℕ) (texts names : List (List ℕ)) (trees : List Text) → AreBytes texts → All (λ b. length b ≤ BYTES) texts → AreTreesOver names number texts trees → IsTrue (texts_are_whole (length names) trees) }
    ensures one { (number : ℕ) (bytes : List ℕ) (names : List (List ℕ)) (tree : Text) → IsBytes bytes → length bytes ≤ BYTES → IsTreeOver names number bytes tree → IsTrue (text_is_whole (length names) tree) }
{}
