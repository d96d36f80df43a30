//! What the definitions mean together. Each function is a law, and does nothing.

ghost use Rattle.rml_base.specs.Numbering.{GrowsBy};
ghost use Rattle.rml_stages.specs.Over.{AreTreesOver, IsTreeOver};
ghost use Rattle.rml_stages.specs.Reading.{AreRead, IsFirstRefusal, IsRead, IsRefused};
ghost use Rattle.rml_stages.specs.declared.refusal.Refusal.{Refusal};
ghost use Rattle.rml_syntax.specs.declared.texts.Text.{Text};
ghost use Rattle.std.specs.Prelude.{◌≡◌, ℕ, List, ◌⊎◌};

/// A text, over the names before it, is read as one tree with one list of names behind it, or has one refusal, and not both.
pub fn one_reading()
    ensures each { (number : ℕ) (bytes : List ℕ) (old : List (List ℕ)) → ((t : Text) × (new : List (List ℕ)) × IsRead number bytes old t new) ⊎ ((r : Refusal) × IsRefused number bytes old r) }
    ensures tree { (number : ℕ) (bytes : List ℕ) (old a b : List (List ℕ)) (t u : Text) → IsRead number bytes old t a → IsRead number bytes old u b → (t ≡ u) × (a ≡ b) }
    ensures refusal { (number : ℕ) (bytes : List ℕ) (old : List (List ℕ)) (q r : Refusal) → IsRefused number bytes old q → IsRefused number bytes old r → q ≡ r }
    ensures either { (number : ℕ) (bytes : List ℕ) (old new : List (List ℕ)) (t : Text) (r : Refusal) → IsRead number bytes old t new → IsRefused number bytes old r → ⊥ }
{}

/// The same of texts one after another.
pub fn one_reading_of_all()
    ensures each { (number : ℕ) (texts : List (List ℕ)) (old : List (List ℕ)) → ((trees : List Text) × (new : List (List ℕ)) × AreRead number texts old trees new) ⊎ ((r : Refusal) × IsFirstRefusal number texts old r) }
    ensures trees { (number : ℕ) (texts : List (List ℕ)) (old a b : List (List ℕ)) (ts us : List Text) → AreRead number texts old ts a → AreRead number texts old us b → (ts ≡ us) × (a ≡ b) }
    ensures refusal { (number : ℕ) (texts : List (List ℕ)) (old : List (List ℕ)) (q r : Refusal) → IsFirstRefusal number texts old q → IsFirstRefusal number texts old r → q ≡ r }
    ensures either { (number : ℕ) (texts : List (List ℕ)) (old new : List (List ℕ)) (trees : List Text) (r : Refusal) → AreRead number texts old trees new → IsFirstRefusal number texts old r → ⊥ }
{}

/// Numbers that names were given stay. So a text that is read has its tree over the names behind it, and over all later ones;
/// and each of some texts that are read one after another has its tree over the names behind the last.
pub fn later_names()
    ensures behind { (number : ℕ) (bytes : List ℕ) (old new : List (List ℕ)) (tree : Text) → IsRead number bytes old tree new → IsTreeOver new number bytes tree }
    ensures later { (most number : ℕ) (bytes : List ℕ) (names later : List (List ℕ)) (tree : Text) → GrowsBy most names later → IsTreeOver names number bytes tree → IsTreeOver later number bytes tree }
    ensures all_behind { (number : ℕ) (texts old new : List (List ℕ)) (trees : List Text) → AreRead number texts old trees new → AreTreesOver new number texts trees }
    ensures all_later { (most number : ℕ) (texts names later : List (List ℕ)) (trees : List Text) → GrowsBy most names later → AreTreesOver names number texts trees → AreTreesOver later number texts trees }
{}
