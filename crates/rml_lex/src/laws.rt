//! What the definitions mean together. Each function is a law, and does nothing.

ghost use Rattle.rml_base.specs.declared.place.Place.{Place};
ghost use Rattle.rml_lex.specs.Reading.{FirstFault, HasReading, Part, Reaches, Shown, Spelled};
ghost use Rattle.rml_lex.specs.declared.piece.LexKind.{LexKind};
ghost use Rattle.rml_lex.specs.Spells.{BeginsNothing, HasLongest, IsLongest, IsText, Spells};
ghost use Rattle.rml_lex.specs.Character.{unescaped};
ghost use Rattle.rml_lex.specs.Places.{IsPlace, IsWithinLine, place_after, start};
ghost use Rattle.rml_lex.specs.declared.piece.Piece.{Piece};
ghost use Rattle.std.specs.Prelude.{◌≡◌, ◌⊎◌, ℕ, ◌+◌, ◌==◌, List, [], ◌∷◌, ◌++◌, count_by, length};

/// A text has its tokens or a first fault.
pub fn each_is_read()
    ensures { (text : ℕ) (bytes : List ℕ) → HasReading text bytes }
{}

/// A text has one cut into pieces, one list of tokens and one first fault, and not both tokens and a fault.
pub fn one_reading()
    ensures pieces { (bytes : List ℕ) (a b : List Part) → Reaches bytes a [] → Reaches bytes b [] → a ≡ b }
    ensures same { (text : ℕ) (bytes : List ℕ) (a b : List (Place × Shown)) → Spelled text bytes a → Spelled text bytes b → a ≡ b }
    ensures sound { (text : ℕ) (bytes : List ℕ) (a : List (Place × Shown)) (place : Place) (kind : LexKind) → Spelled text bytes a → FirstFault text bytes place kind → ⊥ }
    ensures fault { (text : ℕ) (bytes : List ℕ) (p q : Place) (j k : LexKind) → FirstFault text bytes p j → FirstFault text bytes q k → (p ≡ q) × (j ≡ k) }
{}

/// No bytes are two pieces, faults among them.
pub fn one_piece()
    ensures { (s : List ℕ) (p q : Piece) → Spells s p → Spells s q → p ≡ q }
{}

/// At the front of some bytes stands one longest piece, or none begins there.
pub fn one_longest()
    ensures same { (bytes : List ℕ) (n m : ℕ) (p q : Piece) → IsLongest bytes n p → IsLongest bytes m q → (n ≡ m) × (p ≡ q) }
    ensures either { (bytes : List ℕ) → HasLongest bytes ⊎ BeginsNothing bytes }
    ensures sound { (bytes : List ℕ) (n : ℕ) (p : Piece) → IsLongest bytes n p → BeginsNothing bytes → ⊥ }
{}

/// A text in its quotes stands for what its characters stand for, one after another.
pub fn text_value()
    ensures { (s values : List ℕ) → IsText s values → unescaped s ≡ values }
{}

/// Places in the first line of a text, and in later ones: a line ends at a byte 10, and a column counts bytes.
pub fn places_exact()
    ensures first { (text : ℕ) (line : List ℕ) → IsWithinLine line → IsPlace (place_after (start text) line) text 1 (1 + length line) }
    ensures later { (text : ℕ) (front line : List ℕ) → IsWithinLine line → IsPlace (place_after (start text) (front ++ 10 ∷ line)) text (2 + count_by (λ b. b == 10) front) (1 + length line) }
{}
