//! Which types have which numbers, and how many stand for others. The functions are laws: each says by its contract what is true, and does
//! nothing.

ghost use Rattle.std.specs.Prelude.{◌≡◌, ◌<◌, ◌≤◌, ◌-◌, ◌^◌, ℕ, List, None, false, filter, is_some, length};
ghost use Rattle.rml_abbreviations.specs.Written.{meaning_in};
ghost use Rattle.rml_outlines.specs.declared.known.Known.{Known};
ghost use Rattle.rml_syntax.specs.declared.texts.Text.{Text};
ghost use Rattle.rml_signatures.specs.Definitions.{declared_types, definitions_of, is_own};
ghost use Rattle.rml_signatures.specs.Numbers.{numbers_of};
ghost use Rattle.rml_signatures.specs.Types.{bodies, types_of};

/// The types that a program has come first. No type of a number below `kept` stands for another in every text, so no number of a type that
/// is written out changes where the numbers from `kept` on go; and no type from there on is an abstype that a text defines.
pub fn plain_types_come_last()
    ensures kept { (k : Known) (texts : List Text) (n : ℕ) → length texts ≡ length k.texts → n < (numbers_of k).kept → meaning_in (bodies (types_of k texts) texts None) n ≡ None }
    ensures plain { (k : Known) (texts : List Text) (n : ℕ) → length texts ≡ length k.texts → (numbers_of k).kept < 2 ^ 32 - 1 → (numbers_of k).kept ≤ n → is_own (definitions_of k (numbers_of k) texts) n ≡ false }
{}

/// At most as many types stand for others as the texts declare.
pub fn few_types_stand_for_others()
    ensures { (k : Known) (texts : List Text) → length (filter is_some (definitions_of k (numbers_of k) texts)) ≤ declared_types texts }
{}
