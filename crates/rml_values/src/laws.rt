//! What the numbers of values are. The functions are laws: each says by its contract what is true, and does nothing.

ghost use Rattle.std.specs.Prelude.{◌≡◌, ◌+◌, ◌-◌, ◌<◌, ◌≤◌, ◌^◌, ℕ, List, Some, false, length, nat_eq, slice_get, true};
ghost use Rattle.rml_syntax.specs.declared.rules.Long.{Long};
ghost use Rattle.rml_tables.specs.Words.{has};
ghost use Rattle.rml_outlines.specs.Lookups.{value_in};
ghost use Rattle.rml_outlines.specs.declared.entry.ValueEntry.{ValueEntry};
ghost use Rattle.rml_outlines.specs.declared.known.Known.{Known};
ghost use Rattle.rml_outlines.specs.declared.outline.Outline.{Outline};
ghost use Rattle.rml_scopes.specs.Meaning.{meaning};
ghost use Rattle.rml_scopes.specs.declared.scope.Scope.{Scope};
ghost use Rattle.rml_values.specs.Meant.{has_no_val, is_as, meant};
ghost use Rattle.rml_values.specs.Numbers.{behind, is_of, lists_from, names_of, number};
ghost use Rattle.rml_values.specs.declared.numbers.Begins.{Begins};
ghost use Rattle.rml_values.specs.declared.numbers.Kind.{Kind};
ghost use Rattle.rml_values.specs.declared.numbers.Numbered.{Numbered};
ghost use Rattle.rml_values.specs.declared.values.Values.{Values};

/// The numbers of a list, where none is so great that it would be cut: each name of it stands at its number, so different names have
/// different numbers, and all numbers lie between the first and the first behind the list. Each name that a text declares so is in the
/// list of its kind.
pub fn numbers_stand()
    ensures stands { (n : Numbered) (name : ℕ) → n.first + length n.names < 2 ^ 32 → has nat_eq name n.names ≡ true → slice_get n.names (number n name - n.first) ≡ Some name }
    ensures differ { (n : Numbered) (a b : ℕ) → n.first + length n.names < 2 ^ 32 → has nat_eq a n.names ≡ true → has nat_eq b n.names ≡ true → number n a ≡ number n b → a ≡ b }
    ensures from { (n : Numbered) (name : ℕ) → n.first + length n.names < 2 ^ 32 → n.first ≤ number n name }
    ensures below { (n : Numbered) (name : ℕ) → n.first + length n.names < 2 ^ 32 → has nat_eq name n.names ≡ true → number n name < behind n }
    ensures declared { (k : Kind) (o : Outline) (name : ℕ) (e : ValueEntry) → value_in o name ≡ Some e → is_of k e ≡ true → has nat_eq name (names_of k o) ≡ true }
{}

/// What a name is in a program is of the kind that its meaning says, in a set with a list for each text.
pub fn meanings_are_kept()
    ensures says { (k : Known) (v : Values) (s : Scope) (l : Long) → length v.texts ≡ length k.texts → has_no_val k.built.values ≡ true → is_as (meaning k s l) (meant k v s l) ≡ true }
    ensures lists { (b : Begins) (os : List Outline) → length (lists_from b os) ≡ length os }
{}
