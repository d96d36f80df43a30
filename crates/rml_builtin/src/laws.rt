//! What holds of the definitions. These functions do nothing: their contracts are the laws.

ghost use Rattle.std.specs.Prelude.{◌≡◌, ◌≢◌, ℕ, List, Some, IsTrue, ℤ, [], ◌∷◌, slice_get};
ghost use Rattle.std.specs.Option.{option_map};
ghost use Rattle.rml_value.specs.declared.value.Value.{Value};
ghost use Rattle.rml_value.specs.declared.value.Value.TheVariants as value;
ghost use Rattle.rml_value.specs.Range.{is_integer};
ghost use Rattle.rml_value.specs.Lists.{list_of};
ghost use Rattle.rml_builtin.specs.declared.row.TheConstants.{ROWS};
ghost use Rattle.rml_builtin.specs.declared.row.Row.{Row};
ghost use Rattle.rml_builtin.specs.declared.row.Row.TheVariants as rows;
ghost use Rattle.rml_builtin.specs.Applied.{Store, gives_one};
ghost use Rattle.rml_builtin.specs.Table.{row_number, name_of};
ghost use Rattle.rml_builtin.specs.Names.{number_named};
ghost use Rattle.rml_builtin.specs.Decimal.{read, decimal_of};
ghost use Rattle.rml_builtin.specs.BuiltIns.{apply};
ghost use Rattle.rml_builtin.specs.Keeps.{KeepsStore, IsSilent};

use rml_value::laws::lists;

/// Each row stands at its number, and nowhere else.
pub fn numbers()
    ensures stands { (row : Row) → slice_get ROWS (row_number row) ≡ Some row }
    ensures once { (row : Row) (k : ℕ) → slice_get ROWS k ≡ Some row → row_number row ≡ k }
{}

/// A name finds the row that has it, and no other.
pub fn names()
    ensures differ { (row other : Row) → name_of row ≡ name_of other → row ≡ other }
    ensures named { (row : Row) → number_named (name_of row) ≡ Some (row_number row) }
    ensures found { (name : List ℕ) (k : ℕ) → number_named name ≡ Some k → option_map name_of (slice_get ROWS k) ≡ Some name }
{}

/// What is written is read back, of integers, lists and vectors.
pub fn read_back()
    ensures integers { (n : ℤ) → IsTrue (is_integer n) → read (decimal_of n) ≡ Some n }
    ensures lists { (vs : List Value) (store : Store) → apply rows.ListVector (list_of vs ∷ []) store ≡ gives_one (value.Vector vs) store }
    ensures vectors { (vs : List Value) (store : Store) → apply rows.VectorList (value.Vector vs ∷ []) store ≡ gives_one (list_of vs) store }
    // what a vector was made of is the list that it gives back
    ensures back { (v : Value) (vs : List Value) (store : Store) → apply rows.ListVector (v ∷ []) store ≡ gives_one (value.Vector vs) store → apply rows.VectorList (value.Vector vs ∷ []) store ≡ gives_one v store }
{
    lists();
}

/// What a built-in leaves as it was.
pub fn what_stays()
    // the store, but for the rows that make or set a logical variable
    ensures store { (row : Row) (vs : List Value) (store : Store) → row ≢ rows.LvarNew → row ≢ rows.LvarSet → KeepsStore store (apply row vs store) }
    // the text, but for `print`
    ensures text { (row : Row) (vs : List Value) (store : Store) → row ≢ rows.Print → IsSilent (apply row vs store) }
{}
