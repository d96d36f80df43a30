//! What holds of names in lists, for callers. The functions are laws: each says by its contract what is true, and does nothing.

ghost use Rattle.std.specs.Prelude.{◌≡◌, ◌<◌, List, None, Some, false, length, true};
ghost use Rattle.std.specs.Map.{keys_of, lookup};
ghost use Rattle.rml_tables.specs.Words.{Grows, has, place_of, with_each, with_first, with_name};

/// A name keeps its place as more names come, each new one behind the last, and a name that was added has a place.
pub fn places_stand<K: Eq>()
    ensures grows { (names more : List K) → Grows names (with_each K.eq names more) }
    ensures stands { (names more : List K) (name : K) → Grows names more → has K.eq name names ≡ true → place_of K.eq name more ≡ place_of K.eq name names }
    ensures given { (names : List K) (name : K) → place_of K.eq name (with_name K.eq names name) < length (with_name K.eq names name) }
{}

/// The first declaration of a name stays, whatever is declared after it. A new name stands for what it is declared as, and the others
/// for what they stood for. The names of a table are different names in the order of their declarations.
pub fn first_declarations_stay<K: Eq, V>()
    ensures first { (table : List (K × V)) (name other : K) (value old : V) → lookup (K.eq name) table ≡ Some old → lookup (K.eq name) (with_first K.eq table other value) ≡ Some old }
    ensures new { (table : List (K × V)) (name : K) (value : V) → lookup (K.eq name) table ≡ None → lookup (K.eq name) (with_first K.eq table name value) ≡ Some value }
    ensures others { (table : List (K × V)) (name other : K) (value : V) → K.eq name other ≡ false → lookup (K.eq name) (with_first K.eq table other value) ≡ lookup (K.eq name) table }
    ensures names { (table : List (K × V)) (name : K) (value : V) → keys_of (with_first K.eq table name value) ≡ with_name K.eq (keys_of table) name }
{}
