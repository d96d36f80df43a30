//! What holds of the definitions. These functions do nothing: their contracts are the laws.

ghost use Rattle.std.specs.Prelude.{◌≡◌, List, Some};
ghost use Rattle.rml_value.specs.declared.value.Value.{Value};
ghost use Rattle.rml_value.specs.Lists.{items_of, list_of};

/// The items of a list are those that it was made of, and a value that has items is the list of them.
pub fn lists()
    ensures made { (values : List Value) → items_of (list_of values) ≡ Some values }
    ensures read { (v : Value) (values : List Value) → items_of v ≡ Some values → v ≡ list_of values }
{}
