//! What the tests mean by which facts are told, in words of types and of paths. The function is a law: it says by its contract what is
//! true, and does nothing.

ghost use Rattle.std.specs.Prelude.{◌↔◌, ℕ, List, IsTrue};
ghost use Rattle.rml_types.specs.declared.tree.SchemeTree.{SchemeTree};
ghost use Rattle.rml_type_ops.specs.Renaming.{IsSameUpToNames};
ghost use Rattle.rml_reach.specs.Paths.{IsOnCircle};
ghost use Rattle.rml_type_facts.specs.Circles.{on_circle};
ghost use Rattle.rml_type_facts.specs.Facts.{IsMainType, is_main_type};
ghost use Rattle.rml_type_facts.specs.Same.{are_one};

use rml_reach::laws::short_paths_are_enough;

/// Two types are one by the test exactly where a renaming of variables makes one the other; a node is on a circle by the test exactly where
/// a path of at least one edge leads back to it; and a type is one of `main` by the test exactly where it is one of the two.
pub fn tests_say_what_is_meant()
    ensures types { (a b : SchemeTree) → IsTrue (are_one a b) ↔ IsSameUpToNames a b }
    ensures circles { (edges : List (List ℕ)) (n : ℕ) → IsTrue (on_circle edges n) ↔ IsOnCircle edges n }
    ensures main { (t : SchemeTree) → IsTrue (is_main_type t) ↔ IsMainType t }
{
    short_paths_are_enough();
}
