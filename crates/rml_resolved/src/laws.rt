//! What holds of programs and of the tests that they pass. These functions do nothing: their contracts are the laws.

ghost use Rattle.std.specs.Prelude.{◌≡◌, ℕ, ◌<◌, ◌↔◌, IsSomeAnd, IsTrue, List, Some, codes, map, slice_get};
ghost use Rattle.std.specs.List.{Contains};
ghost use Rattle.rml_base.specs.Numbering.{IsDistinct, same};
ghost use Rattle.rml_builtin.specs.declared.types.TheConstants.{INT, CHAR, STRING, LIST, LVAR, VECTOR, BOOL, OPTION};
ghost use Rattle.rml_value.specs.declared.value.TheConstants.{NIL, CONS, FALSE, TRUE, NONE, SOME};
ghost use Rattle.rml_resolved.specs.Beginning.{KnownRelation, known_types, known_cons, known_relations, HasType};
ghost use Rattle.rml_resolved.specs.Binding.{rule_binds};
ghost use Rattle.rml_resolved.specs.Bound.{count};
ghost use Rattle.rml_resolved.specs.Circles.{Graph, has_no_circle, IsClosed, IsAcyclic, type_needs, val_needs};
ghost use Rattle.rml_resolved.specs.Differ.{all_differ};
ghost use Rattle.rml_resolved.specs.Facts.{KeepsFacts, tables_of};
ghost use Rattle.rml_resolved.specs.Whole.{is_program};
ghost use Rattle.rml_resolved.specs.declared.parts.Parts.{Parts};
ghost use Rattle.rml_resolved.specs.declared.program.Program.{Program};
ghost use Rattle.rml_resolved.specs.declared.tables.RelDef.{RelDef};
ghost use Rattle.rml_resolved.specs.declared.tables.RRule.{RRule};

/// What a program keeps of its tables: tables pass the whole test exactly where they keep each fact.
pub fn programs_keep_facts()
    ensures kept { (p : Program) → KeepsFacts (tables_of p) }
    ensures exact { (parts : Parts) → IsTrue (is_program parts) ↔ KeepsFacts parts }
{}

/// No two numbers of a program name the same bytes, and the test of names tells exactly that.
pub fn names_have_one_number()
    ensures exact { (names : List (List ℕ)) → IsTrue (all_differ same names) ↔ IsDistinct names }
    ensures kept { (p : Program) → IsDistinct p.names }
{}

/// The relations of the prelude come first, each declared with its type.
pub fn the_prelude_is_typed()
    ensures { (p : Program) (k : ℕ) (known : KnownRelation) → slice_get known_relations k ≡ Some known → IsSomeAnd (slice_get p.rels k) (HasType known) }
{}

/// The numbers of types stand for the types that programs begin with.
pub fn types_have_numbers()
    ensures int { IsSomeAnd (slice_get known_types INT) (λ known. known.0 ≡ codes "int") }
    ensures char { IsSomeAnd (slice_get known_types CHAR) (λ known. known.0 ≡ codes "char") }
    ensures string { IsSomeAnd (slice_get known_types STRING) (λ known. known.0 ≡ codes "string") }
    ensures list { IsSomeAnd (slice_get known_types LIST) (λ known. known.0 ≡ codes "list") }
    ensures lvar { IsSomeAnd (slice_get known_types LVAR) (λ known. known.0 ≡ codes "lvar") }
    ensures vector { IsSomeAnd (slice_get known_types VECTOR) (λ known. known.0 ≡ codes "vector") }
    ensures bool { IsSomeAnd (slice_get known_types BOOL) (λ known. known.0 ≡ codes "bool") }
    ensures option { IsSomeAnd (slice_get known_types OPTION) (λ known. known.0 ≡ codes "option") }
{}

/// The numbers of constructors stand for the constructors that programs begin with.
pub fn constructors_have_numbers()
    ensures nil { IsSomeAnd (slice_get known_cons NIL) (λ known. known.0 ≡ codes "nil") }
    ensures cons { IsSomeAnd (slice_get known_cons CONS) (λ known. known.0 ≡ codes "::") }
    ensures falsehood { IsSomeAnd (slice_get known_cons FALSE) (λ known. known.0 ≡ codes "false") }
    ensures truth { IsSomeAnd (slice_get known_cons TRUE) (λ known. known.0 ≡ codes "true") }
    ensures none { IsSomeAnd (slice_get known_cons NONE) (λ known. known.0 ≡ codes "NONE") }
    ensures some { IsSomeAnd (slice_get known_cons SOME) (λ known. known.0 ≡ codes "SOME") }
{}

/// The test by rounds tells whether a number of a graph reaches itself.
pub fn rounds_find_circles()
    ensures { (graph : Graph) → IsClosed graph → IsTrue (has_no_circle graph) ↔ IsAcyclic graph }
{}

/// No type of a program stands for one that it is part of, by way of however many others, and no val needs itself.
pub fn programs_have_no_circle()
    ensures types { (p : Program) → IsAcyclic (map type_needs p.types) }
    ensures vals { (p : Program) → IsAcyclic (map val_needs p.vals) }
{}

/// Each variable of each rule of a program is bound at one place alone.
pub fn each_variable_is_bound()
    ensures { (p : Program) (r : RelDef) (rule : RRule) (x : ℕ) → Contains p.rels r → Contains r.rules rule → x < rule.vars → count x (rule_binds rule) ≡ 1 }
{}
