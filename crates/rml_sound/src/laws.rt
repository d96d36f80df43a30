//! What holds of the runs of programs that are typed. These functions do nothing: their contracts are the laws.

ghost use Rattle.std.specs.Prelude.{◌≡◌, ℕ, ℤ, List, [], IsTrue, Option, is_some, map};
ghost use Rattle.rml_base.specs.Light.{NoWrong};
ghost use Rattle.rml_base.specs.Run.{Answer};
ghost use Rattle.rml_types.specs.declared.tree.SchemeTree.{SchemeTree};
ghost use Rattle.rml_types.specs.Schemes.{inst};
ghost use Rattle.rml_value.specs.declared.value.Value.{Value};
ghost use Rattle.rml_builtin.specs.declared.row.Row.{Row};
ghost use Rattle.rml_builtin.specs.Applied.{Store};
ghost use Rattle.rml_builtin.specs.BuiltIns.{apply};
ghost use Rattle.rml_builtin.specs.Table.{inputs_of, outputs_of};
ghost use Rattle.rml_resolved.specs.Facts.{tables_of};
ghost use Rattle.rml_resolved.specs.declared.parts.Parts.{Parts};
ghost use Rattle.rml_resolved.specs.declared.program.Program.{Program};
ghost use Rattle.rml_resolved.specs.declared.tables.RelDef.{RelDef};
ghost use Rattle.rml_search.specs.Runs.{run_of, runs_of};
ghost use Rattle.rml_search.specs.Whole.{search_of};
ghost use Rattle.rml_typed.specs.Units.{InGroup};
ghost use Rattle.rml_typed.specs.Checked.{IsTyped};
ghost use Rattle.rml_sound.specs.Full.{full, Reads};
ghost use Rattle.rml_sound.specs.Values.{RelationHas, StoreHas, StoreTypes, ValuesHave};
ghost use Rattle.rml_sound.specs.Declaring.{AreDeclared, with_rels};
ghost use Rattle.rml_sound.specs.Sample.{HasAbstype, HasGroup, HasIdentity};
ghost use Rattle.rml_sound.specs.Safe.{AnswerHas, Safe, SafeApplied};

/// No run of a program that is typed is Wrong, on whatever arguments and with however many steps; and an answer has an integer
/// exactly where `main` gives one.
pub fn typed_programs_are_never_wrong()
    ensures never { (p : Program) → IsTyped (tables_of p) → NoWrong (runs_of p) }
    ensures answers { (p : Program) (args : List (List ℕ)) (n : ℕ) (o : Option ℤ) → IsTyped (tables_of p) → (run_of p args n).outcome ≡ Answer o → is_some o ≡ p.gives }
{}

/// The search of any relation of such a program, on values of the types that it takes, is not Wrong and answers by values of the
/// types that it gives: those of its declared type in some instance, or those that it has where its group is typed.
pub fn searches_keep_types()
    ensures { (p : Program) (r : ℕ) (ins outs : List SchemeTree) (vs : List Value) (n : ℕ) → IsTyped (tables_of p) → RelationHas (tables_of p) r ins outs → ValuesHave (tables_of p) [] vs ins
        → Safe (AnswerHas (tables_of p) [] outs) (search_of p r vs n) }
{}

/// A built-in is not Wrong on values of its types, in any instance, and gives values of its types, in a store that has only grown.
pub fn built_ins_keep_types()
    ensures { (p : Program) (S : StoreTypes) (ts : List SchemeTree) (store : Store) (row : Row) (vs : List Value) → StoreHas (tables_of p) S store → ValuesHave (tables_of p) S vs (map (inst ts) (inputs_of row))
        → SafeApplied (AnswerHas (tables_of p) S (map (inst ts) (outputs_of row))) (apply row vs store) }
{}

/// A program that is typed stays so where each inferred type is written in as a declared one, and then it has no group. So what is
/// shown of programs without groups holds of those that have them.
pub fn inferred_types_can_be_declared()
    ensures typed { (p : Parts) (rels : List RelDef) → IsTyped p → AreDeclared p rels → IsTyped (with_rels p rels) }
    ensures ungrouped { (p : Parts) (rels : List RelDef) (text r : ℕ) → AreDeclared p rels → InGroup (with_rels p rels) text r → ⊥ }
{}

/// There are tables that are typed, with a relation at every type, a group and an abstype.
pub fn there_are_typed_tables()
    ensures { (p : Parts) × IsTyped p × HasIdentity p × HasGroup p × HasAbstype p }
{}

/// Whatever abstypes of its own a text has, its types are read as types that are written out in full.
pub fn texts_read_full_types()
    ensures { (p : Program) (text : ℕ) (fixed : List SchemeTree) → Reads p.types text (λ t. inst fixed (full p.types t)) }
{}
