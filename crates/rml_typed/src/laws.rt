//! What holds of programs that are typed and of those that are not. These functions do nothing: their contracts are the laws.

ghost use Rattle.std.specs.Prelude.{◌≡◌, ℕ, ◌≤◌, IsTrue, List, None, Some, slice_get};
ghost use Rattle.std.specs.List.{Contains};
ghost use Rattle.rml_base.specs.declared.place.Place.{Place};
ghost use Rattle.rml_types.specs.declared.scheme.Scheme.{Scheme};
ghost use Rattle.rml_types.specs.declared.tree.SchemeTree.{SchemeTree};
ghost use Rattle.rml_builtin.specs.declared.row.Row.{Row};
ghost use Rattle.rml_builtin.specs.declared.row.TheConstants.{ROWS};
ghost use Rattle.rml_builtin.specs.Table.{type_of};
ghost use Rattle.rml_resolved.specs.declared.parts.Parts.{Parts};
ghost use Rattle.rml_resolved.specs.declared.tables.RelDef.{RelDef};
ghost use Rattle.rml_resolved.specs.declared.tables.RRule.{RRule};
ghost use Rattle.rml_resolved.specs.declared.tables.TypeDef.{TypeDef};
ghost use Rattle.rml_resolved.specs.Beginning.{types_begin};
ghost use Rattle.rml_typed.specs.declared.answers.TypeErr.{TypeErr};
ghost use Rattle.rml_typed.specs.Own.{definition_in, own};
ghost use Rattle.rml_typed.specs.Parts.{RuleTyped};
ghost use Rattle.rml_typed.specs.Units.{InGroup, GroupTypes, GroupTyped, GroupCanBeTyped, DeclaredFirstTyped, DeclaredTyped, alone, declared};
ghost use Rattle.rml_typed.specs.Untyped.{IsFault, IsNotPast, Rank};
ghost use Rattle.rml_typed.specs.Checked.{IsTyped};
ghost use Rattle.rml_typed.specs.BuiltIns.{CallsBuiltIn};

/// What is typed stays so with fewer parts. So a part with which no types do, and without which some do, is the least such
/// that nothing types all parts up to it.
pub fn fewer_parts_stay_typed()
    ensures rule { (p : Parts) (rel : RelDef) (s : Scheme) (rule : RRule) (m n : ℕ) → m ≤ n → DeclaredFirstTyped p rel s rule n → DeclaredFirstTyped p rel s rule m }
    ensures group { (p : Parts) (text : ℕ) (earlier place : Place) (m n : ℕ) → IsNotPast earlier m place n → GroupCanBeTyped p text place n → GroupCanBeTyped p text earlier m }
{}

/// A program that is typed has no fault.
pub fn typed_programs_have_no_fault()
    ensures { (p : Parts) (at : Rank) (e : TypeErr) → IsTyped p → IsFault p at e → ⊥ }
{}

/// The rules of a group are typed as those of declared relations are: with the relations of the group used at instances of
/// their general types, as everywhere else.
pub fn groups_are_typed_alone()
    ensures { (p : Parts) (text r : ℕ) (S : GroupTypes) (g : InGroup p text r) (rule : RRule) → GroupTyped p text S → Contains g.rel.rules rule
        → RuleTyped (declared p g.rel.«module») (alone p text g.rel.«module») (S r) rule }
{}

/// A text that defines no abstype by `type` reads types as they stand.
pub fn types_without_definitions_stand()
    ensures { (types : List TypeDef) (text : ℕ) (t : SchemeTree) → ((c : ℕ) → definition_in text (slice_get types c) ≡ None) → own types text t ≡ t }
{}

/// The relation of a built-in that is named as a value, declared with the built-in's type, is typed in every program.
pub fn relations_of_built_ins_are_typed()
    ensures { (p : Parts) (rel : RelDef) (s : Scheme) (rule : RRule) (number : ℕ) (row : Row)
        → IsTrue (types_begin p.names p.types) → slice_get ROWS number ≡ Some row → s.body ≡ type_of row → CallsBuiltIn number row rule → DeclaredTyped p rel s rule }
{}
