//! What is made of rules carries them, and what follows for programs. These functions do nothing: their contracts are the laws.

ghost use Rattle.std.specs.Prelude.{ℕ, List, IsTrue};
ghost use Rattle.std.specs.List.{list_all};
ghost use Rattle.rml_base.specs.Light.{Light, NoWrong};
ghost use Rattle.rml_simulation.specs.Moves.{more_steps};
ghost use Rattle.rml_simulation.specs.Carries.{kept};
ghost use Rattle.rml_resolved.specs.declared.parts.Counts.{Counts};
ghost use Rattle.rml_resolved.specs.declared.program.Program.{Program};
ghost use Rattle.rml_resolved.specs.declared.tables.ConDef.{ConDef};
ghost use Rattle.rml_resolved.specs.declared.tables.RRule.{RRule};
ghost use Rattle.rml_search.specs.Context.{Context};
ghost use Rattle.rml_search.specs.Runs.{runs_of as searched_runs};
ghost use Rattle.rml_fol.specs.declared.parts.Parts.{Parts};
ghost use Rattle.rml_fol.specs.declared.parts.Relation.{Relation};
ghost use Rattle.rml_fol.specs.Expressions.{Vals};
ghost use Rattle.rml_fol.specs.Runs.{runs_of};
ghost use Rattle.rml_clause.specs.Carries.{Carries, AreCarried};
ghost use Rattle.rml_clause.specs.Clauses.{AreClauses};
ghost use Rattle.rml_clause.specs.Made.{IsMadeOf, IsClausesOf, AreClausesOf};
ghost use Rattle.rml_clause.specs.Narrow.{EachNarrow, EachShort, relation_has_few};

/// A relation in clause form that was made of rules carries the relation with these rules, and has earned a step by its end.
pub fn made_relations_carry()
    ensures each { (c : Context) (vals : Vals) (counts : Counts) (cons : List ConDef) (rules : List RRule) (r : Relation) → IsMadeOf c vals counts cons rules r → Carries kept c vals rules r }
    ensures first { (c : Context) (vals : Vals) (counts : Counts) (cons : List ConDef) (rules : List RRule) (r : Relation) → IsMadeOf c vals counts cons rules r → Carries (more_steps 1) c vals rules r }
{}

/// What the pass makes of the rules of a relation is made of them: their plain form, with variables of its own.
pub fn clauses_are_made()
    ensures { (names : List (List ℕ)) (rules : List RRule) (r : Relation) (vars : ℕ) → AreClauses names r.params rules r.body.stmts vars → IsClausesOf names rules r }
{}

/// The paths of short rules are as light as a step of the search may be: sixteen for each part of a rule, and sixty-four.
pub fn short_rules_are_narrow()
    ensures { (names : List (List ℕ)) (params most : ℕ) (rules : List RRule) → EachShort params most rules → EachNarrow names params most rules }
{}

/// Where no search of a program is Wrong and each of its relations is carried, the tables in clause form mean the same and cost no more.
pub fn carried_is_light()
    ensures { (p : Program) (q : Parts) → NoWrong (searched_runs p) → AreCarried p q → Light (searched_runs p) (runs_of q) }
{}

/// Tables in clause form that were made of a program mean the same and cost no more, where no search of the program is Wrong, and no
/// built-in is called for more than one result.
pub fn made_programs_are_light()
    ensures { (p : Program) (q : Parts) → NoWrong (searched_runs p) → IsTrue (list_all relation_has_few p.rels) → AreClausesOf p q → Light (searched_runs p) (runs_of q) }
{}
