//! What tables that were made of a program keep of it. These functions do nothing: their contracts are the laws.

ghost use Rattle.std.specs.Prelude.{ℕ, List, IsTrue};
ghost use Rattle.rml_base.specs.Light.{Light, NoWrong};
ghost use Rattle.rml_resolved.specs.declared.program.Program.{Program};
ghost use Rattle.rml_search.specs.Runs.{runs_of as searched_runs};
ghost use Rattle.rml_fol.specs.declared.parts.Parts.{Parts};
ghost use Rattle.rml_fol.specs.Runs.{runs_of};
ghost use Rattle.rml_clauses.specs.Agrees.{counts_agree};
ghost use Rattle.rml_clauses.specs.Facts.{KeepsFacts};
ghost use Rattle.rml_clauses.specs.Paths.{AreNarrow};
ghost use Rattle.rml_clauses.specs.Tables.{AreTablesOf};

/// Where no search of a program is Wrong and its counts agree, tables that are made of it mean the same and cost no more.
pub fn tables_are_light()
    ensures { (p : Program) (q : Parts) → NoWrong (searched_runs p) → IsTrue (counts_agree p) → AreTablesOf p q → Light (searched_runs p) (runs_of q) }
{}

/// And they keep what a program in clause form keeps of its tables.
pub fn tables_keep_facts()
    ensures { (p : Program) (q : Parts) → IsTrue (counts_agree p) → AreTablesOf p q → KeepsFacts q }
{}

/// And what is met on the way from one step to the next weighs no more than a step of the search.
pub fn tables_are_narrow()
    ensures { (p : Program) (q : Parts) → IsTrue (counts_agree p) → AreTablesOf p q → AreNarrow p q }
{}
