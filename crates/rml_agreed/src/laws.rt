//! What the pass to clause form may take of a program that is typed. The function does nothing: its contract is the law.

ghost use Rattle.rml_resolved.specs.Facts.{tables_of};
ghost use Rattle.rml_resolved.specs.declared.program.Program.{Program};
ghost use Rattle.rml_typed.specs.Checked.{IsTyped};
ghost use Rattle.rml_clauses.specs.Meaning.{HasMeaning};

/// A program that is typed has a meaning: no search of it is Wrong, and its rules and calls agree on how many values relations take
/// and give.
pub fn typed_programs_have_meaning()
    ensures { (p : Program) → IsTyped (tables_of p) → HasMeaning p }
{}
