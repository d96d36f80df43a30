//! The pass: a program becomes a program in clause form.

ghost use Rattle.std.specs.Prelude.{IfOk};
ghost use Rattle.rml_base.specs.Light.{Light};
ghost use Rattle.rml_search.specs.Runs.{runs_of as searched_runs};
ghost use Rattle.rml_fol.specs.Runs.{runs_of};
ghost use Rattle.rml_clauses.specs.Meaning.{HasMeaning};
ghost use Rattle.rml_clauses.specs.Paths.{AreNarrow};
ghost use Rattle.rml_clauses.specs.Tables.{AreTablesOf};

use crate::tables::tables_of;
use rml_base::Memory;
use rml_fol::Fol;
use rml_resolved::Program;
use std::alloc::Global;

/// The program in clause form: entry by entry its own, with the plain form of its rules. It means the same, and costs no more.
pub fn clauses(alloc: Global, program: &Program) -> Result<Fol, Memory>
    requires { HasMeaning program.now }
    ensures tables { IfOk result (λ f. AreTablesOf program.now f.parts) }
    ensures narrow { IfOk result (λ f. AreNarrow program.now f.parts) }
    ensures light { IfOk result (λ f. Light (searched_runs program.now) (runs_of f.parts)) }
{
    let parts = tables_of(alloc, program)?;
    Ok(Fol { parts })
}
