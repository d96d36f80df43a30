//! What the plain search reads.

ghost use Rattle.std.specs.Prelude.{◌≡◌};
ghost use Rattle.rml_search.specs.Whole.{context_of};
ghost use Rattle.rml_search.specs.Given.{context_in};

use rml_base::Bytes;
use rml_resolved::{Program, RelDef, ValDef, longest};

/// The tables that a search reads of a program, and what a step weighs.
#[derive(Clone, Copy)]
pub struct Tables<'a> {
    pub names: &'a [Bytes],
    pub vals: &'a [ValDef],
    pub rels: &'a [RelDef],
    pub step_weight: u64,
}

/// The tables of a program, whose longest rule says what a step weighs.
pub fn tables_of<'a>(program: &'a Program) -> Tables<'a>
    ensures context { context_in result ≡ context_of program.now }
    ensures rels { result.rels.now ≡ program.now.rels }
{
    let rels = program.rels.as_slice();
    Tables {
        names: program.names.as_slice(),
        vals: program.vals.as_slice(),
        rels,
        step_weight: 16 * u64::from(longest(rels)) + 64,
    }
}
