//! How many values a relation takes and gives: as many as its first rule.

ghost use Rattle.std.specs.Prelude.{◌≡◌};
ghost use Rattle.rml_clauses.specs.Agrees.{shape};

use rml_resolved::RelDef;

/// How many values the first rule takes.
pub fn taken_by(def: &RelDef) -> usize
    ensures { result ≡ (shape def.now).params }
{
    match def.rules.as_slice() {
        [] => 0,
        [first, ..] => first.inputs.len(),
    }
}

/// How many values the first rule gives.
pub fn given_by(def: &RelDef) -> usize
    ensures { result ≡ (shape def.now).results }
{
    match def.rules.as_slice() {
        [] => 0,
        [first, ..] => first.results.len(),
    }
}
