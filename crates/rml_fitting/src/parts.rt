//! The tables of a program, one after another.

ghost use Rattle.std.specs.Prelude.{◌≡◌};
ghost use Rattle.std.specs.List.{list_all};
ghost use Rattle.rml_resolved.specs.Fits.{relation_fits, val_fits};
ghost use Rattle.rml_resolved.specs.Typing.{type_def_fits, con_def_fits};
ghost use Rattle.rml_resolved.specs.Whole.{parts_begin, parts_fit};

use crate::beginning::{do_cons_begin, do_relations_begin, do_types_begin};
use crate::fits::{is_relation, is_val};
use crate::typing::{is_con_def, is_type_def};
use rml_resolved::{ConDef, Counts, Parts, RelDef, TypeDef, ValDef};

fn are_types(names: usize, types: &[TypeDef]) -> bool
    ensures { result ≡ list_all (type_def_fits names types.now) types.now }
{
    types.iter().all(|def| is_type_def(names, types, def))
}

fn are_cons(names: usize, types: &[TypeDef], cons: &[ConDef]) -> bool
    ensures { result ≡ list_all (con_def_fits names types.now) cons.now }
{
    cons.iter().all(|def| is_con_def(names, types, def))
}

fn are_vals(counts: Counts, types: &[TypeDef], cons: &[ConDef], vals: &[ValDef]) -> bool
    ensures { result ≡ list_all (val_fits counts types.now cons.now) vals.now }
{
    vals.iter().all(|val| is_val(counts, types, cons, val))
}

fn are_relations(counts: Counts, types: &[TypeDef], cons: &[ConDef], rels: &[RelDef]) -> bool
    ensures { result ≡ list_all (relation_fits counts types.now cons.now) rels.now }
{
    rels.iter().all(|rel| is_relation(counts, types, cons, rel))
}

/// Whether the tables begin with what every program begins with.
pub fn do_begin(parts: &Parts) -> bool
    ensures { result ≡ parts_begin parts.now }
{
    do_types_begin(parts.names.as_slice(), parts.types.as_slice())
        && do_cons_begin(parts.names.as_slice(), parts.cons.as_slice())
        && do_relations_begin(parts.names.as_slice(), parts.rels.as_slice())
}

/// Whether each entry of the tables fits the others: names and numbers are there, and counts of arguments are as declared.
pub fn do_fit(parts: &Parts) -> bool
    ensures { result ≡ parts_fit parts.now }
{
    let counts = Counts {
        names: parts.names.len(),
        vals: parts.vals.len(),
        rels: parts.rels.len(),
    };
    let types = parts.types.as_slice();
    let cons = parts.cons.as_slice();
    are_types(counts.names, types)
        && are_cons(counts.names, types, cons)
        && are_vals(counts, types, cons, parts.vals.as_slice())
        && are_relations(counts, types, cons, parts.rels.as_slice())
}
