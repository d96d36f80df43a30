//! Programs.

ghost use Rattle.std.specs.Prelude.{IsTrue, length, map, slice_get};
ghost use Rattle.std.specs.List.{list_all};
ghost use Rattle.rml_base.specs.Bytes.{are_bytes};
ghost use Rattle.rml_base.specs.Numbering.{same};
ghost use Rattle.rml_resolved.specs.Beginning.{types_begin, cons_begin, relations_begin};
ghost use Rattle.rml_resolved.specs.Binding.{relation_binds_once, relation_uses_bound};
ghost use Rattle.rml_resolved.specs.Circles.{has_no_circle, type_needs, val_needs};
ghost use Rattle.rml_resolved.specs.Differ.{all_differ};
ghost use Rattle.rml_resolved.specs.Fits.{counts_of, relation_fits, val_fits};
ghost use Rattle.rml_resolved.specs.Size.{relation_is_small, has_long_rule, is_light};
ghost use Rattle.rml_resolved.specs.Typing.{type_def_fits, con_def_fits, is_main};

use crate::parts::Parts;
use crate::tables::{ConDef, RelDef, TypeDef, ValDef};
use rml_base::Bytes;
use sqlite_items::Items;

/// A program whose parts fit: each fact below is a test over the tables, named after what it says.
#[derive(Drop)]
pub struct Program {
    /// The bytes of all names and text literals, by their numbers.
    pub names: Items<Bytes>,
    pub types: Items<TypeDef>,
    pub cons: Items<ConDef>,
    pub vals: Items<ValDef>,
    pub rels: Items<RelDef>,
    /// The number of the relation that a run calls.
    pub main: u32,
    /// Whether `main` gives an integer.
    pub gives: bool,
    // each name is a byte string, and no two numbers name the same bytes
    pub ghost names_are_bytes: { IsTrue (list_all are_bytes names) },
    pub ghost names_differ: { IsTrue (all_differ same names) },
    // the tables begin with the built-in types, those of the prelude, their constructors and the prelude's relations, each of
    // its declared type
    pub ghost types_first: { IsTrue (types_begin names types) },
    pub ghost cons_first: { IsTrue (cons_begin names cons) },
    pub ghost relations_first: { IsTrue (relations_begin names rels) },
    // numbers lead into their tables, arguments are as many as declared, integers are in range, characters are bytes, chains
    // have two items, a constructor belongs to a datatype and has fewer than `CON_ARGUMENTS` arguments, a val has no variable,
    // a relation has a rule and, where its type is declared, a relation type
    pub ghost types_fit: { IsTrue (list_all (type_def_fits (length names) types) types) },
    pub ghost cons_fit: { IsTrue (list_all (con_def_fits (length names) types) cons) },
    pub ghost vals_fit: { IsTrue (list_all (val_fits (counts_of names vals rels) types cons) vals) },
    pub ghost relations_fit: { IsTrue (list_all (relation_fits (counts_of names vals rels) types cons) rels) },
    // no type stands for one that it is part of, and no val needs itself (see the laws)
    pub ghost types_end: { IsTrue (has_no_circle (map type_needs types)) },
    pub ghost vals_end: { IsTrue (has_no_circle (map val_needs vals)) },
    // each variable of a rule is bound, at one place alone, and used only after it
    pub ghost bound_once: { IsTrue (list_all relation_binds_once rels) },
    pub ghost used_after: { IsTrue (list_all relation_uses_bound rels) },
    // a rule has at least one token, and no more parts than tokens or at most `FEW_PARTS`; the longest has as many tokens as
    // the prelude's has, `PRELUDE_TOKENS`, or more; all rules and vals together are below `WEIGHT`
    pub ghost rules_small: { IsTrue (list_all relation_is_small rels) },
    pub ghost long_rule: { IsTrue (has_long_rule rels) },
    pub ghost light: { IsTrue (is_light vals rels) },
    // `main` is there, of the type that `gives` tells, which has no variables
    pub ghost main_fits: { IsTrue (is_main gives (slice_get rels main)) },
}

impl Program {
    ghost use Rattle.rml_resolved.specs.Facts.{KeepsFacts, IsMadeOf};

    /// The program of tables that are known to keep each fact. It takes no memory and tests nothing.
    pub fn of(parts: Parts) -> Program
        requires { KeepsFacts parts }
        ensures { IsMadeOf parts result }
    {
        let Parts {
            names,
            types,
            cons,
            vals,
            rels,
            main,
            gives,
        } = parts;
        Program {
            names,
            types,
            cons,
            vals,
            rels,
            main,
            gives,
        }
    }
}
