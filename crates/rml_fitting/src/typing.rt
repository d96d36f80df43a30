//! Whether the types in the tables fit.

ghost use Rattle.std.specs.Prelude.{◌≡◌, map, slice_get};
ghost use Rattle.rml_types.specs.Schemes.{every};
ghost use Rattle.rml_types.specs.declared.tree.SchemeTree.{out-SchemeTree};
ghost use Rattle.rml_resolved.specs.Typing.{takes, type_fits, is_relation_type, scheme_fits, means_fits, type_def_fits, is_datatype as is_datatype_in, is_var, are_vars, is_whole, gives_whole, makes_whole, con_def_fits, is_constant, is_list_of_texts, takes_texts, gives_integer, is_main_type, is_main_scheme, is_main};

use rml_builtin::types::{INT, LIST, STRING};
use rml_resolved::limits::CON_ARGUMENTS;
use rml_resolved::{ConDef, RelDef, TypeDef};
use rml_types::{Scheme, SchemeTree};
use sqlite_items::at;

fn is_application(types: &[TypeDef], name: u32, arguments: usize) -> bool
    ensures { result ≡ takes arguments (slice_get types.now name) }
{
    match at(types, name as usize) {
        Some(def) => def.params as usize == arguments,
        None => false,
    }
}

/// Whether each name in a type is there, with as many arguments as it takes.
#[cycle(types)]
pub fn is_type_whole(types: &[TypeDef], tree: &SchemeTree) -> bool
    ensures { result ≡ type_fits types.now tree.now }
{
    match tree {
        SchemeTree::Var(_) => true,
        SchemeTree::Named(c, args) => {
            is_application(types, *c, args.len()) && are_types_whole(types, args.as_slice())
        }
        SchemeTree::Tuple(parts) => are_types_whole(types, parts.as_slice()),
        SchemeTree::Rel(inputs, outputs) => {
            are_types_whole(types, inputs.as_slice()) && are_types_whole(types, outputs.as_slice())
        }
    }
}

#[cycle(types)]
fn are_types_whole(types: &[TypeDef], trees: &[SchemeTree]) -> bool
    ensures { result ≡ every (map (type_fits types.now) trees.now) }
{
    for tree in trees {
        if !is_type_whole(types, tree) {
            return false;
        }
    }
    true
}

fn is_relational(tree: &SchemeTree) -> bool
    ensures { result ≡ is_relation_type (out-SchemeTree tree.now) }
{
    match tree {
        SchemeTree::Rel(_, _) => true,
        _ => false,
    }
}

/// Whether a declared type of a relation, where there is one, is a whole relation type.
pub fn is_scheme_whole(types: &[TypeDef], scheme: &Option<Scheme>) -> bool
    ensures { result ≡ scheme_fits types.now scheme.now }
{
    match scheme {
        Some(scheme) => is_relational(&scheme.body) && is_type_whole(types, &scheme.body),
        None => true,
    }
}

fn is_meaning(types: &[TypeDef], params: u32, means: &Option<Scheme>) -> bool
    ensures { result ≡ means_fits types.now params means.now }
{
    match means {
        Some(scheme) => scheme.vars == params && is_type_whole(types, &scheme.body),
        None => true,
    }
}

/// Whether a type has names and, where it stands for another, a whole one over its parameters.
pub fn is_type_def(names: usize, types: &[TypeDef], def: &TypeDef) -> bool
    ensures { result ≡ type_def_fits names types.now def.now }
{
    (def.module as usize) < names
        && (def.name as usize) < names
        && is_meaning(types, def.params, &def.means)
}

fn is_datatype(types: &[TypeDef], number: u32) -> bool
    ensures { result ≡ is_datatype_in types.now number }
{
    match at(types, number as usize) {
        Some(def) => def.means.is_none(),
        None => false,
    }
}

/// Whether a type is the variable of a number.
pub fn is_variable(k: usize, tree: &SchemeTree) -> bool
    ensures { result ≡ is_var k (out-SchemeTree tree.now) }
{
    match tree {
        SchemeTree::Var(j) => k == *j as usize,
        _ => false,
    }
}

fn are_variables(trees: &[SchemeTree]) -> bool
    ensures { result ≡ are_vars 0 trees.now }
{
    for (k, tree) in trees.iter().enumerate() {
        if !is_variable(k, tree) {
            return false;
        }
    }
    true
}

/// Whether a type is a name over the variables from 0 on, as many as `vars`.
pub fn is_over_variables(name: u32, vars: u32, tree: &SchemeTree) -> bool
    ensures { result ≡ is_whole name vars (out-SchemeTree tree.now) }
{
    match tree {
        SchemeTree::Named(other, args) => {
            name == *other && vars as usize == args.len() && are_variables(args.as_slice())
        }
        _ => false,
    }
}

fn is_one_over_variables(name: u32, vars: u32, trees: &[SchemeTree]) -> bool
    ensures { result ≡ gives_whole name vars trees.now }
{
    match trees {
        [tree] => is_over_variables(name, vars, tree),
        _ => false,
    }
}

fn is_making(name: u32, vars: u32, arity: u32, tree: &SchemeTree) -> bool
    ensures { result ≡ makes_whole name vars arity (out-SchemeTree tree.now) }
{
    match tree {
        SchemeTree::Rel(inputs, outputs) => {
            arity as usize == inputs.len() && is_one_over_variables(name, vars, outputs.as_slice())
        }
        _ => false,
    }
}

/// Whether a constructor has a name, a datatype, fewer than `CON_ARGUMENTS` arguments, and a whole type from these to its datatype over
/// the parameters.
pub fn is_con_def(names: usize, types: &[TypeDef], def: &ConDef) -> bool
    ensures { result ≡ con_def_fits names types.now def.now }
{
    (def.name as usize) < names
        && is_datatype(types, def.of)
        && def.arity < CON_ARGUMENTS
        && is_type_whole(types, &def.scheme.body)
        && is_making(def.of, def.scheme.vars, def.arity, &def.scheme.body)
}

/// Whether a type is a name without arguments.
pub fn is_plain(name: u32, tree: &SchemeTree) -> bool
    ensures { result ≡ is_constant name (out-SchemeTree tree.now) }
{
    match tree {
        SchemeTree::Named(other, args) => args.is_empty() && name == *other,
        _ => false,
    }
}

fn is_texts(tree: &SchemeTree) -> bool
    ensures { result ≡ is_list_of_texts (out-SchemeTree tree.now) }
{
    match tree {
        SchemeTree::Named(name, args) => match args.as_slice() {
            [arg] => *name == LIST && is_plain(STRING, arg),
            _ => false,
        },
        _ => false,
    }
}

fn are_texts(trees: &[SchemeTree]) -> bool
    ensures { result ≡ takes_texts trees.now }
{
    match trees {
        [tree] => is_texts(tree),
        _ => false,
    }
}

fn are_outputs(gives: bool, trees: &[SchemeTree]) -> bool
    ensures { result ≡ gives_integer gives trees.now }
{
    match trees {
        [] => !gives,
        [tree] => gives && is_plain(INT, tree),
        _ => false,
    }
}

fn is_type_of_main(gives: bool, tree: &SchemeTree) -> bool
    ensures { result ≡ is_main_type gives (out-SchemeTree tree.now) }
{
    match tree {
        SchemeTree::Rel(inputs, outputs) => {
            are_texts(inputs.as_slice()) && are_outputs(gives, outputs.as_slice())
        }
        _ => false,
    }
}

/// Whether a relation is there and can be `main`: its declared type has no variables and is from a list of texts to nothing, or
/// to an integer where it `gives` one.
pub fn can_be_main(gives: bool, rels: &[RelDef], main: u32) -> bool
    ensures { result ≡ is_main gives (slice_get rels.now main) }
{
    match at(rels, main as usize) {
        Some(rel) => match &rel.scheme {
            Some(scheme) => scheme.vars == 0 && is_type_of_main(gives, &scheme.body),
            None => false,
        },
        None => false,
    }
}
