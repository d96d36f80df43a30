//! What every program's tables begin with.

ghost use Rattle.std.specs.Prelude.{◌≡◌, ◌&&◌, ◌==◌, map, drop, length};
ghost use Rattle.std.specs.List.{list_all};
ghost use Rattle.rml_types.specs.declared.tree.SchemeTree.{out-SchemeTree};
ghost use Rattle.rml_resolved.specs.Beginning.{begins, is_name, in_prelude, is_known_type, known_types, types_begin, no_arguments, one_argument, head_and_tail, are_arguments, is_known_con, known_cons, is_further, cons_begin, is_word, are_words, goes_by_words, is_declared, is_known_relation, known_relations, relations_begin};

use crate::typing::{is_over_variables, is_plain, is_variable};
use rml_base::Bytes;
use rml_builtin::types::{BOOL, INT, LIST, OPTION};
use rml_resolved::{Arguments, ConDef, RelDef, TypeDef, Word};
use rml_types::{Scheme, SchemeTree};
use sqlite_items::at;

fn names(names: &[Bytes], bytes: &str, k: u32) -> bool
    ensures { result ≡ is_name names.now bytes.now k }
{
    match at(names, k as usize) {
        Some(held) => bytes.as_bytes() == held.as_slice(),
        None => false,
    }
}

fn is_type(all: &[Bytes], name: &str, count: u32, def: &TypeDef) -> bool
    ensures { result ≡ is_known_type all.now (name.now, count) def.now }
{
    names(all, "rml", def.module)
        && names(all, name, def.name)
        && def.params == count
        && def.means.is_none()
}

/// The name of each type, and how many arguments it takes.
const TYPES: [(&str, u32); 8] = [
    ("int", 0),
    ("char", 0),
    ("string", 0),
    ("list", 1),
    ("lvar", 1),
    ("vector", 1),
    ("bool", 0),
    ("option", 1),
];

fn begin_types(all: &[Bytes], expected: &[(&str, u32)], types: &[TypeDef]) -> bool
    ensures { result ≡ begins (is_known_type all.now) (map (λ k. (k.0.now, k.1)) expected.now) types.now }
{
    match (expected, types) {
        ([], _) => true,
        ([(name, count), expected @ ..], [def, types @ ..]) => {
            is_type(all, *name, *count, def) && begin_types(all, expected, types)
        }
        ([_, ..], []) => false,
    }
}

/// Whether the built-in types come first, and then those of the prelude.
#[tactic(auto, unfolding(rml_resolved::specs::Beginning::types_begin))]
pub fn do_types_begin(all: &[Bytes], types: &[TypeDef]) -> bool
    ensures { result ≡ types_begin all.now types.now }
{
    begin_types(all, &TYPES, types)
}

fn takes_nothing(tree: &SchemeTree) -> bool
    ensures { result ≡ no_arguments (out-SchemeTree tree.now) }
{
    match tree {
        SchemeTree::Rel(inputs, _) => inputs.is_empty(),
        _ => false,
    }
}

fn takes_parameter(tree: &SchemeTree) -> bool
    ensures { result ≡ one_argument (out-SchemeTree tree.now) }
{
    match tree {
        SchemeTree::Rel(inputs, _) => match inputs.as_slice() {
            [input] => is_variable(0, input),
            _ => false,
        },
        _ => false,
    }
}

fn takes_head_and_tail(tree: &SchemeTree) -> bool
    ensures { result ≡ head_and_tail (out-SchemeTree tree.now) }
{
    match tree {
        SchemeTree::Rel(inputs, _) => match inputs.as_slice() {
            [head, tail] => is_variable(0, head) && is_over_variables(LIST, 1, tail),
            _ => false,
        },
        _ => false,
    }
}

fn do_take(arguments: Arguments, tree: &SchemeTree) -> bool
    ensures { result ≡ are_arguments arguments (out-SchemeTree tree.now) }
{
    match arguments {
        Arguments::Nothing => takes_nothing(tree),
        Arguments::Parameter => takes_parameter(tree),
        Arguments::HeadAndTail => takes_head_and_tail(tree),
    }
}

fn is_con(all: &[Bytes], name: &str, of: u32, arguments: Arguments, def: &ConDef) -> bool
    ensures { result ≡ is_known_con all.now (name.now, of, arguments) def.now }
{
    names(all, name, def.name) && def.of == of && do_take(arguments, &def.scheme.body)
}

/// The name of each constructor, its datatype and its arguments.
const CONS: [(&str, u32, Arguments); 6] = [
    ("nil", LIST, Arguments::Nothing),
    ("::", LIST, Arguments::HeadAndTail),
    ("false", BOOL, Arguments::Nothing),
    ("true", BOOL, Arguments::Nothing),
    ("NONE", OPTION, Arguments::Nothing),
    ("SOME", OPTION, Arguments::Parameter),
];

fn begin_cons(all: &[Bytes], expected: &[(&str, u32, Arguments)], cons: &[ConDef]) -> bool
    ensures { result ≡ begins (is_known_con all.now) (map (λ k. (k.0.now, k.1, k.2)) expected.now) cons.now }
{
    match (expected, cons) {
        ([], _) => true,
        ([(name, of, arguments), expected @ ..], [def, cons @ ..]) => {
            is_con(all, *name, *of, *arguments, def) && begin_cons(all, expected, cons)
        }
        ([_, ..], []) => false,
    }
}

fn are_further(cons: &[ConDef]) -> bool
    ensures { result ≡ list_all is_further (drop (length known_cons) cons.now) }
{
    cons.iter().skip(CONS.len()).all(|def| 8 <= def.of)
}

/// Whether the constructors of lists, truth values and options come first, and no further one gives a type of these or a
/// built-in one.
#[tactic(auto, unfolding(rml_resolved::specs::Beginning::cons_begin))]
pub fn do_cons_begin(all: &[Bytes], cons: &[ConDef]) -> bool
    ensures { result ≡ cons_begin all.now cons.now }
{
    begin_cons(all, &CONS, cons) && are_further(cons)
}

fn is_of_word(word: Word, tree: &SchemeTree) -> bool
    ensures { result ≡ is_word word (out-SchemeTree tree.now) }
{
    match word {
        Word::Item => is_variable(0, tree),
        Word::ItemList => is_over_variables(LIST, 1, tree),
        Word::Integer => is_plain(INT, tree),
        Word::Truth => is_plain(BOOL, tree),
    }
}

fn are_of_words(words: &[Word], trees: &[SchemeTree]) -> bool
    ensures { result ≡ are_words words.now trees.now }
{
    match (words, trees) {
        ([], []) => true,
        ([word, words @ ..], [tree, trees @ ..]) => {
            is_of_word(*word, tree) && are_of_words(words, trees)
        }
        ([], [_, ..]) => false,
        ([_, ..], []) => false,
    }
}

fn does_go_by_words(inputs: &[Word], outputs: &[Word], tree: &SchemeTree) -> bool
    ensures { result ≡ goes_by_words inputs.now outputs.now (out-SchemeTree tree.now) }
{
    match tree {
        SchemeTree::Rel(ins, outs) => {
            are_of_words(inputs, ins.as_slice()) && are_of_words(outputs, outs.as_slice())
        }
        _ => false,
    }
}

fn is_declared_as(vars: u32, inputs: &[Word], outputs: &[Word], scheme: &Option<Scheme>) -> bool
    ensures { result ≡ is_declared vars inputs.now outputs.now scheme.now }
{
    match scheme {
        Some(scheme) => scheme.vars == vars && does_go_by_words(inputs, outputs, &scheme.body),
        None => false,
    }
}

fn is_relation(
    all: &[Bytes],
    name: &str,
    vars: u32,
    inputs: &[Word],
    outputs: &[Word],
    rel: &RelDef,
) -> bool
    ensures { result ≡ is_known_relation all.now (name.now, vars, inputs.now, outputs.now) rel.now }
{
    names(all, "rml", rel.module)
        && names(all, name, rel.name)
        && is_declared_as(vars, inputs, outputs, &rel.scheme)
}

/// The name of each relation of the prelude, the private one last, how many variables its type has, and the words for its
/// inputs and outputs.
const RELATIONS: [(&str, u32, &[Word], &[Word]); 10] = [
    ("bool_and", 0, &[Word::Truth, Word::Truth], &[Word::Truth]),
    ("bool_or", 0, &[Word::Truth, Word::Truth], &[Word::Truth]),
    ("bool_not", 0, &[Word::Truth], &[Word::Truth]),
    (
        "list_append",
        1,
        &[Word::ItemList, Word::ItemList],
        &[Word::ItemList],
    ),
    ("list_reverse", 1, &[Word::ItemList], &[Word::ItemList]),
    ("list_length", 1, &[Word::ItemList], &[Word::Integer]),
    (
        "list_member",
        1,
        &[Word::Item, Word::ItemList],
        &[Word::Truth],
    ),
    (
        "list_nth",
        1,
        &[Word::ItemList, Word::Integer],
        &[Word::Item],
    ),
    (
        "list_delete",
        1,
        &[Word::ItemList, Word::Integer],
        &[Word::ItemList],
    ),
    (
        "list_turn",
        1,
        &[Word::ItemList, Word::ItemList],
        &[Word::ItemList],
    ),
];

fn begin_relations(
    all: &[Bytes],
    expected: &[(&str, u32, &[Word], &[Word])],
    rels: &[RelDef],
) -> bool
    ensures { result ≡ begins (is_known_relation all.now) (map (λ k. (k.0.now, k.1, k.2.now, k.3.now)) expected.now) rels.now }
{
    match (expected, rels) {
        ([], _) => true,
        ([(name, vars, inputs, outputs), expected @ ..], [rel, rels @ ..]) => {
            is_relation(all, *name, *vars, *inputs, *outputs, rel)
                && begin_relations(all, expected, rels)
        }
        ([_, ..], []) => false,
    }
}

/// Whether the relations of the prelude come first, each with its declared type.
#[tactic(auto, unfolding(rml_resolved::specs::Beginning::relations_begin))]
pub fn do_relations_begin(all: &[Bytes], rels: &[RelDef]) -> bool
    ensures { result ≡ relations_begin all.now rels.now }
{
    begin_relations(all, &RELATIONS, rels)
}
