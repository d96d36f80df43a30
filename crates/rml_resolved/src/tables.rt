//! The entries of a program's tables. `module` and `name` are numbers of names.

use crate::trees::{RExp, RGoal, RPat};
use rml_base::Place;
use rml_types::Scheme;
use sqlite_items::Items;

/// A type name.
#[derive(Drop)]
pub struct TypeDef {
    pub module: u32,
    pub name: u32,
    /// How many arguments it takes.
    pub params: u32,
    /// What an abstype stands for in its own text, where its body defines it by `type`; None for every other type.
    pub means: Option<Scheme>,
}

/// A constructor.
#[derive(Drop)]
pub struct ConDef {
    pub name: u32,
    /// The number of its datatype.
    pub of: u32,
    /// How many arguments it takes.
    pub arity: u32,
    /// The relation type from its arguments to its datatype.
    pub scheme: Scheme,
}

/// A val.
#[derive(Drop)]
pub struct ValDef {
    pub module: u32,
    pub name: u32,
    /// The place of its name in the body.
    pub place: Place,
    pub scheme: Scheme,
    pub value: RExp,
}

/// A relation.
#[derive(Drop)]
pub struct RelDef {
    pub module: u32,
    pub name: u32,
    pub place: Place,
    /// Its declared type; None where its type is left to be inferred.
    pub scheme: Option<Scheme>,
    pub rules: Items<RRule>,
}

/// A rule. Its variables are numbered from 0.
#[derive(Drop)]
pub struct RRule {
    /// The place of the word `rule` or `axiom`.
    pub place: Place,
    pub inputs: Items<RPat>,
    pub goals: Items<RGoal>,
    pub results: Items<RExp>,
    /// How many variables it has.
    pub vars: u32,
    /// How many tokens it has in its text.
    pub tokens: u32,
}
