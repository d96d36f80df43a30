//! The tables of a program in clause form.

use crate::body::Body;
use crate::terms::Expression;
use rml_base::Bytes;
use sqlite_items::Items;

/// What the text writes as MODULE.NAME.
#[derive(Drop)]
pub struct Name {
    pub of: Bytes,
    pub name: Bytes,
}

/// A constructor.
#[derive(Drop)]
pub struct Constructor {
    pub name: Name,
    /// How many arguments it has.
    pub arity: u32,
}

/// A val.
#[derive(Drop)]
pub struct Val {
    pub name: Name,
    pub value: Expression,
}

/// A relation. Its parameters are the first variables: v0, v1 and so on.
#[derive(Drop)]
pub struct Relation {
    pub name: Name,
    /// How many values it is called with.
    pub params: u32,
    /// How many values it answers.
    pub results: u32,
    /// How many variables its body has: each is a number below this.
    pub vars: u32,
    /// How many bodies it names: each is a number below this.
    pub bodies: u32,
    /// The tokens of the rules that it was made of.
    pub tokens: u32,
    pub body: Body,
}

/// The tables of a program in clause form, whatever they hold.
#[derive(Drop)]
pub struct Parts {
    /// `[]`, `::`, `false`, `true`, `NONE` and `SOME` have the first numbers; of these the text has `[]` and `::` as they are, and not
    /// their names.
    pub cons: Items<Constructor>,
    pub vals: Items<Val>,
    pub rels: Items<Relation>,
    /// The number of the relation that a run calls.
    pub main: u32,
    /// Whether `main` gives an integer.
    pub gives: bool,
    /// The tokens of the longest rule.
    pub longest: u32,
    /// The tokens of all rules and the nodes of all vals.
    pub weight: u32,
}
