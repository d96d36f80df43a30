//! The tables of a program in continuation form.

use crate::body::Body;
use rml_fol::{Constructor, Name, Val};
use sqlite_items::Items;

/// A relation. Its parameters are the first variables: v0, v1 and so on.
#[derive(Drop)]
pub struct Relation {
    pub name: Name,
    /// How many values it is called with.
    pub params: u32,
    /// How many values it answers.
    pub results: u32,
    /// How many variables its body has: each is a number below this.
    pub vars: u32,
    /// How many successes, failures and bodies it names at most: each is a number below this.
    pub names: u32,
    /// The tokens of the rules that it was made of.
    pub tokens: u32,
    pub body: Body,
}

/// The tables of a program in continuation form, whatever they hold.
#[derive(Drop)]
pub struct Parts {
    /// Those of clause form, with the same numbers.
    pub cons: Items<Constructor>,
    pub vals: Items<Val>,
    pub rels: Items<Relation>,
    /// The number of the relation that a run calls.
    pub main: u32,
    /// Whether `main` gives an integer.
    pub gives: bool,
    /// The tokens of the longest rule.
    pub longest: u32,
    /// The tokens of all rules and the nodes of all vals.
    pub weight: u32,
}
