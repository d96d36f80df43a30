//! The trees of rules: names, patterns, expressions, goals and the rules themselves. Lists and boxes are seen by
//! contracts as what they hold, so a tree is plain data there.

use crate::token::Lit;
use rml_base::Place;
use sqlite_items::{Boxed, Items};

/// A name, with or without the name of a module before it. The place is that of its first token.
#[derive(Clone, Copy, Debug, PartialEq, Eq)]
pub struct Long {
    pub module: Option<u32>,
    pub name: u32,
    pub place: Place,
}

/// A pattern. Brackets around one pattern leave no trace.
#[derive(Debug, Drop)]
pub enum Pattern {
    /// The pattern `_`.
    Any,
    Lit(Lit),
    /// A name without arguments, which is a constructor or a variable.
    Name(Long),
    /// A constructor and its arguments, which are at least one.
    App(Long, Items<Pattern>),
    /// A tuple of at least two.
    Tuple(Items<Pattern>),
    /// The items of a list in square brackets.
    List(Items<Pattern>),
    /// A whole chain of `::`, of at least two items. The last is the tail.
    Cons(Items<Pattern>),
    /// The name before an `as`, its place, and the pattern after it.
    Bind(u32, Place, Boxed<Pattern>),
}

/// An expression. Brackets around one expression leave no trace.
#[derive(Debug, Drop)]
pub enum Exp {
    Lit(Lit),
    /// A name without arguments.
    Name(Long),
    /// A constructor and its arguments, which are at least one.
    App(Long, Items<Exp>),
    /// A tuple of at least two.
    Tuple(Items<Exp>),
    /// The items of a list in square brackets.
    List(Items<Exp>),
    /// A whole chain of `::`, of at least two items. The last is the tail.
    Cons(Items<Exp>),
}

/// A premise of a rule.
#[derive(Debug, Drop)]
pub enum Goal {
    /// What is called, its arguments and the patterns of its results. An absent list is the empty one.
    Call(Long, Items<Exp>, Items<Pattern>),
    Equal(Long, Exp),
    /// The pattern stands by itself, so that a goal is no larger than a call.
    Let(Boxed<Pattern>, Exp),
    Not(Boxed<Goal>),
    /// Goals in brackets, also one goal in brackets.
    All(Items<Goal>),
}

/// A rule. An axiom is a rule without goals.
#[derive(Debug, Drop)]
pub struct Rule {
    /// The place of the word `rule` or `axiom`.
    pub place: Place,
    pub head: u32,
    pub head_place: Place,
    pub inputs: Items<Pattern>,
    pub goals: Items<Goal>,
    pub results: Items<Exp>,
    /// How many tokens the rule has, from the word `rule` or `axiom` to the end of its head.
    pub tokens: u32,
}
