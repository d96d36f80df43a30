//! What can stand first where one token decides.

use rml_base::Place;
use rml_syntax::Lit;

/// The first token, as far as a choice inside a declaration or a rule looks at it.
#[derive(Clone, Copy, Debug, PartialEq, Eq)]
pub enum Front {
    Literal(Lit),
    Named,
    /// A type variable, and its place.
    TyVar(u32, Place),
    /// The bracket `(`.
    Round,
    /// The bracket `[`.
    Square,
    /// The sign `_`.
    Wild,
    Let,
    Not,
    Dashes,
    /// Any other token, or the end of the list.
    Other,
}

/// The first token, as far as a choice between declarations, or between rules, looks at it. What keeps the place of the
/// word has it here.
#[derive(Clone, Copy, Debug, PartialEq, Eq)]
pub enum Opening {
    With(Place),
    Datatype,
    Type,
    Abstype,
    Val,
    Relation,
    Rule(Place),
    Axiom(Place),
    /// Any other token, or the end of the list.
    Other,
}
