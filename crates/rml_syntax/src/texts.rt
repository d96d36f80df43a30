//! The trees of texts and of their declarations.

use crate::rules::{Exp, Rule};
use crate::types::{DataBind, Sig, TypeExp, TypeHead};
use rml_base::Place;
use sqlite_items::Items;

/// A whole text: an interface, and a body.
#[derive(Debug, Drop)]
pub struct Text {
    /// The module's name.
    pub module: u32,
    /// The place of that name.
    pub place: Place,
    /// Where the text's next byte would stand.
    pub end: Place,
    /// The `with`s of the interface.
    pub uses: Items<Uses>,
    /// The declarations of the interface, whose relations have no rules and whose vals have no expression.
    pub specs: Items<Decl>,
    /// The `with`s of the body.
    pub body_uses: Items<Uses>,
    /// The declarations of the body.
    pub decls: Items<Decl>,
}

/// A `with`: the text literal after it, and the place of the word.
#[derive(Clone, Copy, Debug, PartialEq, Eq)]
pub struct Uses {
    pub file: u32,
    pub place: Place,
}

/// A declaration. A place is that of the declared name.
#[derive(Debug, Drop)]
pub enum Decl {
    Datatype(Items<DataBind>),
    Abbrev(TypeHead, TypeExp),
    Abstype(TypeHead),
    /// The type is there in an interface, the expression in a body.
    Val(u32, Place, Option<TypeExp>, Option<Exp>),
    /// The signature is there in an interface, and the rules, at least one, in a body.
    Relation(u32, Place, Option<Sig>, Items<Rule>),
}
