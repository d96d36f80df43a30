//! The trees of types, signatures and datatypes.

use crate::rules::Long;
use rml_base::Place;
use sqlite_items::{Boxed, Items};

/// A type. Brackets around one type leave no trace, except under the names of an `App`.
#[cycle(types)]
#[derive(Debug, Drop)]
pub enum TypeExp {
    /// A type variable and its place.
    Var(u32, Place),
    /// Arguments, and the names that stand behind them, of which there is at least one. The first name is applied to
    /// the arguments, and each later name to what stands before it.
    App(Items<TypeExp>, Items<Long>),
    /// The factors of a tuple type, at least two.
    Tuple(Items<TypeExp>),
    Rel(Boxed<Sig>),
}

/// What goes into a relation, and what comes out of it.
#[cycle(types)]
#[derive(Debug, Drop)]
pub struct Sig {
    pub inputs: Items<TypeExp>,
    pub outputs: Items<TypeExp>,
}

/// What a `type`, `datatype` or `abstype` declares: a name, its place, and the type variables before it.
#[derive(Debug, Drop)]
pub struct TypeHead {
    pub vars: Items<u32>,
    pub name: u32,
    pub place: Place,
}

/// One datatype with its constructors.
#[derive(Debug, Drop)]
pub struct DataBind {
    pub head: TypeHead,
    pub cons: Items<ConBind>,
}

/// A constructor, its place, and the types of its arguments.
#[derive(Debug, Drop)]
pub struct ConBind {
    pub name: u32,
    pub place: Place,
    pub parts: Items<TypeExp>,
}
