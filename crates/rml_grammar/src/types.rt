//! What was found where a list of types, one type and a signature begin alike.

use rml_syntax::{Sig, TypeExp};
use sqlite_items::Items;

/// What stands in a round bracket of types.
#[derive(Debug, Drop)]
pub enum Bracket {
    Sig(Sig),
    /// One type, or more.
    Types(Items<TypeExp>),
}

/// The inputs or outputs of a signature.
#[derive(Debug, Drop)]
pub enum Types {
    /// A bracket with no type, or with more than one, and no name behind it.
    Bare(Items<TypeExp>),
    One(TypeExp),
}
