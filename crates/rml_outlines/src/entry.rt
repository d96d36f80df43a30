//! What a name is declared as, in the two spaces of names: types, and values.

/// What declares a type.
#[derive(Clone, Copy, Debug, PartialEq, Eq)]
pub enum TypeKind {
    Datatype,
    /// A `type`.
    Abbrev,
    Abstype,
    BuiltIn,
}

/// A type's name, with the number of its parameters.
#[derive(Clone, Copy, Debug, PartialEq, Eq)]
pub struct TypeEntry {
    pub kind: TypeKind,
    pub params: usize,
}

/// The name of a value.
#[derive(Clone, Copy, Debug, PartialEq, Eq)]
pub enum ValueEntry {
    /// With the number of its arguments.
    Constructor(usize),
    Val,
    /// Also a built-in one.
    Relation,
}
