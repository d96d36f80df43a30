//! What is expected of the constructors and relations with which every program begins.

/// The arguments of a constructor.
#[derive(Clone, Copy, Debug, PartialEq, Eq)]
pub enum Arguments {
    Nothing,
    /// The first parameter of the datatype.
    Parameter,
    /// That, and a list of it.
    HeadAndTail,
}

/// The words of the prelude's interface, of which the types of its relations are made.
#[derive(Clone, Copy, Debug, PartialEq, Eq)]
pub enum Word {
    /// The first variable of the type.
    Item,
    /// A list of it.
    ItemList,
    Integer,
    Truth,
}
