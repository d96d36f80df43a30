//! The variables and names of a relation that are not used yet.

/// The next variable, and the next number of a continuation. None is used twice in a relation, so each is new where it is bound or named.
#[derive(Clone, Copy)]
pub struct Numbers {
    pub variable: u32,
    pub name: u32,
}
