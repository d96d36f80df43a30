//! How large the parts of a program in continuation form are.

/// The statements of a relation, its variables and its names are each at most so many for each token of its rules.
pub const PER_TOKEN: u64 = 256;
