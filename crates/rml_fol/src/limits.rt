//! How large the parts of a program in clause form are.

/// A constructor has fewer arguments.
pub const CON_ARGUMENTS: u32 = 1_048_576;

/// The statements, the variables and the bodies of a relation are each at most so many for each token of its rules.
pub const PER_TOKEN: u64 = 64;

/// The tokens of all rules and the expressions of all vals are fewer.
pub const WEIGHT: u64 = 134_217_728;

/// Patterns and expressions that nest deeper are not printed. Those of rules do not, since the brackets of a text do not.
pub const MOST_NESTED: u32 = 1500;
