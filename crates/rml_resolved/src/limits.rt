//! How large the parts of a program are.

/// A constructor has fewer arguments.
pub const CON_ARGUMENTS: u32 = 1_048_576;

/// A rule of so many parts may have fewer tokens than parts.
pub const FEW_PARTS: u64 = 8;

/// The tokens of the longest rule of the prelude.
pub const PRELUDE_TOKENS: u32 = 40;

/// The tokens of all rules and the expressions of all vals are fewer.
pub const WEIGHT: u64 = 134_217_728;
