//! How large the parts of code are.

/// A constructor has fewer arguments: a head keeps their number below its constructor's.
pub const CON_PARTS: u32 = 1_048_576;

/// Code has at most so many blocks, registers and constants each, for each token of its rules and each node of its vals.
pub const PER_TOKEN: u64 = 4_096;

/// The tokens of all rules and the nodes of all vals are fewer.
pub const WEIGHT: u64 = 134_217_728;

/// The bytes of a text, the parts of a tuple, and the registers that a block or a frame is made of are fewer.
pub const LENGTH: u32 = 2_147_483_640;
