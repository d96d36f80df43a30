//! The listing of code.

use crate::constants::Constant;
use crate::instructions::Block;
use sqlite_items::Items;

/// The listing of code, whatever it holds.
#[derive(Drop)]
pub struct Listing {
    /// How many registers there are.
    pub registers: u64,
    pub constants: Items<Constant>,
    /// The first two are the ends of a run. Then come the entry blocks of the relations, in the order of their numbers.
    pub blocks: Items<Block>,
    /// The block of the first turn.
    pub main: u64,
    /// The tokens of the longest rule.
    pub longest: u32,
    /// The tokens of all rules and the nodes of all vals.
    pub weight: u32,
}
