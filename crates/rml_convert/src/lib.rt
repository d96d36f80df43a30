//! From clauses to continuations: the pass. It goes through the block of a relation from the last statement to the first, with what comes
//! after in hand; what is still to be done waits in a list, since blocks may be nested deeper than a stack is deep.
#![tactic(auto)]

mod building;
mod patterns;
mod relations;
mod statements;
mod switches;
mod turns;
mod waiting;

pub use relations::{relation_of, tables_of};
