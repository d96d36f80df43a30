//! What the pass keeps while it goes through a relation.

mod numbers;

pub use numbers::Numbers;
