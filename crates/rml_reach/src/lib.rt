//! Paths in graphs: which nodes some nodes reach, which nodes reach some, which nodes lie on circles. All by loops, in time linear in
//! nodes and edges. A node is a number; what it stands for, such as a text, a type or a relation, stands above.
#![tactic(auto)]

mod circles;
mod connected;
pub mod laws;
mod reach;
mod turned;

pub use circles::on_circles;
pub use connected::components;
pub use reach::reached;
pub use turned::{add_edge, reaching, without_edges};

#[cfg(test)]
mod tests;
