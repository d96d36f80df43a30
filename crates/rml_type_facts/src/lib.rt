//! What is asked of the types of a set of texts, beside their names: which abstypes are defined in circles, which relations and vals have
//! one type in the interface and another in the body, and which relations `main` a program may begin with. It knows nothing of scopes and
//! of rules.
#![tactic(auto)]

mod circles;
mod differences;
mod facts;
pub mod laws;
mod mains;

pub use facts::type_facts;
pub use mains::mains_of;
