//! The pass: a relation becomes one `or` with an alternative for each of its rules. It only translates: no alternative is shared, and no
//! test is moved.

mod making;
mod premises;
mod rules;
mod terms;

pub use rules::{Clauses, clauses_of_relation};
pub use terms::{bytes_of, expression};
