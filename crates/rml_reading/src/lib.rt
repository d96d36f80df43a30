//! What is known of the texts of a set is read from their trees: by which `with`s texts see each other, and all that rml_outlines says is
//! known. It knows nothing of what names mean.
#![tactic(auto)]

mod files;
mod links;
mod reading;

pub use reading::known_of;
