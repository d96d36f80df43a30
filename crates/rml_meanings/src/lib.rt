//! What the abstypes that a text defines by `type` stand for there, written out. When a text reads types so is a definition of
//! rml_typed; types are written out by rml_abbreviations.
#![tactic(auto)]

mod definitions;

pub use definitions::meanings;
