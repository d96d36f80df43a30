//! What is read.

use rml_base::Bytes;

/// A text: the name under which it was found, and its bytes.
#[derive(Debug, Drop)]
pub struct Source {
    pub name: Bytes,
    pub bytes: Bytes,
}
