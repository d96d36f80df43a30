//! Whether two types are one type.

ghost use Rattle.std.specs.Prelude.{◌≡◌, ◌↔◌, IfOk, IsTrue};

use rml_base::Memory;
use rml_types::{SchemeTree, labels_of};
use std::alloc::Global;

/// Whether two types are one type, the names of variables included. No two types have the same labels, so these decide.
pub fn same_type(alloc: Global, a: &SchemeTree, b: &SchemeTree) -> Result<bool, Memory>
    ensures { IfOk result (λ same. IsTrue same ↔ (a.now ≡ b.now)) }
{
    let these = labels_of(alloc, a)?;
    let those = labels_of(alloc, b)?;
    Ok(these.as_slice() == those.as_slice())
}
