//! Whether the names of a program are byte strings, no two of them the same.

ghost use Rattle.std.specs.Prelude.{◌≡◌, IfOk};
ghost use Rattle.std.specs.List.{list_all};
ghost use Rattle.rml_base.specs.Bytes.{are_bytes};
ghost use Rattle.rml_base.specs.Numbering.{same};
ghost use Rattle.rml_resolved.specs.Differ.{all_differ};

use indexmap::IndexSet;
use rml_base::{Bytes, Memory};
use std::alloc::Global;

/// True, since that is what `Bytes` are.
fn is_byte_string(name: &Bytes) -> bool
    ensures { result ≡ are_bytes name.now }
{
    name.are_below_256();
    true
}

/// Whether each name is a byte string.
pub fn are_byte_strings(names: &[Bytes]) -> bool
    ensures { result ≡ list_all are_bytes names.now }
{
    names.iter().all(|name| is_byte_string(name))
}

/// Whether no two names are the same. Those met so far are kept in a hashed set.
pub fn do_names_differ(alloc: Global, names: &[Bytes]) -> Result<bool, Memory>
    ensures { IfOk result (λ b. b ≡ all_differ same names.now) }
{
    let mut met = IndexSet::new(alloc);
    for name in names {
        let bytes = name.as_slice();
        if met.contains(bytes) {
            return Ok(false);
        }
        met.insert(bytes.to_vec(alloc)?)?;
    }
    Ok(true)
}
