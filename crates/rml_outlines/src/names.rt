//! Names from slices into sets.

ghost use Rattle.std.specs.Prelude.{◌≡◌, nat_eq, OnOk};
ghost use Rattle.rml_tables.specs.Words.{with_each};

use rml_base::Memory;
use rml_tables::NameSet;

/// Adds each of some names in turn.
pub fn add_each(names: &mut NameSet<u32>, more: &[u32]) -> Result<(), Memory>
    ensures { OnOk result (names.new ≡ with_each nat_eq names.old more.now) }
{
    for name in more {
        names.add(*name)?;
    }
    Ok(())
}
