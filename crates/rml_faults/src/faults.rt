//! The least fault of a set of texts.

ghost use Rattle.std.specs.Prelude.{◌≡◌, ◌+◌, ◌-◌, ◌<◌, ◌≤◌, ◌^◌, IfOk, length};
ghost use Rattle.rml_base.specs.Numbering.{GrowsBy};
ghost use Rattle.rml_builtin.specs.declared.row.TheConstants.{ROWS};
ghost use Rattle.rml_prelude.specs.declared.word.TheConstants.{WORDS};
ghost use Rattle.rml_faults.specs.Faults.{IsSet, ModuleFaults};

use crate::set::{Set, set_of};
use rml_base::{Bytes, Memory, Names};
use rml_scopes::Found;
use rml_syntax::Text;
use rml_walks::least_fault;
use std::alloc::Global;

/// The least fault of a set of which this is known; None where there is none. The only error is want of memory.
pub fn fault_in(
    alloc: Global,
    texts: &[Text],
    _files: &[Bytes],
    _names: &Names,
    set: &Set,
) -> Result<Option<Found>, Memory>
    requires few { length texts.now ≤ 64 }
    requires set { IsSet _names.now _files.now texts.now set.now }
    ensures { IfOk result (ModuleFaults _names.now _files.now texts.now) }
{
    let least = least_fault(alloc, &set.world, texts, &set.mains)?;
    Ok(least)
}

/// The least fault of some texts, over the names as they are left; None where there is none. There is one file name a text. The only error
/// is want of memory, and after it the names may have grown.
pub fn first_fault(
    alloc: Global,
    texts: &[Text],
    files: &[Bytes],
    names: &mut Names,
) -> Result<Option<Found>, Memory>
    requires few { length texts.now ≤ 64 }
    requires files { length files.now ≡ length texts.now }
    requires room { length names.old < 2 ^ 32 - 128 }
    ensures faults { IfOk result (ModuleFaults names.new files.now texts.now) }
    ensures names { GrowsBy (length WORDS + length ROWS) names.old names.new }
{
    let set = set_of(alloc, texts, files, names)?;
    let least = fault_in(alloc, texts, files, names, &set)?;
    Ok(least)
}
