//! The numbers of all values of a set.

ghost use Rattle.std.specs.Prelude.{◌≡◌, IfOk};
ghost use Rattle.rml_values.specs.Numbers.{behind_text, end_from, first_of_all, lists_from, lists_of, values_of};

use crate::numbers::{Begins, TextValues, lists_of};
use rml_base::Memory;
use rml_outlines::{Known, Outline};
use rml_tables::NameSet;
use sqlite_items::Items;
use std::alloc::Global;

/// The numbers of all values of a set of texts.
#[derive(Drop)]
pub struct Values {
    pub prelude: TextValues,
    pub texts: Items<TextValues>,
    /// How many there are of each kind, those of the built-ins that are named as values left out.
    pub end: Begins,
    /// The names of the built-ins, in the order of their table.
    pub rows: NameSet<u32>,
}

/// The values of some texts, and where their lists end.
#[tactic(auto, using(crate::proofs::Turns::lists_turn, crate::proofs::Turns::end_turn))]
fn lists_from(
    alloc: Global,
    begins: Begins,
    outlines: &[Outline],
) -> Result<(Items<TextValues>, Begins), Memory>
    ensures lists { IfOk result (λ both. both.0 ≡ lists_from begins outlines.now) }
    ensures end { IfOk result (λ both. both.1 ≡ end_from begins outlines.now) }
{
    let mut begins = begins;
    let mut texts = Items::new(alloc);
    for outline in outlines {
        let lists = lists_of(alloc, begins, outline)?;
        begins = lists.behind();
        texts.push(lists)?;
    }
    Ok((texts, begins))
}

/// The numbers of all values of a set, by what the prelude declares, by the names of the built-ins in the order of their table, and by what
/// is known of the texts. The only error is want of memory.
#[tactic(auto, unfolding(crate::specs::Numbers::values_of))]
pub fn values_of(
    alloc: Global,
    prelude: &Outline,
    rows: NameSet<u32>,
    known: &Known,
) -> Result<Values, Memory>
    ensures { IfOk result (λ v. v ≡ values_of prelude.now rows known.now) }
{
    let begins = Begins {
        cons: 2,
        vals: 0,
        relations: 0,
    };
    let prelude = lists_of(alloc, begins, prelude)?;
    let (texts, end) = lists_from(alloc, prelude.behind(), known.texts.as_slice())?;
    Ok(Values {
        prelude,
        texts,
        end,
        rows,
    })
}
