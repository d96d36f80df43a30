//! What is asked of the types of each text.

ghost use Rattle.std.specs.Prelude.{◌≡◌, ◌<◌, ◌^◌, length, IfOk};
ghost use Rattle.rml_type_facts.specs.Circles.{holds};
ghost use Rattle.rml_type_facts.specs.Facts.{facts_from, type_facts};
ghost use Rattle.rml_signatures.specs.Types.{AreTypes, told};

use crate::circles::{circles, circular_in};
use crate::differences::different_in;
use rml_base::Memory;
use rml_outlines::Known;
use rml_scopes::TypeFacts;
use rml_signatures::{Tables, Types};
use rml_syntax::Text;
use sqlite_items::Items;
use std::alloc::Global;

/// The same by what is known of types, and by which of them are defined in circles.
fn facts(
    alloc: Global,
    known: &Known,
    texts: &[Text],
    tables: &Tables,
    circles: &[bool],
) -> Result<Items<TypeFacts>, Memory>
    requires { length texts.now < 2 ^ 32 }
    ensures { IfOk result (λ facts. facts ≡ facts_from (holds circles.now) (told known.now tables.now) texts.now 0 texts.now) }
{
    let mut facts = Items::new(alloc);
    for (number, text) in texts.iter().enumerate() {
        let circular = circular_in(alloc, circles, tables.numbers.texts.get(number))?;
        let different = different_in(alloc, known, texts, tables, number as u32, text)?;
        facts.push(TypeFacts {
            circular,
            different,
        })?;
    }
    Ok(facts)
}

/// What is asked of the types of each text.
pub fn type_facts(
    alloc: Global,
    known: &Known,
    texts: &[Text],
    types: &Types,
) -> Result<Items<TypeFacts>, Memory>
    requires few { length texts.now < 2 ^ 32 }
    requires types { AreTypes known.now texts.now types.now }
    ensures { IfOk result (λ facts. facts ≡ type_facts known.now texts.now) }
{
    let circles = circles(alloc, known, texts, types)?;
    facts(alloc, known, texts, &types.tables, &circles)
}
