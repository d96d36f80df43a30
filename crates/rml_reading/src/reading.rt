//! What is known of some texts is read from their trees.

ghost use Rattle.std.specs.Prelude.{◌≡◌, ◌<◌, ◌≤◌, ◌^◌, ◌↔◌, ℕ, [], length, slice_index, slice_index_or, IfOk, OnOk};
ghost use Rattle.rml_reach.specs.Paths.{AreConnected, IsGraph};
ghost use Rattle.rml_outlines.specs.Outlines.{known_of, links_of, named_by, outline_of, outlines_from, with_module, with_modules};

use crate::files::targets;
use crate::links::{leading, links, named_by, set_of};
use rml_base::{Bytes, Memory, Names};
use rml_outlines::{Entries, Known, Outline, entries_of};
use rml_reach::components;
use rml_syntax::Text;
use rml_tables::Table;
use sqlite_items::Items;
use std::alloc::Global;

fn add_module(
    prelude: u32,
    name: u32,
    text: u32,
    modules: &mut Table<u32, u32>,
) -> Result<(), Memory>
    ensures { OnOk result (modules.new ≡ with_module prelude modules.old name text) }
{
    if name != prelude {
        modules.declare(name, text)?;
    }
    Ok(())
}

/// The first text of each module name, without the prelude's.
fn modules(alloc: Global, prelude: u32, texts: &[Text]) -> Result<Table<u32, u32>, Memory>
    requires { length texts.now < 2 ^ 32 }
    ensures { IfOk result (λ modules. modules ≡ with_modules prelude [] 0 texts.now) }
{
    let mut modules = Table::new(alloc);
    for (number, text) in texts.iter().enumerate() {
        add_module(prelude, text.module, number as u32, &mut modules)?;
    }
    Ok(modules)
}

/// A text, which has this number.
#[tactic(auto, unfolding(rml_outlines::specs::Outlines::outline_of))]
fn outline(
    alloc: Global,
    targets: &Table<u32, u32>,
    links: &[Items<u32>],
    chosen: &[u32],
    own: u32,
    text: &Text,
) -> Result<Outline, Memory>
    requires graph { IsGraph links.now }
    requires count { length chosen.now ≡ length links.now }
    requires same { (n m : ℕ) → n < length links.now → m < length links.now → (slice_index chosen.now n ≡ slice_index chosen.now m) ↔ AreConnected links.now n m }
    requires own { own < length links.now }
    requires named { slice_index_or links.now own [] ≡ named_by targets.now text.now.uses }
    ensures { IfOk result (λ o. o ≡ outline_of links.now targets.now own text.now) }
{
    let seen = set_of(alloc, links[own as usize].as_slice())?;
    let circles = leading(alloc, links, chosen, own)?;
    let body_named = named_by(alloc, targets, text.body_uses.as_slice())?;
    let body_seen = set_of(alloc, body_named.as_slice())?;
    let interface = entries_of(alloc, text.specs.as_slice())?;
    let body = entries_of(alloc, text.decls.as_slice())?;
    Ok(Outline {
        interface,
        body,
        seen,
        body_seen,
        circles,
    })
}

/// The texts in their order.
fn outlines(
    alloc: Global,
    targets: &Table<u32, u32>,
    links: &[Items<u32>],
    chosen: &[u32],
    texts: &[Text],
) -> Result<Items<Outline>, Memory>
    requires graph { IsGraph links.now }
    requires count { length chosen.now ≡ length links.now }
    requires same { (n m : ℕ) → n < length links.now → m < length links.now → (slice_index chosen.now n ≡ slice_index chosen.now m) ↔ AreConnected links.now n m }
    requires links { links.now ≡ links_of targets.now texts.now }
    ensures { IfOk result (λ outlines. outlines ≡ outlines_from links.now targets.now 0 texts.now) }
{
    let mut outlines = Items::new(alloc);
    for (own, text) in texts.iter().enumerate() {
        outlines.push(outline(alloc, targets, links, chosen, own as u32, text)?)?;
    }
    Ok(outlines)
}

/// What is known of some texts, with the names of their files, one a text, and the bytes of all names. The prelude is a text before all
/// others, and `built` is what is built in. The only error is want of memory.
#[tactic(auto, unfolding(rml_outlines::specs::Outlines::known_of))]
pub fn known_of(
    alloc: Global,
    names: &Names,
    files: &[Bytes],
    prelude: &Text,
    built: Entries,
    texts: &[Text],
) -> Result<Known, Memory>
    requires few { length texts.now < 2 ^ 32 }
    requires files { length files.now ≡ length texts.now }
    ensures { IfOk result (λ known. known ≡ known_of names.now files.now prelude.now built texts.now) }
{
    let targets = targets(alloc, names, files, texts)?;
    let links = links(alloc, &targets, texts)?;
    let chosen = components(alloc, links.as_slice())?;
    let outlines = outlines(alloc, &targets, links.as_slice(), chosen.as_slice(), texts)?;
    let modules = modules(alloc, prelude.module, texts)?;
    let given = entries_of(alloc, prelude.specs.as_slice())?;
    Ok(Known {
        texts: outlines,
        modules,
        targets,
        prelude_module: prelude.module,
        prelude: given,
        built,
    })
}
