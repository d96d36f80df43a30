//! Which texts the interfaces name, and which of them lead back.

ghost use Rattle.std.specs.Prelude.{◌≡◌, ◌<◌, ◌↔◌, ℕ, [], length, nat_eq, slice_index, slice_index_or, IfOk, OnOk};
ghost use Rattle.rml_reach.specs.Paths.{AreConnected, HasEdge, IsGraph};
ghost use Rattle.rml_tables.specs.Words.{with_each};
ghost use Rattle.rml_outlines.specs.Outlines.{leads_to, links_of, named_by, with_leading};

use rml_base::Memory;
use rml_outlines::add_each;
use rml_reach::laws::short_paths_are_enough;
use rml_syntax::{Text, Uses};
use rml_tables::{NameSet, Table};
use sqlite_items::Items;
use std::alloc::Global;

/// The texts that some `with`s name, in order.
pub fn named_by(
    alloc: Global,
    targets: &Table<u32, u32>,
    trees: &[Uses],
) -> Result<Items<u32>, Memory>
    ensures { IfOk result (λ texts. texts ≡ named_by targets.now trees.now) }
{
    let mut texts = Items::new(alloc);
    for item in trees {
        if let Some(text) = targets.value(item.file) {
            texts.push(text)?;
        }
    }
    Ok(texts)
}

/// Of each text, the texts that its interface names.
pub fn links(
    alloc: Global,
    targets: &Table<u32, u32>,
    texts: &[Text],
) -> Result<Items<Items<u32>>, Memory>
    ensures { IfOk result (λ links. links ≡ links_of targets.now texts.now) }
{
    let mut links = Items::new(alloc);
    for text in texts {
        links.push(named_by(alloc, targets, text.uses.as_slice())?)?;
    }
    Ok(links)
}

/// Each of some texts once.
pub fn set_of(alloc: Global, texts: &[u32]) -> Result<NameSet<u32>, Memory>
    ensures { IfOk result (λ set. set ≡ with_each nat_eq [] texts.now) }
{
    let mut set = NameSet::new(alloc);
    add_each(&mut set, texts)?;
    Ok(set)
}

/// Whether a text that another one names leads back to it. Both have the same chosen node then, since they are connected.
fn leads_back(links: &[Items<u32>], chosen: &[u32], own: u32, other: u32) -> bool
    requires graph { IsGraph links.now }
    requires count { length chosen.now ≡ length links.now }
    requires same { (n m : ℕ) → n < length links.now → m < length links.now → (slice_index chosen.now n ≡ slice_index chosen.now m) ↔ AreConnected links.now n m }
    requires own { own < length links.now }
    requires edge { HasEdge links.now own other }
    ensures { result ≡ leads_to links.now other own }
{
    short_paths_are_enough();
    chosen[other as usize] == chosen[own as usize]
}

/// Of the texts that a text names, those that lead back to it.
pub fn leading(
    alloc: Global,
    links: &[Items<u32>],
    chosen: &[u32],
    own: u32,
) -> Result<NameSet<u32>, Memory>
    requires graph { IsGraph links.now }
    requires count { length chosen.now ≡ length links.now }
    requires same { (n m : ℕ) → n < length links.now → m < length links.now → (slice_index chosen.now n ≡ slice_index chosen.now m) ↔ AreConnected links.now n m }
    requires own { own < length links.now }
    ensures { IfOk result (λ texts. texts ≡ with_leading links.now own [] (slice_index_or links.now own [])) }
{
    let others = links[own as usize].as_slice();
    let mut texts = NameSet::new(alloc);
    for other in others {
        if leads_back(links, chosen, own, *other) {
            texts.add(*other)?;
        }
    }
    Ok(texts)
}
