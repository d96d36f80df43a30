//! The least of the module faults of a set of texts.

ghost use Rattle.std.specs.Prelude.{◌≡◌, ◌<◌, ◌^◌, ◌↔◌, [], None, IfOk, IfSome, IsNone, length, map};
ghost use Rattle.rml_scopes.specs.Faults.{IsLeast, least_of, lesser_of};
ghost use Rattle.rml_scopes.specs.Module.{main_faults, module_faults, no_main, text_faults, texts_faults};

use crate::texts::text;
use rml_base::{Memory, Place};
use rml_scopes::{Found, ModFault, Scope, Walk, World, lesser};
use rml_syntax::Text;
use std::alloc::Global;

/// The least of a fault and those at the names of a text, which has this number.
fn in_text(
    alloc: Global,
    world: &World,
    number: u32,
    tree: &Text,
    least: Option<Found>,
) -> Result<Option<Found>, Memory>
    ensures { IfOk result (λ found. found ≡ lesser_of least (text_faults world.now number tree.now)) }
{
    let mut walk = Walk {
        scope: Scope::new(alloc, number),
        least,
    };
    text(alloc, world, tree, &mut walk)?;
    Ok(walk.least)
}

/// The least fault at the names of the texts.
#[tactic(auto, using(crate::proofs::Least::texts_more))]
fn in_texts(alloc: Global, world: &World, texts: &[Text]) -> Result<Option<Found>, Memory>
    requires { length texts.now < 2 ^ 32 }
    ensures { IfOk result (λ least. least ≡ lesser_of None (texts_faults world.now 0 texts.now)) }
{
    let mut least = None;
    for (number, tree) in texts.iter().enumerate() {
        least = in_text(alloc, world, number as u32, tree, least)?;
    }
    Ok(least)
}

fn no_main(place: Place) -> Found
    ensures { result ≡ no_main place }
{
    Found {
        place,
        fault: ModFault::NoMain,
    }
}

/// The least of a fault and those at the second `main` and all behind it.
fn at_further_mains(least: Option<Found>, places: &[Place]) -> Option<Found>
    ensures { result ≡ lesser_of least (map no_main places.now) }
{
    let mut least = least;
    for place in places {
        least = lesser(least, no_main(*place));
    }
    least
}

/// The least of a fault and that at the end of the last text.
fn at_last_end(least: Option<Found>, texts: &[Text]) -> Option<Found>
    ensures { result ≡ lesser_of least (main_faults texts.now []) }
{
    match texts.last() {
        None => least,
        Some(text) => lesser(least, no_main(text.end)),
    }
}

/// The least of a fault and those of the relations `main`.
fn at_mains(least: Option<Found>, texts: &[Text], mains: &[Place]) -> Option<Found>
    ensures { result ≡ lesser_of least (main_faults texts.now mains.now) }
{
    match mains.split_first() {
        None => at_last_end(least, texts),
        Some((_, further)) => at_further_mains(least, further),
    }
}

/// The least, as it is found.
#[tactic(auto, using(rml_scopes::proofs::Callers::lesser_over), unfolding(rml_scopes::specs::Module::module_faults))]
fn found(
    alloc: Global,
    world: &World,
    texts: &[Text],
    mains: &[Place],
) -> Result<Option<Found>, Memory>
    requires { length texts.now < 2 ^ 32 }
    ensures { IfOk result (λ least. least ≡ least_of (module_faults world.now texts.now mains.now)) }
{
    let least = in_texts(alloc, world, texts)?;
    Ok(at_mains(least, texts, mains))
}

/// The least of the module faults of some texts, by place and then by number; `None` exactly where there is none. The world is that of
/// the texts, and `mains` are the places of the relations that a program may begin with. The only error is want of memory.
#[tactic(auto, using(crate::proofs::Least::none_exactly, crate::proofs::Least::least_exactly))]
pub fn least_fault(
    alloc: Global,
    world: &World,
    texts: &[Text],
    mains: &[Place],
) -> Result<Option<Found>, Memory>
    requires { length texts.now < 2 ^ 32 }
    ensures none { IfOk result (λ least. IsNone least ↔ (module_faults world.now texts.now mains.now ≡ [])) }
    ensures least { IfOk result (λ least. IfSome least (λ found. IsLeast found (module_faults world.now texts.now mains.now))) }
{
    let least = found(alloc, world, texts, mains)?;
    Ok(least)
}
