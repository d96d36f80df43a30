//! Lists that have room for their items and no more: a tree has many short lists, and room that nothing fills would be most
//! of it. A long list is never there twice, so its first item goes in front of the others where these stand.

ghost use Rattle.std.specs.Prelude.{◌≡◌, [], ◌∷◌, IfOk};

use sqlite_items::Items;
use std::alloc::{AllocError, Global};

/// A list of one item.
pub fn alone<T: Drop>(alloc: Global, item: T) -> Result<Items<T>, AllocError>
    ensures { IfOk result (λ xs. xs ≡ item ∷ []) }
{
    joined(item, Vec::new(alloc))
}

/// A list of an item and those that follow it.
pub fn joined<T: Drop>(first: T, more: Vec<T>) -> Result<Items<T>, AllocError>
    ensures { IfOk result (λ xs. xs ≡ first ∷ more.items) }
{
    Ok(fitted(led_by(first, more)?))
}

/// The item, and those that follow it.
pub fn led_by<T: Drop>(first: T, more: Vec<T>) -> Result<Vec<T>, AllocError>
    ensures { IfOk result (λ xs. xs.items ≡ first ∷ more.items) }
{
    let mut items = more;
    items.reserve_exact(1)?;
    items.insert(0, first)?;
    Ok(items)
}

/// A list of these items.
pub fn fitted<T>(items: Vec<T>) -> Items<T>
    ensures { result ≡ items.items }
{
    let mut items = items;
    items.shrink_to_fit();
    Items::from_vec(items)
}
