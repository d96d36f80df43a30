//! Which texts `with`s name.

ghost use Rattle.std.specs.Prelude.{◌≡◌, ◌≢◌, ◌<◌, ◌≤◌, ◌-◌, ◌^◌, ℕ, [], length, map, slice_index, slice_index_or, IfOk, OnOk};
ghost use Rattle.rml_base.specs.Numbering.{same};
ghost use Rattle.rml_outlines.specs.Files.{last_part, text_named, with_named, with_target, with_targets, with_targets_of};

use rml_base::{Bytes, Memory, Names};
use rml_syntax::{Text, Uses};
use rml_tables::Table;
use sqlite_items::Items;
use std::alloc::Global;

/// Where the last part of a path begins: behind the last `/`, or at its beginning.
fn part_start(path: &[u8]) -> usize
    ensures within { result ≤ length path.now }
    ensures behind { (k : ℕ) → result ≤ k → k < length path.now → slice_index path.now k ≢ 47 }
    ensures slash { 0 < result → slice_index path.now (result - 1) ≡ 47 }
{
    let mut start = path.len();
    while start > 0 && path[start - 1] != b'/' {
        start -= 1;
    }
    start
}

/// What stands after the last `/`, or all where there is none.
fn last_part(path: &[u8]) -> &[u8]
    ensures { result.now ≡ last_part path.now }
{
    let start = part_start(path);
    &path[start..]
}

/// The last parts of some names of files.
fn last_parts(alloc: Global, files: &[Bytes]) -> Result<Items<Bytes>, Memory>
    ensures { IfOk result (λ parts. parts ≡ map last_part files.now) }
{
    let mut parts = Items::new(alloc);
    for file in files {
        let part = last_part(file.as_slice()).to_vec(alloc)?;
        parts.push(Bytes::of(part))?;
    }
    Ok(parts)
}

fn is_same(part: &Bytes, other: &[u8]) -> bool
    ensures { result ≡ same part.now other.now }
{
    part.as_slice() == other
}

/// The first text whose file has this name, by the last parts of the names of files.
fn text_named(parts: &[Bytes], name: &[u8]) -> Option<u32>
    requires { length parts.now < 2 ^ 32 }
    ensures { result ≡ text_named parts.now name.now }
{
    let own = last_part(name);
    for (at, part) in parts.iter().enumerate() {
        if is_same(part, own) {
            return Some(at as u32);
        }
    }
    None
}

/// The bytes of a name; none where there is no name of this number.
fn bytes_of(names: &Names, name: u32) -> &[u8]
    ensures { result.now ≡ slice_index_or names.now name [] }
{
    if name < names.len() {
        names.bytes(name)
    } else {
        &[]
    }
}

/// Adds the text that a `with` names.
#[tactic(auto, unfolding(rml_outlines::specs::Files::with_target))]
fn add_target(
    names: &Names,
    parts: &[Bytes],
    tree: &Uses,
    targets: &mut Table<u32, u32>,
) -> Result<(), Memory>
    requires { length parts.now < 2 ^ 32 }
    ensures { OnOk result (targets.new ≡ with_target names.now parts.now targets.old tree.now) }
{
    if let Some(text) = text_named(parts, bytes_of(names, tree.file)) {
        targets.declare(tree.file, text)?;
    }
    Ok(())
}

/// Adds the texts that some `with`s name.
fn add_targets(
    names: &Names,
    parts: &[Bytes],
    trees: &[Uses],
    targets: &mut Table<u32, u32>,
) -> Result<(), Memory>
    requires { length parts.now < 2 ^ 32 }
    ensures { OnOk result (targets.new ≡ with_targets names.now parts.now targets.old trees.now) }
{
    for item in trees {
        add_target(names, parts, item, targets)?;
    }
    Ok(())
}

/// The texts that the `with`s of some texts name, by the last parts of the names of files.
fn targets_by(
    alloc: Global,
    names: &Names,
    parts: &[Bytes],
    texts: &[Text],
) -> Result<Table<u32, u32>, Memory>
    requires { length parts.now < 2 ^ 32 }
    ensures { IfOk result (λ t. t ≡ with_targets_of names.now parts.now [] texts.now) }
{
    let mut targets = Table::new(alloc);
    for text in texts {
        add_targets(names, parts, text.uses.as_slice(), &mut targets)?;
        add_targets(names, parts, text.body_uses.as_slice(), &mut targets)?;
    }
    Ok(targets)
}

/// The texts that the `with`s of some texts name.
pub fn targets(
    alloc: Global,
    names: &Names,
    files: &[Bytes],
    texts: &[Text],
) -> Result<Table<u32, u32>, Memory>
    requires { length files.now < 2 ^ 32 }
    ensures { IfOk result (λ t. t ≡ with_targets_of names.now (map last_part files.now) [] texts.now) }
{
    let parts = last_parts(alloc, files)?;
    let targets = targets_by(alloc, names, parts.as_slice(), texts)?;
    Ok(targets)
}
