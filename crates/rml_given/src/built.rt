//! What is built in.

ghost use Rattle.std.specs.Prelude.{◌≡◌, IfOk, OnOk};
ghost use Rattle.rml_given.specs.Built.{entries_over, types_over, values_over, with_relations, with_type};

use rml_base::Memory;
use rml_outlines::{Entries, TypeEntry, TypeKind, ValueEntry};
use rml_prelude::{Word, Words};
use rml_tables::Table;
use std::alloc::Global;

fn add_type(
    types: &mut Table<u32, TypeEntry>,
    w: &Words,
    name: Word,
    params: usize,
) -> Result<(), Memory>
    ensures { OnOk result (types.new ≡ with_type w.now types.old name params) }
{
    let entry = TypeEntry {
        kind: TypeKind::BuiltIn,
        params,
    };
    types.declare(w.number(name), entry)?;
    Ok(())
}

#[tactic(auto, unfolding(crate::specs::Built::types_over))]
fn types(alloc: Global, w: &Words) -> Result<Table<u32, TypeEntry>, Memory>
    ensures { IfOk result (λ types. types ≡ types_over w.now) }
{
    let mut types = Table::new(alloc);
    add_type(&mut types, w, Word::Int, 0)?;
    add_type(&mut types, w, Word::Char, 0)?;
    add_type(&mut types, w, Word::String, 0)?;
    add_type(&mut types, w, Word::List, 1)?;
    add_type(&mut types, w, Word::Lvar, 1)?;
    add_type(&mut types, w, Word::Vector, 1)?;
    Ok(types)
}

fn add_relations(values: &mut Table<u32, ValueEntry>, names: &[u32]) -> Result<(), Memory>
    ensures { OnOk result (values.new ≡ with_relations values.old names.now) }
{
    for name in names {
        values.declare(*name, ValueEntry::Relation)?;
    }
    Ok(())
}

#[tactic(auto, unfolding(crate::specs::Built::values_over))]
fn values(alloc: Global, w: &Words, rows: &[u32]) -> Result<Table<u32, ValueEntry>, Memory>
    ensures { IfOk result (λ values. values ≡ values_over w.now rows.now) }
{
    let mut values = Table::new(alloc);
    values.declare(w.number(Word::Nil), ValueEntry::Constructor(0))?;
    add_relations(&mut values, rows)?;
    Ok(values)
}

/// What is built in, over these numbers of the words and of the built-ins.
#[tactic(auto, unfolding(crate::specs::Built::entries_over))]
pub fn entries_over(alloc: Global, w: &Words, rows: &[u32]) -> Result<Entries, Memory>
    ensures { IfOk result (λ e. e ≡ entries_over w.now rows.now) }
{
    let types = types(alloc, w)?;
    let values = values(alloc, w, rows)?;
    Ok(Entries { types, values })
}
