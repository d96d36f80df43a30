//! What the declarations of a half of a text declare.

ghost use Rattle.std.specs.Prelude.{◌≡◌, nat_eq, IfOk, OnOk};
ghost use Rattle.rml_tables.specs.Words.{with_first};
ghost use Rattle.rml_outlines.specs.Declarations.{entries_of, type_entry, with_all_constructors, with_constructors, with_datatypes, with_head, with_types, with_types_of, with_values, with_values_of};

use crate::entry::{TypeEntry, TypeKind, ValueEntry};
use crate::outline::Entries;
use rml_base::Memory;
use rml_syntax::{ConBind, DataBind, Decl, TypeHead};
use rml_tables::Table;
use std::alloc::Global;

/// What the head of a declaration declares.
pub fn type_entry(kind: TypeKind, head: &TypeHead) -> TypeEntry
    ensures { result ≡ type_entry kind head.now }
{
    TypeEntry {
        kind,
        params: head.vars.len(),
    }
}

fn declare_head(
    types: &mut Table<u32, TypeEntry>,
    kind: TypeKind,
    head: &TypeHead,
) -> Result<(), Memory>
    ensures { OnOk result (types.new ≡ with_head types.old kind head.now) }
{
    types.declare(head.name, type_entry(kind, head))?;
    Ok(())
}

fn declare_datatypes(types: &mut Table<u32, TypeEntry>, binds: &[DataBind]) -> Result<(), Memory>
    ensures { OnOk result (types.new ≡ with_datatypes types.old binds.now) }
{
    for bind in binds {
        declare_head(types, TypeKind::Datatype, &bind.head)?;
    }
    Ok(())
}

fn declare_types_of(types: &mut Table<u32, TypeEntry>, decl: &Decl) -> Result<(), Memory>
    ensures { OnOk result (types.new ≡ with_types_of types.old decl.now) }
{
    match decl {
        Decl::Datatype(binds) => declare_datatypes(types, binds.as_slice()),
        Decl::Abbrev(head, _) => declare_head(types, TypeKind::Abbrev, head),
        Decl::Abstype(head) => declare_head(types, TypeKind::Abstype, head),
        Decl::Val(_, _, _, _) => Ok(()),
        Decl::Relation(_, _, _, _) => Ok(()),
    }
}

fn declare_types(types: &mut Table<u32, TypeEntry>, decls: &[Decl]) -> Result<(), Memory>
    ensures { OnOk result (types.new ≡ with_types types.old decls.now) }
{
    for decl in decls {
        declare_types_of(types, decl)?;
    }
    Ok(())
}

fn declare_constructors(values: &mut Table<u32, ValueEntry>, cons: &[ConBind]) -> Result<(), Memory>
    ensures { OnOk result (values.new ≡ with_constructors values.old cons.now) }
{
    for con in cons {
        values.declare(con.name, ValueEntry::Constructor(con.parts.len()))?;
    }
    Ok(())
}

fn declare_all_constructors(
    values: &mut Table<u32, ValueEntry>,
    binds: &[DataBind],
) -> Result<(), Memory>
    ensures { OnOk result (values.new ≡ with_all_constructors values.old binds.now) }
{
    for bind in binds {
        declare_constructors(values, bind.cons.as_slice())?;
    }
    Ok(())
}

fn declare_value(
    values: &mut Table<u32, ValueEntry>,
    name: u32,
    entry: ValueEntry,
) -> Result<(), Memory>
    ensures { OnOk result (values.new ≡ with_first nat_eq values.old name entry) }
{
    values.declare(name, entry)?;
    Ok(())
}

fn declare_values_of(values: &mut Table<u32, ValueEntry>, decl: &Decl) -> Result<(), Memory>
    ensures { OnOk result (values.new ≡ with_values_of values.old decl.now) }
{
    match decl {
        Decl::Datatype(binds) => declare_all_constructors(values, binds.as_slice()),
        Decl::Abbrev(_, _) => Ok(()),
        Decl::Abstype(_) => Ok(()),
        Decl::Val(name, _, _, _) => declare_value(values, *name, ValueEntry::Val),
        Decl::Relation(name, _, _, _) => declare_value(values, *name, ValueEntry::Relation),
    }
}

fn declare_values(values: &mut Table<u32, ValueEntry>, decls: &[Decl]) -> Result<(), Memory>
    ensures { OnOk result (values.new ≡ with_values values.old decls.now) }
{
    for decl in decls {
        declare_values_of(values, decl)?;
    }
    Ok(())
}

/// What some declarations declare.
#[tactic(auto, unfolding(crate::specs::Declarations::entries_of))]
pub fn entries_of(alloc: Global, decls: &[Decl]) -> Result<Entries, Memory>
    ensures { IfOk result (λ e. e ≡ entries_of decls.now) }
{
    let mut types = Table::new(alloc);
    let mut values = Table::new(alloc);
    declare_types(&mut types, decls)?;
    declare_values(&mut values, decls)?;
    Ok(Entries { types, values })
}
