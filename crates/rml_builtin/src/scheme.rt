//! The types of built-ins.

ghost use Rattle.std.specs.Prelude.{◌≡◌, ◌∷◌, [], ◌<◌, IfOk, IfSome, length, slice_get};
ghost use Rattle.rml_types.specs.declared.tree.SchemeTree.TheVariants as tree;
ghost use Rattle.rml_builtin.specs.Table.{inputs_of, outputs_of, vars_of, type_of};

use crate::row::{ROWS, Row, row_of};
use crate::types::{BOOL, CHAR, INT, LIST, LVAR, OPTION, STRING, VECTOR};
use rml_base::Memory;
use rml_types::{Scheme, SchemeTree};
use sqlite_items::Items;
use std::alloc::Global;

fn constant(alloc: Global, number: u32) -> SchemeTree
    ensures { result ≡ tree.Named number [] }
{
    SchemeTree::Named(number, Items::new(alloc))
}

fn of(alloc: Global, number: u32, argument: SchemeTree) -> Result<SchemeTree, Memory>
    ensures { IfOk result (λ t. t ≡ tree.Named number (argument ∷ [])) }
{
    Ok(SchemeTree::Named(number, alone(alloc, argument)?))
}

fn alone(alloc: Global, tree: SchemeTree) -> Result<Items<SchemeTree>, Memory>
    ensures { IfOk result (λ all. all ≡ tree ∷ []) }
{
    let mut all = Items::new(alloc);
    all.push(tree)?;
    Ok(all)
}

fn pair(alloc: Global, a: SchemeTree, b: SchemeTree) -> Result<Items<SchemeTree>, Memory>
    ensures { IfOk result (λ all. all ≡ a ∷ b ∷ []) }
{
    let mut all = Items::new(alloc);
    all.push(a)?;
    all.push(b)?;
    Ok(all)
}

fn inputs(alloc: Global, row: Row) -> Result<Items<SchemeTree>, Memory>
    ensures { IfOk result (λ all. all ≡ inputs_of row) }
{
    match row {
        Row::IntNeg | Row::IntAbs | Row::IntString | Row::IntChar => alone(
            alloc,
            constant(alloc, INT),
        ),
        Row::StringInt | Row::StringLength | Row::StringList | Row::Print => {
            alone(alloc, constant(alloc, STRING))
        }
        Row::CharInt => alone(alloc, constant(alloc, CHAR)),
        Row::StringNth => pair(alloc, constant(alloc, STRING), constant(alloc, INT)),
        Row::StringAppend => pair(alloc, constant(alloc, STRING), constant(alloc, STRING)),
        Row::ListString => alone(alloc, of(alloc, LIST, constant(alloc, CHAR))?),
        Row::LvarNew => Ok(Items::new(alloc)),
        Row::LvarGet => alone(alloc, of(alloc, LVAR, SchemeTree::Var(0))?),
        Row::LvarSet => pair(
            alloc,
            of(alloc, LVAR, SchemeTree::Var(0))?,
            SchemeTree::Var(0),
        ),
        Row::ListVector => alone(alloc, of(alloc, LIST, SchemeTree::Var(0))?),
        Row::VectorList | Row::VectorLength => alone(alloc, of(alloc, VECTOR, SchemeTree::Var(0))?),
        Row::VectorNth => pair(
            alloc,
            of(alloc, VECTOR, SchemeTree::Var(0))?,
            constant(alloc, INT),
        ),
        _ => pair(alloc, constant(alloc, INT), constant(alloc, INT)),
    }
}

fn outputs(alloc: Global, row: Row) -> Result<Items<SchemeTree>, Memory>
    ensures { IfOk result (λ all. all ≡ outputs_of row) }
{
    match row {
        Row::IntLt | Row::IntLe | Row::IntGt | Row::IntGe | Row::IntEq | Row::IntNe => {
            alone(alloc, constant(alloc, BOOL))
        }
        Row::IntString | Row::StringAppend | Row::ListString => alone(
            alloc,
            constant(alloc, STRING),
        ),
        Row::IntChar | Row::StringNth => alone(alloc, constant(alloc, CHAR)),
        Row::StringList => alone(alloc, of(alloc, LIST, constant(alloc, CHAR))?),
        Row::LvarNew => alone(alloc, of(alloc, LVAR, SchemeTree::Var(0))?),
        Row::LvarGet => alone(alloc, of(alloc, OPTION, SchemeTree::Var(0))?),
        Row::LvarSet | Row::Print => Ok(Items::new(alloc)),
        Row::ListVector => alone(alloc, of(alloc, VECTOR, SchemeTree::Var(0))?),
        Row::VectorList => alone(alloc, of(alloc, LIST, SchemeTree::Var(0))?),
        Row::VectorNth => alone(alloc, SchemeTree::Var(0)),
        _ => alone(alloc, constant(alloc, INT)),
    }
}

fn vars(row: Row) -> u32
    ensures { result ≡ vars_of row }
{
    match row {
        Row::LvarNew | Row::LvarGet | Row::LvarSet => 1,
        Row::ListVector | Row::VectorList | Row::VectorLength | Row::VectorNth => 1,
        _ => 0,
    }
}

/// The type of a row.
fn type_of_row(alloc: Global, row: Row) -> Result<Scheme, Memory>
    ensures { IfOk result (λ s. (s.vars ≡ vars_of row) × (s.body ≡ type_of row)) }
{
    let inputs = inputs(alloc, row)?;
    let outputs = outputs(alloc, row)?;
    let scheme = Scheme::checked(alloc, vars(row), SchemeTree::Rel(inputs, outputs))?;
    Ok(scheme.unwrap())
}

/// The type of the built-in of a number, which is in the table: a relation type, with as many variables as it names.
pub fn scheme_of(alloc: Global, number: u16) -> Result<Scheme, Memory>
    requires { number < length ROWS }
    ensures { IfOk result (λ s. IfSome (slice_get ROWS number) (λ row. (s.vars ≡ vars_of row) × (s.body ≡ type_of row))) }
{
    type_of_row(alloc, row_of(number))
}
