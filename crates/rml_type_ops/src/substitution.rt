//! Types in place of the variables of a type, by labels: in place of a variable stand the labels of its type.

ghost use Rattle.std.specs.Prelude.{◌≡◌, ◌++◌, IfOk, OnOk, get_or};
ghost use Rattle.rml_type_ops.specs.Replaced.{labels_for, replaced};
ghost use Rattle.rml_types.specs.Labels.{labels};
ghost use Rattle.rml_types.specs.Schemes.{inst, unit};

use rml_base::Memory;
use rml_types::{Label, SchemeTree, TypeCon, labels_of, tree_of};
use std::alloc::Global;

/// The type with each variable replaced by the type of its number, and by the type without parts where `types` has none of
/// that number. With the body of an abbreviation and the arguments of its use, it writes the abbreviation out.
pub fn substitute(
    alloc: Global,
    types: &[SchemeTree],
    body: &SchemeTree,
) -> Result<SchemeTree, Memory>
    ensures { IfOk result (λ t. t ≡ inst types.now body.now) }
{
    let labels = labels_of(alloc, body)?;
    let replaced = replace_all(alloc, types, &labels)?;
    tree_of(alloc, &replaced)
}

/// What stands in place of some labels.
fn replace_all(alloc: Global, types: &[SchemeTree], labels: &[Label]) -> Result<Vec<Label>, Memory>
    ensures { IfOk result (λ v. v.items ≡ replaced types.now labels.now) }
{
    let mut all = Vec::new(alloc);
    for label in labels {
        replace(alloc, types, *label, &mut all)?;
    }
    Ok(all)
}

/// Appends what stands in place of a label: for a variable the labels of its type, else the label itself.
fn replace(
    alloc: Global,
    types: &[SchemeTree],
    label: Label,
    all: &mut Vec<Label>,
) -> Result<(), Memory>
    ensures { OnOk result (all.new.items ≡ all.old.items ++ labels_for types.now label.0 label.1) }
{
    let (con, _) = label;
    match con {
        TypeCon::Fixed(k) => put_type(alloc, types, k, all),
        _ => {
            all.push(label)?;
            Ok(())
        }
    }
}

/// Appends the labels of the type of a number.
fn put_type(
    alloc: Global,
    types: &[SchemeTree],
    number: u32,
    all: &mut Vec<Label>,
) -> Result<(), Memory>
    ensures { OnOk result (all.new.items ≡ all.old.items ++ labels (get_or types.now number unit)) }
{
    match types.get(number as usize) {
        Some(t) => {
            let labels = labels_of(alloc, t)?;
            all.extend_from_slice(&labels)?;
        }
        None => all.push((TypeCon::Tuple, 0))?,
    }
    Ok(())
}
