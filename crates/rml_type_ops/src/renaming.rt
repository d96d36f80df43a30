//! Whether two types are one up to the names of their variables. Their labels are gone through side by side, and each
//! variable counts by its place among those that came so far on its side.

ghost use Rattle.std.specs.Prelude.{◌≡◌, ◌↔◌, [], IfOk, IsTrue};
ghost use Rattle.rml_type_ops.specs.Numbered.{numbered, numbered_label, vars_after};
ghost use Rattle.rml_type_ops.specs.Renaming.{IsSameUpToNames};

use indexmap::IndexSet;
use rml_base::Memory;
use rml_types::{Label, SchemeTree, TypeCon, labels_of};
use std::alloc::Global;

/// Whether two types are one up to the names of their variables: whether a renaming that is one to one on the variables of
/// `a` makes `a` into `b`.
pub fn same_up_to_names(alloc: Global, a: &SchemeTree, b: &SchemeTree) -> Result<bool, Memory>
    ensures { IfOk result (λ same. IsTrue same ↔ IsSameUpToNames a.now b.now) }
{
    let these = labels_of(alloc, a)?;
    let those = labels_of(alloc, b)?;
    agree(alloc, &these, &those)
}

/// Whether some labels are others, each variable counted by its place.
fn agree(alloc: Global, these: &[Label], those: &[Label]) -> Result<bool, Memory>
    ensures { IfOk result (λ same. IsTrue same ↔ (numbered [] these.now ≡ numbered [] those.now)) }
{
    if these.len() != those.len() {
        return Ok(false);
    }
    let mut left = IndexSet::new(alloc);
    let mut right = IndexSet::new(alloc);
    for (i, label) in these.iter().enumerate() {
        if !agree_at(*label, those[i], &mut left, &mut right)? {
            return Ok(false);
        }
    }
    Ok(true)
}

/// Whether two labels are one, each variable counted by its place among those that came on its side, to which it is added.
fn agree_at(
    label: Label,
    other: Label,
    left: &mut IndexSet<u32>,
    right: &mut IndexSet<u32>,
) -> Result<bool, Memory>
    ensures same { IfOk result (λ same. IsTrue same ↔ (numbered_label left.old.keys label ≡ numbered_label right.old.keys other)) }
    ensures left { IfOk result (λ same. IsTrue same → left.new.keys ≡ vars_after left.old.keys label.0) }
    ensures right { IfOk result (λ same. IsTrue same → right.new.keys ≡ vars_after right.old.keys other.0) }
{
    let (con, count) = label;
    let (other_con, other_count) = other;
    if count != other_count {
        return Ok(false);
    }
    match con {
        TypeCon::Fixed(x) => match other_con {
            TypeCon::Fixed(y) => {
                let (place, _) = left.insert_full(x)?;
                let (other_place, _) = right.insert_full(y)?;
                Ok(place == other_place)
            }
            _ => Ok(false),
        },
        _ => Ok(con == other_con),
    }
}
