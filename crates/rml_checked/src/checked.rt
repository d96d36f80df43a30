//! Making a program of tables after a test whether they fit.

ghost use Rattle.std.specs.Prelude.{◌≡◌, ◌↔◌, IfOk, IfSome, IsSome, IsTrue};
ghost use Rattle.std.specs.List.{list_all};
ghost use Rattle.rml_resolved.specs.Size.{relation_is_small};
ghost use Rattle.rml_resolved.specs.Facts.{IsMadeOf};
ghost use Rattle.rml_resolved.specs.Whole.{names_hold, no_circles, variables_hold, sizes_hold, rules_and_main_hold, is_program};

use crate::binding::{are_bound_once, are_used_after};
use crate::circles::{do_types_end, do_vals_end};
use crate::names::{are_byte_strings, do_names_differ};
use crate::size::{are_light, are_rules_small, is_one_long};
use rml_base::Memory;
use rml_fitting::{can_be_main, do_begin, do_fit};
use rml_resolved::{Parts, Program, RelDef};
use std::alloc::Global;

fn are_all_small(rels: &[RelDef]) -> bool
    ensures { result ≡ list_all relation_is_small rels.now }
{
    rels.iter().all(|rel| are_rules_small(rel))
}

fn do_names_hold(alloc: Global, parts: &Parts) -> Result<bool, Memory>
    ensures { IfOk result (λ b. b ≡ names_hold parts.now) }
{
    if are_byte_strings(parts.names.as_slice()) {
        do_names_differ(alloc, parts.names.as_slice())
    } else {
        Ok(false)
    }
}

fn has_no_circles(alloc: Global, parts: &Parts) -> Result<bool, Memory>
    ensures { IfOk result (λ b. b ≡ no_circles parts.now) }
{
    if do_types_end(alloc, parts.types.as_slice())? {
        do_vals_end(alloc, parts.vals.as_slice())
    } else {
        Ok(false)
    }
}

fn do_variables_hold(alloc: Global, parts: &Parts) -> Result<bool, Memory>
    ensures { IfOk result (λ b. b ≡ variables_hold parts.now) }
{
    if are_bound_once(alloc, parts.rels.as_slice())? {
        are_used_after(alloc, parts.rels.as_slice())
    } else {
        Ok(false)
    }
}

fn do_sizes_hold(parts: &Parts) -> bool
    ensures { result ≡ sizes_hold parts.now }
{
    let rels = parts.rels.as_slice();
    are_all_small(rels) && is_one_long(rels) && are_light(parts.vals.as_slice(), rels)
}

fn do_rules_and_main_hold(alloc: Global, parts: &Parts) -> Result<bool, Memory>
    ensures { IfOk result (λ b. b ≡ rules_and_main_hold parts.now) }
{
    if do_variables_hold(alloc, parts)? {
        Ok(do_sizes_hold(parts) && can_be_main(parts.gives, parts.rels.as_slice(), parts.main))
    } else {
        Ok(false)
    }
}

fn is_whole(alloc: Global, parts: &Parts) -> Result<bool, Memory>
    ensures { IfOk result (λ b. b ≡ is_program parts.now) }
{
    if do_names_hold(alloc, parts)?
        && do_begin(parts)
        && do_fit(parts)
        && has_no_circles(alloc, parts)?
    {
        do_rules_and_main_hold(alloc, parts)
    } else {
        Ok(false)
    }
}

/// The program of these tables, where they fit. It is None exactly where one of the facts that a program keeps does not
/// hold.
pub fn program_of(alloc: Global, parts: Parts) -> Result<Option<Program>, Memory>
    ensures there { IfOk result (λ p. IsSome p ↔ IsTrue (is_program parts)) }
    ensures same { IfOk result (λ o. IfSome o (IsMadeOf parts)) }
{
    if is_whole(alloc, &parts)? {
        Ok(Some(Program::of(parts)))
    } else {
        Ok(None)
    }
}
