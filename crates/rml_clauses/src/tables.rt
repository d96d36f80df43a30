//! The tables of a program in clause form.

ghost use Rattle.std.specs.Prelude.{◌≡◌, All, IfOk, IsTrue, map, slice_get};
ghost use Rattle.rml_clauses.specs.Agrees.{counts_agree};
ghost use Rattle.rml_clauses.specs.Ready.{IsReady, HasValue};
ghost use Rattle.rml_clauses.specs.Tables.{name_of, module_in, constructor_of, val_of, IsRelationOf, AreRelationsOf, AreTablesOf};

use crate::shapes::{given_by, taken_by};
use crate::weights::{tokens_of, weight};
use rml_base::{Bytes, Memory};
use rml_clause::{Clauses, bytes_of, clauses_of_relation, expression};
use rml_fol::{Body, Constructor, Name, Parts, Relation, Val};
use rml_resolved::{ConDef, Program, RelDef, TypeDef, ValDef, longest};
use sqlite_items::{Items, at};
use std::alloc::Global;

/// A name and the name of its module, by their numbers.
fn named(alloc: Global, names: &[Bytes], of: u32, number: u32) -> Result<Name, Memory>
    ensures { IfOk result (λ n. n ≡ name_of names.now of number) }
{
    let of = bytes_of(alloc, names, of)?;
    let name = bytes_of(alloc, names, number)?;
    Ok(Name { of, name })
}

/// The module of a datatype.
fn module_of(types: &[TypeDef], number: u32) -> u32
    ensures { result ≡ module_in (slice_get types.now number) }
{
    match at(types, number as usize) {
        None => 0,
        Some(def) => def.module,
    }
}

fn constructor(
    alloc: Global,
    names: &[Bytes],
    types: &[TypeDef],
    def: &ConDef,
) -> Result<Constructor, Memory>
    ensures { IfOk result (λ c. c ≡ constructor_of names.now types.now def.now) }
{
    let module = module_of(types, def.of);
    let name = named(alloc, names, module, def.name)?;
    Ok(Constructor {
        name,
        arity: def.arity,
    })
}

fn constructors(
    alloc: Global,
    names: &[Bytes],
    types: &[TypeDef],
    defs: &[ConDef],
) -> Result<Items<Constructor>, Memory>
    ensures { IfOk result (λ cs. cs ≡ map (constructor_of names.now types.now) defs.now) }
{
    let mut all = Items::new(alloc);
    for def in defs {
        let made = constructor(alloc, names, types, def)?;
        all.push(made)?;
    }
    Ok(all)
}

fn val(alloc: Global, names: &[Bytes], def: &ValDef) -> Result<Val, Memory>
    requires { HasValue def.now }
    ensures { IfOk result (λ v. v ≡ val_of names.now def.now) }
{
    let name = named(alloc, names, def.module, def.name)?;
    let value = expression(alloc, names, 0, &def.value)?;
    Ok(Val { name, value })
}

fn vals(alloc: Global, names: &[Bytes], defs: &[ValDef]) -> Result<Items<Val>, Memory>
    requires { All HasValue defs.now }
    ensures { IfOk result (λ vs. vs ≡ map (val_of names.now) defs.now) }
{
    let mut all = Items::new(alloc);
    for def in defs {
        let made = val(alloc, names, def)?;
        all.push(made)?;
    }
    Ok(all)
}

fn relation(alloc: Global, names: &[Bytes], def: &RelDef) -> Result<Relation, Memory>
    requires { IsReady def.now }
    ensures { IfOk result (λ r. IsRelationOf names.now def.now r) }
{
    let params = taken_by(def) as u32;
    let results = given_by(def) as u32;
    let tokens = tokens_of(def.rules.as_slice());
    let name = named(alloc, names, def.module, def.name)?;
    let Clauses { body, vars } = clauses_of_relation(alloc, names, params, def.rules.as_slice())?;
    Ok(Relation {
        name,
        params,
        results,
        vars,
        bodies: 0,
        tokens,
        body: Body { stmts: body },
    })
}

fn relations(alloc: Global, names: &[Bytes], defs: &[RelDef]) -> Result<Items<Relation>, Memory>
    requires { All IsReady defs.now }
    ensures { IfOk result (λ rs. AreRelationsOf names.now defs.now rs) }
{
    let mut all = Items::new(alloc);
    for def in defs {
        let made = relation(alloc, names, def)?;
        all.push(made)?;
    }
    Ok(all)
}

/// The tables of a program in clause form, entry by entry.
pub fn tables_of(alloc: Global, program: &Program) -> Result<Parts, Memory>
    requires { IsTrue (counts_agree program.now) }
    ensures { IfOk result (λ q. AreTablesOf program.now q) }
{
    let names = program.names.as_slice();
    let types = program.types.as_slice();
    let con_defs = program.cons.as_slice();
    let val_defs = program.vals.as_slice();
    let rel_defs = program.rels.as_slice();
    let cons = constructors(alloc, names, types, con_defs)?;
    let vals = vals(alloc, names, val_defs)?;
    let rels = relations(alloc, names, rel_defs)?;
    let total = weight(vals.as_slice(), rels.as_slice());
    let most = longest(rel_defs);
    Ok(Parts {
        cons,
        vals,
        rels,
        main: program.main,
        gives: program.gives,
        longest: most,
        weight: total as u32,
    })
}
