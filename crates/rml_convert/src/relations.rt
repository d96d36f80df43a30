//! Relations and tables.

ghost use Rattle.std.specs.Prelude.{◌≡◌, IfOk, map};
ghost use Rattle.rml_conversion.specs.Tables.{relation_made, tables_made};

use crate::building::closed;
use crate::turns::block;
use rml_base::Memory;
use rml_copies::{copy_constructors, copy_name, copy_vals};
use rml_cps::{Body, Continuation, Parts, Relation};
use rml_fol::{Parts as Clauses, Relation as Clause};
use rml_tocps::Numbers;
use sqlite_items::Items;
use std::alloc::Global;

/// A relation. Its own variables stand first, and its bodies have the first names. The only error is want of memory; a relation with more
/// variables or names than there are numbers is answered so too.
pub fn relation_of(alloc: Global, clause: &Clause) -> Result<Relation, Memory>
    ensures { IfOk result (λ r. r ≡ relation_made clause.now) }
{
    let name = copy_name(alloc, &clause.name)?;
    let mut numbers = Numbers {
        variable: clause.vars,
        name: clause.bodies,
    };
    let mut made = block(
        alloc,
        clause.body.stmts.as_slice(),
        Continuation::Own,
        &mut numbers,
    )?;
    let stmts = closed(alloc, &mut made);
    Ok(Relation {
        name,
        params: clause.params,
        results: clause.results,
        vars: numbers.variable,
        names: numbers.name,
        tokens: clause.tokens,
        body: Body { stmts },
    })
}

fn relations_of(alloc: Global, clauses: &[Clause]) -> Result<Items<Relation>, Memory>
    ensures { IfOk result (λ all. all ≡ map relation_made clauses.now) }
{
    let mut all = Items::new(alloc);
    for clause in clauses {
        let relation = relation_of(alloc, clause)?;
        all.push(relation)?;
    }
    Ok(all)
}

/// The tables in continuation form, relation by relation. The only error is want of memory; a term that nests deeper than `MOST_NESTED` of
/// clause form is answered so too.
pub fn tables_of(alloc: Global, clauses: &Clauses) -> Result<Parts, Memory>
    ensures { IfOk result (λ p. p ≡ tables_made clauses.now) }
{
    let cons = copy_constructors(alloc, clauses.cons.as_slice())?;
    let vals = copy_vals(alloc, clauses.vals.as_slice())?;
    let rels = relations_of(alloc, clauses.rels.as_slice())?;
    Ok(Parts {
        cons,
        vals,
        rels,
        main: clauses.main,
        gives: clauses.gives,
        longest: clauses.longest,
        weight: clauses.weight,
    })
}
