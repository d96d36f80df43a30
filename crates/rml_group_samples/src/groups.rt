//! What no clause says: that these calls answer at all, on the cases that a reader would try first.

use rml_base::{Memory, Place};
use rml_builtin::types::{CHAR, INT};
use rml_groups::{Found, Unit, types};
use rml_resolved::{Callee, RExp, RGoal, RPat, RRule, RelDef};
use rml_syntax::Lit;
use rml_typed::Part;
use rml_types::SchemeTree;
use sqlite_items::Items;
use std::alloc::Global;
use std::test::Fail;

/// The place of the rule of a line.
fn place(line: u32) -> Place {
    Place {
        text: 0,
        line,
        column: 1,
    }
}

fn relation(rules: Vec<RRule>) -> RelDef {
    RelDef {
        module: 0,
        name: 0,
        place: place(1),
        scheme: None,
        rules: Items::from_vec(rules),
    }
}

/// A rule of two variables.
fn rule(line: u32, inputs: Items<RPat>, goals: Items<RGoal>, results: Items<RExp>) -> RRule {
    RRule {
        place: place(line),
        inputs,
        goals,
        results,
        vars: 2,
        tokens: 1,
    }
}

fn one<T: Drop>(alloc: Global, item: T) -> Result<Items<T>, Memory> {
    let mut items = Items::new(alloc);
    items.push(item)?;
    Ok(items)
}

/// The rule that gives what it is given.
fn identity(alloc: Global, line: u32) -> Result<RRule, Memory> {
    let inputs = one(alloc, RPat::Var(0))?;
    let results = one(alloc, RExp::Var(0))?;
    Ok(rule(line, inputs, Items::new(alloc), results))
}

/// The rule that calls something on what it is given, and gives what that gives.
fn calling(alloc: Global, line: u32, callee: Callee) -> Result<RRule, Memory> {
    let inputs = one(alloc, RPat::Var(0))?;
    let call = RGoal::Call(callee, one(alloc, RExp::Var(0))?, one(alloc, RPat::Var(1))?);
    let results = one(alloc, RExp::Var(1))?;
    Ok(rule(line, inputs, one(alloc, call)?, results))
}

/// The rule that gives a literal for a literal.
fn constant(alloc: Global, line: u32, taken: Lit, given: Lit) -> Result<RRule, Memory> {
    let inputs = one(alloc, RPat::Lit(taken))?;
    let results = one(alloc, RExp::Lit(given))?;
    Ok(rule(line, inputs, Items::new(alloc), results))
}

fn found(alloc: Global, rels: &[RelDef]) -> Result<Found, Memory> {
    let unit = Unit {
        cons: &[],
        vals: &[],
        rels,
        number: 0,
        meanings: &[],
    };
    types(alloc, &unit)
}

/// Where a group is untyped.
fn fault(found: &Found) -> Option<(Place, Part)> {
    match found {
        Found::Typed(_) => None,
        Found::Untyped(place, part) => Some((*place, *part)),
    }
}

/// The general type of a relation, as what it takes and what it gives.
fn sides(found: &Found, rel: usize) -> Option<(&[SchemeTree], &[SchemeTree])> {
    let Found::Typed(all) = found else {
        return None;
    };
    for inferred in all {
        if inferred.rel == rel {
            let scheme = inferred.scheme.as_ref()?;
            return match &scheme.body {
                SchemeTree::Rel(inputs, outputs) => Some((inputs.as_slice(), outputs.as_slice())),
                _ => None,
            };
        }
    }
    None
}

#[test]
fn what_gives_its_input_has_any_type(rt: HostRuntime) -> Result<(), Fail> {
    let alloc = rt.alloc();
    let rels = vec![in alloc; relation(vec![in alloc; identity(alloc, 2)?]?)]?;
    let found = found(alloc, &rels)?;
    let (inputs, outputs) = sides(&found, 0).ok_or("a relation type")?;
    assert!(rt; matches!(inputs, [SchemeTree::Var(0)]));
    assert!(rt; matches!(outputs, [SchemeTree::Var(0)]));
    Ok(())
}

#[test]
fn relations_that_call_one_another_are_typed_together(rt: HostRuntime) -> Result<(), Fail> {
    let alloc = rt.alloc();
    let caller = relation(vec![in alloc; calling(alloc, 2, Callee::Rel(1))?]?);
    let called = relation(vec![in alloc;
        calling(alloc, 3, Callee::Rel(0))?,
        constant(alloc, 4, Lit::Int(1), Lit::Char(97))?,
    ]?);
    let rels = vec![in alloc; caller, called]?;
    let found = found(alloc, &rels)?;
    let (inputs, outputs) = sides(&found, 0).ok_or("a relation type")?;
    assert!(rt; matches!(inputs, [SchemeTree::Named(INT, _)]));
    assert!(rt; matches!(outputs, [SchemeTree::Named(CHAR, _)]));
    Ok(())
}

#[test]
fn results_of_two_types_are_at_fault(rt: HostRuntime) -> Result<(), Fail> {
    let alloc = rt.alloc();
    let rules = vec![in alloc;
        identity(alloc, 2)?,
        constant(alloc, 3, Lit::Int(1), Lit::Int(1))?,
        constant(alloc, 4, Lit::Int(1), Lit::Char(97))?,
    ]?;
    let rels = vec![in alloc; relation(rules)]?;
    assert_eq!(rt;
        fault(&found(alloc, &rels)?),
        Some((place(4), Part::Results))
    );
    Ok(())
}

#[test]
fn what_is_called_on_itself_is_at_fault(rt: HostRuntime) -> Result<(), Fail> {
    let alloc = rt.alloc();
    let rels = vec![in alloc;
        relation(vec![in alloc; identity(alloc, 2)?]?),
        relation(vec![in alloc; calling(alloc, 3, Callee::Var(0))?]?),
    ]?;
    assert_eq!(rt;
        fault(&found(alloc, &rels)?),
        Some((place(3), Part::Premise(1)))
    );
    Ok(())
}

/// Heads of two counts: the rule behind is at fault, in whatever order rules stand in the table.
#[test]
fn the_later_head_of_another_count_is_at_fault(rt: HostRuntime) -> Result<(), Fail> {
    let alloc = rt.alloc();
    let none = rule(
        3,
        Items::new(alloc),
        Items::new(alloc),
        one(alloc, RExp::Lit(Lit::Int(1)))?,
    );
    let rels = vec![in alloc; relation(vec![in alloc; none, identity(alloc, 2)?]?)]?;
    assert_eq!(rt; fault(&found(alloc, &rels)?), Some((place(3), Part::Head)));
    Ok(())
}

#[test]
fn relations_of_another_text_are_let_be(rt: HostRuntime) -> Result<(), Fail> {
    let alloc = rt.alloc();
    let mut other = relation(vec![in alloc; calling(alloc, 2, Callee::Var(0))?]?);
    other.place.text = 1;
    let rels = vec![in alloc; other]?;
    let found = found(alloc, &rels)?;
    assert!(rt; matches!(&found, Found::Typed(all) if all.is_empty()));
    Ok(())
}
