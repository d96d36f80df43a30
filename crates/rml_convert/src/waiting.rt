//! What waits while the pass goes through a relation.

ghost use Rattle.std.specs.Prelude.{◌≡◌, ◌+◌, OnOk, sum_by};
ghost use Rattle.rml_conversion.specs.Hand.{Hand};
ghost use Rattle.rml_convert.specs.Waiting.{waiting_made, all_made, work};

use rml_base::Memory;
use rml_cps::{Block, Case, Continuation, Stmt};
use rml_fol::{Alternative, Case as Choice, Pattern, Stmt as Clause};

/// What is still to be done with what is in hand. A continuation is the failure that is told.
#[derive(Drop)]
pub enum Waiting<'a> {
    /// These statements stand in front of what is in hand.
    Stmts(&'a [Clause], Continuation),
    /// This line stands in front.
    Line(Stmt),
    /// What is in hand goes on where the variable has this constructor.
    Test(u32, u32, Continuation),
    /// These alternatives come before those in hand.
    Others(&'a [Alternative], Continuation),
    /// The third block of a `cond` is in hand; it follows the failure of this name.
    Cond(u32, &'a [Clause], &'a [Clause], Continuation),
    /// The block behind all cases is in hand.
    Otherwise(u32, &'a [Choice], Continuation),
    /// The block of this case is in hand; these come before it, and here are the block behind all cases and what is made of the cases after it.
    Cases(u32, &'a Choice, &'a [Choice], Continuation, Block, Vec<Case>),
    /// The named block is in hand: its number, what is handed on to it, the number of its failure, and what is made after it.
    Named(u32, &'a [u32], u32, Vec<Stmt>),
    /// This pattern is matched against what a variable stands for.
    Whole(&'a Pattern, u32, Continuation),
    /// These are matched against the first arguments of what a variable stands for.
    Parts(&'a [Pattern], u32, Continuation),
    /// These are matched against the first items of what a variable stands for; the rest of a list is in fresh variables in a row, from this one on.
    Items(&'a [Pattern], u32, u32, Continuation),
}

/// Lets this wait, to be done before what waits already.
pub fn wait<'a>(next: Waiting<'a>, waiting: &mut Vec<Waiting<'a>>) -> Result<(), Memory>
    ensures made { OnOk result ((at_hand : Hand) → all_made waiting.new.items at_hand ≡ all_made waiting.old.items (waiting_made next.entry at_hand)) }
    ensures work { OnOk result (sum_by work waiting.new.items ≡ work next.entry + sum_by work waiting.old.items) }
{
    waiting.push(next)?;
    Ok(())
}
