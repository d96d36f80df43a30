//! The moves of a plain program in direct style. A count that no 64 bits hold is answered as want of memory.

ghost use Rattle.std.specs.Prelude.{◌≡◌, ◌+◌, IfOk};
ghost use Rattle.rml_simulation.specs.Partial.{untraced, joined, after};

use crate::partial::{Partial, Trace};
use rml_base::Memory;
use sqlite_items::Items;
use std::alloc::Global;

/// Nothing printed, made or met.
pub fn no_trace(alloc: Global) -> Trace
    ensures { result ≡ untraced }
{
    Trace {
        text: Items::new(alloc),
        made: 0,
        weighed: 0,
    }
}

fn sum(a: u64, b: u64) -> Result<u64, Memory>
    ensures { IfOk result (λ n. n ≡ a + b) }
{
    a.checked_add(b).ok_or(Memory)
}

/// One trace and then another.
pub fn join(first: Trace, then: Trace) -> Result<Trace, Memory>
    ensures { IfOk result (λ t. t ≡ joined first then) }
{
    let mut text = first.text;
    text.append(then.text)?;
    Ok(Trace {
        text,
        made: sum(first.made, then.made)?,
        weighed: sum(first.weighed, then.weighed)?,
    })
}

/// What a part gives, with a trace before its own.
pub fn put_before<A: Drop>(trace: Trace, part: Partial<A>) -> Result<Partial<A>, Memory>
    ensures { IfOk result (λ p. p ≡ after trace part) }
{
    match part {
        Partial::Yes(a, more, n) => Ok(Partial::Yes(a, join(trace, more)?, n)),
        Partial::No(more, n) => Ok(Partial::No(join(trace, more)?, n)),
        Partial::CutOff(more) => Ok(Partial::CutOff(join(trace, more)?)),
        Partial::GoneWrong(more) => Ok(Partial::GoneWrong(join(trace, more)?)),
    }
}
