//! The variables that are bound so far. Whether one is among them is told without a walk over them.

ghost use Rattle.std.specs.Prelude.{◌≡◌, ◌++◌, ◌∷◌, ◌≤◌, ◌+◌, [], ℕ, get_or, IfOk, take, length};
ghost use Rattle.rml_resolved.specs.Binding.{contains};

use rml_base::Memory;
use std::alloc::Global;
use std::marker::Model;

/// Variables in the order in which they were bound.
#[derive(Drop)]
pub struct BoundVars {
    order: Vec<u32>,
    /// How often each variable stands in `order`; one that is not there may have no count.
    counts: Vec<usize>,
}

impl Model for BoundVars {
    ghost use Rattle.std.specs.Prelude.{List, ℕ};
    ghost use Rattle.rml_resolved.specs.Bound.{IsCounted};

    ghost Value = { List ℕ };

    ghost view = { λ b. b.order.items };

    ghost invariant = { λ b. IsCounted b.order.items b.counts.items };
}

/// Counts with a place for a number, which is 0 where it is new.
fn with_place(counts: Vec<usize>, x: usize) -> Result<Vec<usize>, Memory>
    ensures same { IfOk result (λ all. (y : ℕ) → get_or all.items y 0 ≡ get_or counts.items y 0) }
    ensures place { IfOk result (λ all. x + 1 ≤ length all.items) }
{
    let mut all = counts;
    while all.len() <= x {
        all.push(0)?;
    }
    Ok(all)
}

impl BoundVars {
    pub fn new(alloc: Global) -> BoundVars
        ensures { result ≡ [] }
    {
        BoundVars {
            order: Vec::new(alloc),
            counts: Vec::new(alloc),
        }
    }

    pub fn len(&self) -> usize
        ensures { result ≡ length self.now }
    {
        self.order.len()
    }

    /// In order, once for each place.
    pub fn as_slice(&self) -> &[u32]
        ensures { result.now ≡ self.now }
    {
        self.order.as_slice()
    }

    /// Whether a variable is bound.
    pub fn has(&self, x: u32) -> bool
        ensures { result ≡ contains x self.now }
    {
        let place = x as usize;
        place < self.counts.len() && 0 < self.counts[place]
    }

    /// With one more variable, which may be bound already.
    pub fn with(self, x: u32) -> Result<BoundVars, Memory>
        ensures { IfOk result (λ b. b ≡ self ++ x ∷ []) }
    {
        let BoundVars { order, counts } = self;
        let mut order = order;
        let mut counts = with_place(counts, x as usize)?;
        order.push(x)?;
        counts[x as usize] += 1;
        Ok(BoundVars { order, counts })
    }

    /// The first so many of them.
    pub fn cut(self, count: usize) -> BoundVars
        ensures { result ≡ take count self }
    {
        let BoundVars { order, counts } = self;
        let mut order = order;
        let mut counts = counts;
        while count < order.len() {
            if let Some(x) = order.pop() {
                counts[x as usize] -= 1;
            }
        }
        BoundVars { order, counts }
    }
}
