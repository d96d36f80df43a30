//! Which calls of a fake fail.

ghost use Rattle.std.specs.Prelude.{◌≡◌, OnOk, OnErr};
ghost use Rattle.std.specs.FinSet as fin_set;

use std::alloc::{AllocError, Global};
use std::marker::Model;

/// The numbers of the calls that fail, seen as a set.
#[derive(Drop)]
pub(crate) struct FailingCalls {
    numbers: Vec<u64>,
}

impl Model for FailingCalls {
    ghost use Rattle.std.specs.FinSet as fin_set;
    ghost use Rattle.std.specs.Ordering.{nat_cmp};
    ghost use Rattle.std.specs.Coded.{coded_ℕ};

    ghost Value = { fin_set.FinSet nat_cmp };

    ghost coded = { fin_set.code coded_ℕ };

    ghost view = { λ f. fin_set.from_list f.numbers.items };
}

impl FailingCalls {
    pub(crate) fn new(alloc: Global) -> FailingCalls
        ensures { result ≡ fin_set.empty }
    {
        FailingCalls {
            numbers: Vec::new(alloc),
        }
    }

    #[tactic(auto, using(crate::proofs::Stores::listed_more))]
    pub(crate) fn insert(&mut self, call: u64) -> Result<(), AllocError>
        ensures ok { OnOk result (self.new ≡ fin_set.insert self.old call) }
        ensures err { OnErr result (self.new ≡ self.old) }
    {
        self.numbers.push(call)?;
        Ok(())
    }

    #[tactic(auto, using(crate::proofs::Stores::listing))]
    pub(crate) fn contains(&self, call: u64) -> bool
        ensures { result ≡ fin_set.contains self.now call }
    {
        self.numbers.contains(&call)
    }
}
