//! A program has runs: those of its search.

use rml_base::Meaning;
use rml_resolved::Program;

/// A program as what is searched, since what has runs is named where its runs are defined.
#[derive(Drop)]
pub struct Searched {
    pub program: Program,
}

impl Meaning for Searched {
    ghost use Rattle.rml_search.specs.Runs.{runs_of};
    ghost use Rattle.rml_search.specs.Growing.{runs_are_monotone};

    ghost runs = { λ s. runs_of s.program };

    ghost monotone = { λ s args cells bytes. runs_are_monotone s.program args cells };
}
