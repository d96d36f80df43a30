//! A program in continuation form has runs, and so have tables in continuation form, whatever they hold.

use crate::cps::Cps;
use crate::parts::Parts;
use rml_base::Meaning;

impl Meaning for Cps {
    ghost use Rattle.rml_cps.specs.Runs.{runs_of};
    ghost use Rattle.rml_cps.specs.Growing.{runs_are_monotone};

    ghost runs = { λ c. runs_of c.parts };

    ghost monotone = { λ c args cells bytes. runs_are_monotone c.parts args cells };
}

impl Meaning for Parts {
    ghost use Rattle.rml_cps.specs.Runs.{runs_of};
    ghost use Rattle.rml_cps.specs.Growing.{runs_are_monotone};

    ghost runs = { λ p. runs_of p };

    ghost monotone = { λ p args cells bytes. runs_are_monotone p args cells };
}
