//! A program in clause form has runs, and so have tables in clause form, whatever they hold.

use crate::fol::Fol;
use crate::parts::Parts;
use rml_base::Meaning;

impl Meaning for Fol {
    ghost use Rattle.rml_fol.specs.Runs.{runs_of};
    ghost use Rattle.rml_fol.specs.Growing.{runs_are_monotone};

    ghost runs = { λ f. runs_of f.parts };

    ghost monotone = { λ f args cells bytes. runs_are_monotone f.parts args cells };
}

impl Meaning for Parts {
    ghost use Rattle.rml_fol.specs.Runs.{runs_of};
    ghost use Rattle.rml_fol.specs.Growing.{runs_are_monotone};

    ghost runs = { λ p. runs_of p };

    ghost monotone = { λ p args cells bytes. runs_are_monotone p args cells };
}
