//! Code has runs, and so has a listing, whatever it holds.

use crate::code::Code;
use crate::listing::Listing;
use rml_base::Meaning;

impl Meaning for Code {
    ghost use Rattle.rml_code.specs.Runs.{runs_of};
    ghost use Rattle.rml_code.specs.Growing.{runs_are_monotone};

    ghost runs = { λ c. runs_of c.listing };

    ghost monotone = { λ c args cells bytes. runs_are_monotone c.listing args cells };
}

impl Meaning for Listing {
    ghost use Rattle.rml_code.specs.Runs.{runs_of};
    ghost use Rattle.rml_code.specs.Growing.{runs_are_monotone};

    ghost runs = { λ l. runs_of l };

    ghost monotone = { λ l args cells bytes. runs_are_monotone l args cells };
}
