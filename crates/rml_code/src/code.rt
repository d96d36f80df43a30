//! Code: listings that a machine can run.

ghost use Rattle.std.specs.Prelude.{◌≡◌, IsTrue};
ghost use Rattle.rml_base.specs.Light.{NoWrong};
ghost use Rattle.rml_code.specs.Fits.{constants_fit as constants_are_there, blocks_fit as blocks_are_there, ends_fit as ends_are_there, is_small, is_light, entry_fits};
ghost use Rattle.rml_code.specs.Runs.{runs_of};

use crate::listing::Listing;

/// Flat code: a listing whose parts fit, and of which no run is Wrong.
#[derive(Drop)]
pub struct Code {
    pub listing: Listing,
    // constants have parts that are there, share earlier ones alone, and are counted in 32 bits
    pub ghost constants_fit: { IsTrue (constants_are_there listing) },
    // registers, constants and blocks are there, and lists of registers are counted in 32 bits; a direct jump goes to a greater block;
    // a block has an end, and nothing behind it; tags of a `switch` are different and of one kind
    pub ghost blocks_fit: { IsTrue (blocks_are_there listing) },
    // the first two blocks are the ends of a run
    pub ghost ends_fit: { IsTrue (ends_are_there listing) },
    pub ghost main_fits: { IsTrue (entry_fits listing listing.main) },
    // there is a register, and no more registers, constants and blocks each than `PER_TOKEN` for each token and node
    pub ghost small: { IsTrue (is_small listing) },
    pub ghost light: { IsTrue (is_light listing) },
    // no run comes to what has no meaning: kinds fit, and frames are there
    pub ghost never_wrong: { NoWrong (runs_of listing) },
}

impl Code {
    /// The tokens of the longest rule.
    pub fn longest(&self) -> u32
        ensures { result ≡ self.now.listing.longest }
    {
        self.listing.longest
    }
}
