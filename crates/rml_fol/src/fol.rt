//! Programs in clause form.

ghost use Rattle.std.specs.Prelude.{◌≡◌, IsTrue, slice_get};
ghost use Rattle.std.specs.List.{list_all};
ghost use Rattle.rml_base.specs.Light.{NoWrong};
ghost use Rattle.rml_fol.specs.Fits.{signatures_of, val_fits, relation_fits, main_fits as takes_the_arguments, cons_begin, con_is_small, names_are_bytes as named_by_bytes};
ghost use Rattle.rml_fol.specs.Ends.{relation_ends};
ghost use Rattle.rml_fol.specs.Gives.{relation_gives};
ghost use Rattle.rml_fol.specs.Scoped.{relation_is_scoped};
ghost use Rattle.rml_fol.specs.Paid.{relation_is_paid};
ghost use Rattle.rml_fol.specs.Size.{relation_is_small, is_light};
ghost use Rattle.rml_fol.specs.Runs.{runs_of};

use crate::parts::Parts;

/// A program in clause form: tables whose parts fit, and of which no run is Wrong.
#[derive(Drop)]
pub struct Fol {
    pub parts: Parts,
    // what the text has as a name is a byte string
    pub ghost names_are_bytes: { IsTrue (named_by_bytes parts) },
    // the constructors begin with those of lists, truth values and options, and none has `CON_ARGUMENTS` arguments
    pub ghost cons_first: { IsTrue (cons_begin parts.cons) },
    pub ghost cons_small: { IsTrue (list_all con_is_small parts.cons) },
    // numbers lead into their tables, variables and bodies are those of their relation, and constructors, relations and built-ins
    // have as many arguments and results as they are declared with
    pub ghost vals_fit: { IsTrue (list_all (val_fits (signatures_of parts)) parts.vals) },
    pub ghost relations_fit: { IsTrue (list_all (relation_fits (signatures_of parts)) parts.rels) },
    pub ghost main_fits: { IsTrue (takes_the_arguments parts.gives (slice_get (signatures_of parts).rels parts.main)) },
    // what is used was bound or named before, and what is bound or named is new on its way
    pub ghost relations_scoped: { IsTrue (list_all relation_is_scoped parts.rels) },
    // a block ends in a choice, `goto`, `give` or `fail`, and has none of these before its end; the block of a `not` and the first block of
    // a `cond` end in a `give`, and name no body
    pub ghost blocks_end: { IsTrue (list_all relation_ends parts.rels) },
    // a `give` hands over as many values as its relation gives, and in a `not` none
    pub ghost gives_fit: { IsTrue (list_all relation_gives parts.rels) },
    // what is to spare on the way pays for each frame to go back to
    pub ghost relations_paid: { IsTrue (list_all relation_is_paid parts.rels) },
    // a relation has no more statements with their patterns, variables and bodies than `PER_TOKEN` for each token of its rules, and all of them together
    // weigh less than `WEIGHT`
    pub ghost relations_small: { IsTrue (list_all relation_is_small parts.rels) },
    pub ghost light: { IsTrue (is_light parts) },
    // no run comes to what has no meaning
    pub ghost never_wrong: { NoWrong (runs_of parts) },
}

impl Fol {
    /// The tokens of the longest rule.
    pub fn longest(&self) -> u32
        ensures { result ≡ self.now.parts.longest }
    {
        self.parts.longest
    }
}
