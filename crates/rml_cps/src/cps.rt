//! Programs in continuation form.

ghost use Rattle.std.specs.Prelude.{◌≡◌, IsTrue, slice_get};
ghost use Rattle.std.specs.List.{list_all};
ghost use Rattle.rml_base.specs.Light.{NoWrong};
ghost use Rattle.rml_fol.specs.Fits.{signatures_of, val_fits, main_fits as takes_the_arguments, cons_begin, con_is_small, names_are_bytes as named_by_bytes};
ghost use Rattle.rml_cps.specs.Tables.{tables_of};
ghost use Rattle.rml_cps.specs.Fits.{relation_fits};
ghost use Rattle.rml_cps.specs.Scoped.{relation_is_scoped};
ghost use Rattle.rml_cps.specs.Ends.{relation_ends};
ghost use Rattle.rml_cps.specs.Size.{relation_is_small, is_light};
ghost use Rattle.rml_cps.specs.Runs.{runs_of};

use crate::parts::Parts;

/// A program in continuation form: tables whose parts fit, and of which no run is Wrong.
#[derive(Drop)]
pub struct Cps {
    pub parts: Parts,
    // what the text has as a name is a byte string
    pub ghost names_are_bytes: { IsTrue (named_by_bytes (tables_of parts)) },
    // the constructors begin with those of lists, truth values and options, and none has `CON_ARGUMENTS` arguments
    pub ghost cons_first: { IsTrue (cons_begin parts.cons) },
    pub ghost cons_small: { IsTrue (list_all con_is_small parts.cons) },
    // numbers lead into their tables, and what is bound and named has a number of its relation
    pub ghost vals_fit: { IsTrue (list_all (val_fits (signatures_of (tables_of parts))) parts.vals) },
    pub ghost relations_fit: { IsTrue (list_all (relation_fits (signatures_of (tables_of parts))) parts.rels) },
    pub ghost main_fits: { IsTrue (takes_the_arguments parts.gives (slice_get (signatures_of (tables_of parts)).rels parts.main)) },
    // what is used was bound or named before, and is called, answered and handed on with as many values as it takes
    pub ghost relations_scoped: { IsTrue (list_all (relation_is_scoped (signatures_of (tables_of parts))) parts.rels) },
    // a block ends in a call, an answer, a failure, a `goto` or a `switch`, and has none of these before its end
    pub ghost blocks_end: { IsTrue (list_all relation_ends parts.rels) },
    // a relation has no more statements, variables and names than `PER_TOKEN` for each token of its rules, and all of them together
    // weigh less than `WEIGHT`
    pub ghost relations_small: { IsTrue (list_all relation_is_small parts.rels) },
    pub ghost light: { IsTrue (is_light parts) },
    // no run comes to what has no meaning
    pub ghost never_wrong: { NoWrong (runs_of parts) },
}

impl Cps {
    /// The tokens of the longest rule.
    pub fn longest(&self) -> u32
        ensures { result ≡ self.now.parts.longest }
    {
        self.parts.longest
    }
}
