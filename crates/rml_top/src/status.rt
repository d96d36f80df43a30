//! How a call of the program ends.

ghost use Rattle.std.specs.Prelude.{◌≡◌};

use rml_base::Place;
use rml_stages::{Kind, Which};

/// The end of a call. A number of a file, as in a place, is its number among the texts of the line, from 0.
#[derive(Clone, Copy, Debug, PartialEq, Eq)]
pub enum Status {
    /// All was done. `main` gave this integer, if it gives one.
    Done(Option<i64>),
    /// The words are of no form.
    Usage,
    /// The file could not be read.
    ReadFault(u32),
    /// A write failed.
    WriteFault,
    /// What is wrong with a text, and where.
    Syntax(Place, Kind),
    /// A quantity is over its limit, and where, if that is in a text.
    Limit(Option<Place>, Which),
    /// There was no memory.
    Memory,
    /// What the words ask for is not built yet.
    Unbuilt,
}

impl Status {
    ghost use Rattle.rml_top.specs.Code.{code_of};

    /// The exit status of the program.
    pub fn code(&self) -> u8
        ensures { result ≡ code_of self.now }
    {
        match self {
            Status::Done(_) => 0,
            Status::Usage => 2,
            Status::ReadFault(_) => 3,
            Status::WriteFault => 4,
            Status::Syntax(_, _) => 5,
            Status::Limit(_, _) => 8,
            Status::Memory => 11,
            Status::Unbuilt => 13,
        }
    }
}
