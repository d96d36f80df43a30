//! What a name of the space of values means at its place.

ghost use Rattle.std.specs.Prelude.{◌≡◌};
ghost use Rattle.rml_scopes.specs.Meaning.{arguments, declared, is_constructor, is_nothing};

use rml_outlines::ValueEntry;

/// The first meaning of a name, and no other.
#[derive(Clone, Copy, Debug, PartialEq, Eq)]
pub enum Meaning {
    /// A variable that an earlier part of the rule bound.
    Variable,
    /// A name of the own text, a name that is given to each text, or one that another text exports.
    Declared(ValueEntry),
    Nothing,
}

impl Meaning {
    /// What is declared, if it is.
    pub fn of(entry: Option<ValueEntry>) -> Meaning
        ensures { result ≡ declared entry }
    {
        match entry {
            Some(entry) => Meaning::Declared(entry),
            None => Meaning::Nothing,
        }
    }

    /// The number of arguments of a constructor; `None` of what is none.
    pub fn arguments(self) -> Option<usize>
        ensures { result ≡ arguments self }
    {
        match self {
            Meaning::Declared(ValueEntry::Constructor(count)) => Some(count),
            _ => None,
        }
    }

    pub fn is_constructor(self) -> bool
        ensures { result ≡ is_constructor self }
    {
        self.arguments().is_some()
    }

    pub fn is_nothing(self) -> bool
        ensures { result ≡ is_nothing self }
    {
        matches!(self, Meaning::Nothing)
    }
}
