//! The faults of a set of texts, and their order.

ghost use Rattle.std.specs.Prelude.{◌≡◌};
ghost use Rattle.rml_scopes.specs.Faults.{comes_first, lesser, number_of};

use rml_base::Place;

/// What is wrong with a name, or with the set of texts as a whole. The faults are numbered from 1 in this order.
#[derive(Clone, Copy, Debug, PartialEq, Eq)]
pub enum ModFault {
    DuplicateModule,
    NoSuchText,
    CircularInterfaces,
    DuplicateName,
    UnknownName,
    WrongCount,
    RepeatedVariable,
    Rebound,
    NotDefined,
    InterfaceMismatch,
    NoMain,
}

/// A fault and its place.
#[derive(Clone, Copy, Debug, PartialEq, Eq)]
pub struct Found {
    pub place: Place,
    pub fault: ModFault,
}

impl ModFault {
    /// The number of the fault, from 1 to 11.
    pub fn number(self) -> u8
        ensures { result ≡ number_of self }
    {
        match self {
            ModFault::DuplicateModule => 1,
            ModFault::NoSuchText => 2,
            ModFault::CircularInterfaces => 3,
            ModFault::DuplicateName => 4,
            ModFault::UnknownName => 5,
            ModFault::WrongCount => 6,
            ModFault::RepeatedVariable => 7,
            ModFault::Rebound => 8,
            ModFault::NotDefined => 9,
            ModFault::InterfaceMismatch => 10,
            ModFault::NoMain => 11,
        }
    }
}

impl Found {
    /// Whether this fault comes before another: at an earlier place, or at the same place with a lesser number.
    #[tactic(auto, unfolding(crate::specs::Faults::comes_first))]
    pub fn comes_first(self, other: Found) -> bool
        ensures { result ≡ comes_first self other }
    {
        self.place.is_before(other.place)
            || (!other.place.is_before(self.place) && self.fault.number() < other.fault.number())
    }
}

/// The lesser of the least so far and a further fault.
pub fn lesser(least: Option<Found>, found: Found) -> Option<Found>
    ensures { result ≡ lesser least found }
{
    match least {
        None => Some(found),
        Some(old) => {
            if found.comes_first(old) {
                Some(found)
            } else {
                Some(old)
            }
        }
    }
}
