//! Parts of a group, which are those of its rules in the order of place.

ghost use Rattle.std.specs.Prelude.{◌≡◌, length};
ghost use Rattle.rml_typed.specs.Parts.{pieces};
ghost use Rattle.rml_groups.specs.Groups.{parts_in};

use rml_base::Place;
use rml_resolved::RRule;

/// The first parts of a group.
#[derive(Clone, Copy, Debug, PartialEq, Eq)]
pub enum Extent {
    All,
    /// Those of the rules before a place, and the first ones at that place, so many.
    UpTo(Place, usize),
}

impl Extent {
    /// How many parts of a rule these are.
    pub fn of(self, rule: &RRule) -> usize
        ensures { result ≡ parts_in self rule.now }
    {
        let all = part_count(rule);
        match self {
            Extent::All => all,
            Extent::UpTo(place, count) => {
                if place.is_before(rule.place) {
                    0
                } else if rule.place.is_before(place) {
                    all
                } else {
                    count
                }
            }
        }
    }
}

/// How many parts a rule has: its premises and two more.
pub fn part_count(rule: &RRule) -> usize
    ensures { result ≡ length (pieces rule.now) }
{
    rule.goals.as_slice().len() + 2
}
