//! The public call, and its answers.

ghost use Rattle.std.specs.Prelude.{◌≡◌, ◌-◌, ◌≤◌, length};
ghost use Rattle.rml_base.specs.Answers.{Explains, Gives, Refuses};
ghost use Rattle.rml_base.specs.declared.limits.TheConstants.{BYTES, NESTING, RULES};
ghost use Rattle.rml_base.specs.declared.place.Place.{Place};
ghost use Rattle.rml_grammar.specs.Texts.{whole_text};
ghost use Rattle.rml_grammar.specs.declared.fault.ParseKind.{ParseKind};
ghost use Rattle.rml_syntax.specs.declared.texts.Text.{Text};
ghost use Rattle.rml_grammar.specs.SpelledTexts.{Derives};
ghost use Rattle.rml_parse.specs.Answers.{PlacedAs, Says, place_left};
ghost use Rattle.rml_parse.specs.Faults.{IsFault, IsTree, PassesLimit, StopsAt};
ghost use Rattle.rml_parse.specs.declared.answer.ParseErr.TheVariants as error;

use crate::texts::whole;
use rml_base::{Place, limits};
use rml_grammar::ParseKind;
use rml_phrases::stop::Stop;
use rml_syntax::{Spot, Text};
use std::alloc::Global;

/// Why there is no tree.
#[derive(Clone, Copy, Debug, PartialEq, Eq, Drop)]
pub enum ParseErr {
    /// What is wrong, and the place of the token where it is, or the end place.
    At(Place, ParseKind),
    Memory,
}

/// The tree of a text from its tokens, all of them. `end` is where the text's next byte would stand.
///
/// `Unexpected` is at the first token such that no text begins with the tokens up to it, or at the end; `TooDeep` at a
/// bracket `(` or `[` that is the 201st open one; `TooManyRules` at the 4,097th rule of one relation. The earliest is
/// named, and at one token `Unexpected`.
pub fn parse(alloc: Global, spots: &[Spot], end: Place) -> Result<Text, ParseErr>
    requires { length spots.now ≤ BYTES }
    ensures answer { Explains error.Memory result (IsTree end spots.now) (IsFault end spots.now) }
    // But for want of memory: the tree, where there is one within the limits, ..
    ensures tree { (t : Text) → IsTree end spots.now t → Gives error.Memory result (λ u. u ≡ t) }
    // .. the fault, where reading stops at one, ..
    ensures fault { (place : Place) (kind : ParseKind) → StopsAt end spots.now place kind → Refuses error.Memory result (λ e. e ≡ error.At place kind) }
    // .. and where there is a tree, that tree or a limit.
    ensures limits { (t : Text) → Derives end spots.now t → Explains error.Memory result (λ u. u ≡ t) PassesLimit }
{
    answer(alloc, spots, end)
}

/// What the grammar of functions reads, with the places of faults.
fn answer(alloc: Global, spots: &[Spot], end: Place) -> Result<Text, ParseErr>
    requires { length spots.now ≤ BYTES }
    ensures { Says end spots.now result (whole_text end NESTING (RULES - 1) spots.now) }
{
    match whole(alloc, spots, end, LEVELS, FURTHER_RULES) {
        Ok(text) => Ok(text),
        Err(stop) => Err(placed(stop, spots, end)),
    }
}

/// Brackets that may be open at once.
const LEVELS: u32 = limits::NESTING as u32;

/// Rules of a relation after its first.
const FURTHER_RULES: u32 = limits::RULES as u32 - 1;

/// The answer for a function that stopped.
fn placed(stop: Stop, spots: &[Spot], end: Place) -> ParseErr
    ensures { PlacedAs end spots.now stop result }
{
    match stop {
        Stop::Memory => ParseErr::Memory,
        Stop::At(fault) => ParseErr::At(place(fault.left, spots, end), fault.kind),
    }
}

/// The place of the token at which so many are left.
fn place(left: usize, spots: &[Spot], end: Place) -> Place
    ensures { result ≡ place_left end left spots.now }
{
    match spots.get(spots.len().saturating_sub(left)) {
        Some(spot) => spot.place,
        None => end,
    }
}
