//! Why a function of the parser stops.

ghost use Rattle.std.specs.Prelude.{◌≡◌, IfOk, OnErr, MatchResult, suc, length};
ghost use Rattle.rml_phrases.specs.declared.stop.Stop.TheVariants as stop;
ghost use Rattle.rml_grammar.specs.declared.fault.ParseKind.TheVariants as kind;

use rml_grammar::{Fault, ParseKind};
use rml_syntax::Spot;
use std::alloc::{AllocError, AllocFailed};

/// A fault of the tokens, or want of memory.
#[derive(Clone, Copy, Debug, PartialEq, Eq, Drop)]
pub enum Stop {
    At(Fault),
    Memory,
}

impl From<AllocError> for Stop {
    ghost from_gives = { λ _ e. e ≡ stop.Memory };

    fn from(_: AllocError) -> Stop {
        Stop::Memory
    }
}

impl<T: Drop> From<AllocFailed<T>> for Stop {
    ghost from_gives = { λ _ e. e ≡ stop.Memory };

    fn from(_: AllocFailed<T>) -> Stop {
        Stop::Memory
    }
}

/// The fault at the first of the spots, or at the end where there is none.
pub fn at(kind: ParseKind, spots: &[Spot]) -> Stop
    ensures { result ≡ stop.At (record { kind = kind; left = length spots.now }) }
{
    Stop::At(Fault {
        kind,
        left: spots.len(),
    })
}

pub fn unexpected(spots: &[Spot]) -> Stop
    ensures { result ≡ stop.At (record { kind = kind.Unexpected; left = length spots.now }) }
{
    at(ParseKind::Unexpected, spots)
}

/// How many brackets may still open behind the one that stands first.
pub fn inward(spots: &[Spot], levels: u32) -> Result<u32, Stop>
    ensures ok { IfOk result (λ inner. levels ≡ suc inner) }
    ensures none { OnErr result (levels ≡ 0) }
    ensures fault { MatchResult result (λ inner. Unit {0}) (λ e. e ≡ stop.At (record { kind = kind.TooDeep; left = length spots.now })) }
{
    if levels == 0 {
        return Err(at(ParseKind::TooDeep, spots));
    }
    Ok(levels - 1)
}
