//! Why texts are refused.

ghost use Rattle.rml_stages.specs.Refusals.{of_lexer, of_parser};
ghost use Rattle.rml_stages.specs.declared.refusal.Refusal.TheVariants as refusal;
ghost use Rattle.std.specs.Prelude.{◌≡◌};

use rml_base::{Memory, Place};
use rml_lex::{LexErr, LexKind};
use rml_parse::{ParseErr, ParseKind};
use std::alloc::AllocFailed;

/// What is wrong in a text that no limit is passed in.
#[derive(Clone, Copy, Debug, PartialEq, Eq)]
pub enum Kind {
    /// No token begins at the byte, or it stands in no literal.
    BadByte,
    OpenComment,
    /// A char or text that its line does not close.
    OpenString,
    /// A `\` that begins no character, or a char of no character or of two.
    BadEscape,
    /// An integer outside -1,073,741,824 to 1,073,741,823.
    IntRange,
    /// A real number: there are none.
    Real,
    /// No text begins with the tokens up to this one, or the text ends too early.
    Unexpected,
}

/// What there is too much of, by the table of limits in docs/language.md.
#[derive(Clone, Copy, Debug, PartialEq, Eq)]
pub enum Which {
    /// Texts of one line of words.
    Texts,
    /// Arguments of a program.
    Arguments,
    /// Bytes of one text.
    Bytes,
    /// Bytes of all texts.
    Total,
    /// Bytes of a text literal, after its escapes.
    Literal,
    /// Brackets `(` and `[` that are open at once.
    Nesting,
    /// Rules of one relation.
    Rules,
}

/// Why there is no answer. A place is that of the fault.
#[derive(Clone, Copy, Debug, PartialEq, Eq)]
pub enum Refusal {
    /// A limit is passed. It has a place where it is passed in a text or by one.
    Limit(Option<Place>, Which),
    Syntax(Place, Kind),
    Memory,
}

impl From<LexErr> for Refusal {
    ghost from_gives = { λ error given. given ≡ of_lexer error };

    fn from(error: LexErr) -> Refusal {
        let LexErr::At(place, kind) = error else {
            return Refusal::Memory;
        };
        match kind {
            LexKind::BadByte => Refusal::Syntax(place, Kind::BadByte),
            LexKind::OpenComment => Refusal::Syntax(place, Kind::OpenComment),
            LexKind::OpenString => Refusal::Syntax(place, Kind::OpenString),
            LexKind::BadEscape => Refusal::Syntax(place, Kind::BadEscape),
            LexKind::IntRange => Refusal::Syntax(place, Kind::IntRange),
            LexKind::Real => Refusal::Syntax(place, Kind::Real),
            LexKind::LongString => Refusal::Limit(Some(place), Which::Literal),
        }
    }
}

impl From<ParseErr> for Refusal {
    ghost from_gives = { λ error given. given ≡ of_parser error };

    fn from(error: ParseErr) -> Refusal {
        let ParseErr::At(place, kind) = error else {
            return Refusal::Memory;
        };
        match kind {
            ParseKind::Unexpected => Refusal::Syntax(place, Kind::Unexpected),
            ParseKind::TooDeep => Refusal::Limit(Some(place), Which::Nesting),
            ParseKind::TooManyRules => Refusal::Limit(Some(place), Which::Rules),
        }
    }
}

impl From<Memory> for Refusal {
    ghost from_gives = { λ _ given. given ≡ refusal.Memory };

    fn from(_: Memory) -> Refusal {
        Refusal::Memory
    }
}

impl<T: Drop> From<AllocFailed<T>> for Refusal {
    ghost from_gives = { λ _ given. given ≡ refusal.Memory };

    fn from(_: AllocFailed<T>) -> Refusal {
        Refusal::Memory
    }
}
