//! What stands first where a declaration, a `with` or a rule may: the word that decides.

ghost use Rattle.std.specs.Prelude.{◌≡◌, ◌<◌, ◌≤◌, IfOk, IfSome, length};
ghost use Rattle.std.specs.Option.{option_map};
ghost use Rattle.rml_grammar.specs.Tokens.{opening_in, opening_of, rest_of};
ghost use Rattle.rml_grammar.specs.Texts as texts;
ghost use Rattle.rml_phrases.specs.Mirrors.{Mirrors};

use rml_base::Place;
use rml_grammar::Opening;
use rml_phrases::stop::{Stop, unexpected};
use rml_syntax::{Key, Lit, Spot, Token};

/// What stands first, where a declaration or a rule may, and all that follows it.
pub(crate) fn opening(spots: &[Spot]) -> (Opening, &[Spot])
    ensures first { result.0 ≡ opening_of spots.now }
    ensures rest { result.1.now ≡ rest_of spots.now }
    ensures shorter { length result.1.now ≤ length spots.now }
{
    let Some((first, rest)) = spots.split_first() else {
        return (Opening::Other, spots);
    };
    (opening_token(first.token, first.place), rest)
}

fn opening_token(token: Token, place: Place) -> Opening
    ensures { result ≡ opening_in token place }
{
    let Token::Word(word) = token else {
        return Opening::Other;
    };
    match word {
        Key::KWith => Opening::With(place),
        Key::KDatatype => Opening::Datatype,
        Key::KType => Opening::Type,
        Key::KAbstype => Opening::Abstype,
        Key::KVal => Opening::Val,
        Key::KRelation => Opening::Relation,
        Key::KRule => Opening::Rule(place),
        Key::KAxiom => Opening::Axiom(place),
        _ => Opening::Other,
    }
}

/// The list itself, where a declaration of an interface begins.
pub(crate) fn at_spec(spots: &[Spot]) -> Option<&[Spot]>
    ensures value { option_map (λ x. x.now) result ≡ texts.spec_next spots.now }
    ensures shorter { IfSome result (λ x. length x.now ≤ length spots.now) }
{
    match opening(spots).0 {
        Opening::Datatype | Opening::Type | Opening::Abstype | Opening::Val | Opening::Relation =>
            Some(spots),
        _ => None,
    }
}

/// The list itself, where a declaration of a body begins.
pub(crate) fn at_decl(spots: &[Spot]) -> Option<&[Spot]>
    ensures value { option_map (λ x. x.now) result ≡ texts.decl_next spots.now }
    ensures shorter { IfSome result (λ x. length x.now ≤ length spots.now) }
{
    match opening(spots).0 {
        Opening::Datatype | Opening::Type | Opening::Val | Opening::Relation => Some(spots),
        _ => None,
    }
}

/// The list itself, where a `with` stands first.
pub(crate) fn at_uses(spots: &[Spot]) -> Option<&[Spot]>
    ensures value { option_map (λ x. x.now) result ≡ texts.uses_next spots.now }
    ensures shorter { IfSome result (λ x. length x.now ≤ length spots.now) }
{
    match opening(spots).0 {
        Opening::With(_) => Some(spots),
        _ => None,
    }
}

/// The list itself, where a rule begins.
pub(crate) fn at_rule(spots: &[Spot]) -> Option<&[Spot]>
    ensures value { option_map (λ x. x.now) result ≡ texts.clause_next spots.now }
    ensures shorter { IfSome result (λ x. length x.now ≤ length spots.now) }
{
    match opening(spots).0 {
        Opening::Rule(_) | Opening::Axiom(_) => Some(spots),
        _ => None,
    }
}

/// The text literal of a `with`.
pub(crate) fn file(spots: &[Spot]) -> Result<(u32, &[Spot]), Stop>
    ensures mirrors { Mirrors (λ x. (x.0, x.1.now)) result (texts.file_at spots.now) }
    ensures shorter { IfOk result (λ x. length x.1.now < length spots.now) }
{
    let Some((first, rest)) = spots.split_first() else {
        return Err(unexpected(spots));
    };
    match first.token {
        Token::Lit(Lit::Text(file)) => Ok((file, rest)),
        _ => Err(unexpected(spots)),
    }
}
