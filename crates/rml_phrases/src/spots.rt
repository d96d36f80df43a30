//! What stands first: the token that decides, a sign, a word, a name.

ghost use Rattle.std.specs.Prelude.{◌≡◌, ◌<◌, ◌≤◌, IfOk, IfSome, length};
ghost use Rattle.std.specs.Option.{option_map};
ghost use Rattle.rml_grammar.specs.Tokens.{after, after_word, front_in, front_of, rest_of};
ghost use Rattle.rml_grammar.specs.Reading.{name_at, long_at};
ghost use Rattle.rml_grammar.specs.Patterns.{binder_at};
ghost use Rattle.rml_grammar.specs.Types.{name_next};
ghost use Rattle.rml_syntax.specs.declared.token.Token.TheVariants as token;
ghost use Rattle.rml_phrases.specs.Mirrors.{Mirrors};

use crate::stop::{Stop, unexpected};
use rml_base::Place;
use rml_grammar::Front;
use rml_syntax::{Key, Long, Mark, Spot, Token};

/// What stands first, where a type, a pattern, an expression or a goal may, and all that follows it.
pub fn front(spots: &[Spot]) -> (Front, &[Spot])
    ensures first { result.0 ≡ front_of spots.now }
    ensures rest { result.1.now ≡ rest_of spots.now }
    ensures shorter { length result.1.now ≤ length spots.now }
{
    let Some((first, rest)) = spots.split_first() else {
        return (Front::Other, spots);
    };
    (front_token(first.token, first.place), rest)
}

fn front_token(token: Token, place: Place) -> Front
    ensures { result ≡ front_in token place }
{
    match token {
        Token::Lit(lit) => Front::Literal(lit),
        Token::Name(_) => Front::Named,
        Token::TyVar(name) => Front::TyVar(name, place),
        Token::Dashes(_) => Front::Dashes,
        Token::Sign(mark) => front_sign(mark, place),
        Token::Word(Key::KLet) => Front::Let,
        Token::Word(Key::KNot) => Front::Not,
        Token::Word(_) => Front::Other,
    }
}

fn front_sign(mark: Mark, place: Place) -> Front
    ensures { result ≡ front_in (token.Sign mark) place }
{
    match mark {
        Mark::OpenRound => Front::Round,
        Mark::OpenSquare => Front::Square,
        Mark::Wild => Front::Wild,
        _ => Front::Other,
    }
}

/// What follows the sign, if it is next.
pub fn eat(spots: &[Spot], sign: Mark) -> Option<&[Spot]>
    ensures value { option_map (λ x. x.now) result ≡ after sign spots.now }
    ensures shorter { IfSome result (λ x. length x.now < length spots.now) }
{
    let (first, rest) = spots.split_first()?;
    match first.token {
        Token::Sign(next) if next == sign => Some(rest),
        _ => None,
    }
}

/// What follows the word, if it is next.
pub fn eat_word(spots: &[Spot], word: Key) -> Option<&[Spot]>
    ensures value { option_map (λ x. x.now) result ≡ after_word word spots.now }
    ensures shorter { IfSome result (λ x. length x.now < length spots.now) }
{
    let (first, rest) = spots.split_first()?;
    match first.token {
        Token::Word(next) if next == word => Some(rest),
        _ => None,
    }
}

/// A name, and its place.
pub fn name(spots: &[Spot]) -> Result<((u32, Place), &[Spot]), Stop>
    ensures mirrors { Mirrors (λ x. (x.0, x.1.now)) result (name_at spots.now) }
    ensures shorter { IfOk result (λ x. length x.1.now < length spots.now) }
{
    let Some((first, rest)) = spots.split_first() else {
        return Err(unexpected(spots));
    };
    match first.token {
        Token::Name(name) => Ok(((name, first.place), rest)),
        _ => Err(unexpected(spots)),
    }
}

/// `name [. name]`
#[tactic(auto, unfolding(rml_grammar::specs::Reading::long_at))]
pub fn long(spots: &[Spot]) -> Result<(Long, &[Spot]), Stop>
    ensures mirrors { Mirrors (λ x. (x.0, x.1.now)) result (long_at spots.now) }
    ensures shorter { IfOk result (λ x. length x.1.now < length spots.now) }
{
    let ((first, place), rest) = name(spots)?;
    let Some(rest) = eat(rest, Mark::Dot) else {
        let long = Long {
            module: None,
            name: first,
            place,
        };
        return Ok((long, rest));
    };
    let ((second, _), rest) = name(rest)?;
    let long = Long {
        module: Some(first),
        name: second,
        place,
    };
    Ok((long, rest))
}

/// A name and an `as`, if these stand first, and what follows them.
pub fn binder(spots: &[Spot]) -> Option<((u32, Place), &[Spot])>
    ensures value { option_map (λ x. (x.0, x.1.now)) result ≡ binder_at spots.now }
    ensures shorter { IfSome result (λ x. length x.1.now ≤ length spots.now) }
{
    let (first, rest) = spots.split_first()?;
    let Token::Name(name) = first.token else {
        return None;
    };
    let rest = eat_word(rest, Key::KAs)?;
    Some(((name, first.place), rest))
}

/// The list itself, where a name stands first.
pub fn at_name(spots: &[Spot]) -> Option<&[Spot]>
    ensures value { option_map (λ x. x.now) result ≡ name_next spots.now }
    ensures shorter { IfSome result (λ x. length x.now ≤ length spots.now) }
{
    if let (Front::Named, _) = front(spots) {
        return Some(spots);
    }
    None
}
