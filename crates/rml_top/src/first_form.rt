//! Finds the literals that a text of the first form prints, from the spellings of its tokens.

ghost use Rattle.std.specs.Prelude.{◌≡◌, ℕ, List, length, IfOk, IfSome, IfNone};
ghost use Rattle.std.specs.Option.{option_map};
ghost use Rattle.rml_top.specs.FirstForm.{is_module_name, is_literal, is_dashes, spelled, shown, IsFirstForm};
ghost use Rattle.rml_top.specs.Matching.{after, after_rule, after_type, literal_at, bracketed_at, premise_at, premises_at, ends, literals_in, ends, next_is};

use rml_lex::find_word;
use std::alloc::{AllocError, Global};

/// The tokens after the expected ones.
fn after<'a>(tokens: &'a [&'a [u8]], expected: &[&str]) -> Option<&'a [&'a [u8]]>
    ensures { option_map (λ r. spelled r.now) result ≡ after (spelled expected.now) (spelled tokens.now) }
{
    let Some((word, words)) = expected.split_first() else {
        return Some(tokens);
    };
    let (token, rest) = tokens.split_first()?;
    if *token == word.as_bytes() {
        after(rest, words)
    } else {
        None
    }
}

fn is_module_name(token: &[u8]) -> bool
    ensures { result ≡ is_module_name token.now }
{
    token.first().is_some_and(|b| b.is_ascii_alphabetic())
        && find_word(token).is_none()
        && token != b"rml".as_slice()
}

fn is_literal(token: &[u8]) -> bool
    ensures { result ≡ is_literal token.now }
{
    token.first() == Some(&b'"')
}

fn is_dashes(token: &[u8]) -> bool
    ensures { result ≡ is_dashes token.now }
{
    matches!(token, [b'-', b'-', ..])
}

fn next_is(tokens: &[&[u8]], expected: &str) -> bool
    ensures { result ≡ next_is expected.now (spelled tokens.now) }
{
    tokens
        .first()
        .is_some_and(|token| *token == expected.as_bytes())
}

/// The tokens of the premises and the conclusion.
#[tactic(auto, unfolding(crate::specs::Matching::after_rule))]
fn after_rule<'a>(tokens: &'a [&'a [u8]]) -> Option<&'a [&'a [u8]]>
    ensures { option_map (λ r. spelled r.now) result ≡ after_rule (spelled tokens.now) }
{
    let tokens = after(tokens, &["module"])?;
    let (name, tokens) = tokens.split_first()?;
    if !is_module_name(name) {
        return None;
    }
    let tokens = after(
        tokens,
        &[
            ":", "relation", "main", ":", "string", "list", "=>", "(", ")", "end",
        ],
    )?;
    let tokens = after(tokens, &["relation", "main"])?;
    let tokens = after_type(tokens)?;
    after(tokens, &["=", "rule"])
}

fn after_type<'a>(tokens: &'a [&'a [u8]]) -> Option<&'a [&'a [u8]]>
    ensures { option_map (λ r. spelled r.now) result ≡ after_type (spelled tokens.now) }
{
    if next_is(tokens, ":") {
        after(tokens, &[":", "string", "list", "=>", "(", ")"])
    } else {
        Some(tokens)
    }
}

/// A literal at the front, and the tokens after it.
fn literal_at<'a>(tokens: &'a [&'a [u8]]) -> Option<(&'a [u8], &'a [&'a [u8]])>
    ensures { option_map shown result ≡ literal_at (spelled tokens.now) }
{
    let (token, rest) = tokens.split_first()?;
    if is_literal(token) {
        Some((*token, rest))
    } else {
        None
    }
}

fn bracketed_at<'a>(tokens: &'a [&'a [u8]]) -> Option<(&'a [u8], &'a [&'a [u8]])>
    ensures { option_map shown result ≡ bracketed_at (spelled tokens.now) }
{
    let rest = after(tokens, &["("])?;
    let (literal, rest) = literal_at(rest)?;
    let rest = after(rest, &[")"])?;
    Some((literal, rest))
}

/// The literal of the premise at the front, and the tokens after it.
#[tactic(auto, unfolding(crate::specs::Matching::premise_at))]
fn premise_at<'a>(tokens: &'a [&'a [u8]]) -> Option<(&'a [u8], &'a [&'a [u8]])>
    ensures { option_map shown result ≡ premise_at (spelled tokens.now) }
{
    let rest = after(tokens, &["print"])?;
    if next_is(rest, "(") {
        bracketed_at(rest)
    } else {
        literal_at(rest)
    }
}

/// The literals of the premises at the front, and the tokens after these.
fn premises_at<'a>(
    alloc: Global,
    tokens: &'a [&'a [u8]],
) -> Result<Option<(Vec<&'a [u8]>, &'a [&'a [u8]])>, AllocError>
    ensures { let ts = spelled tokens.now in IfOk result (λ found. option_map (λ r. (spelled r.0.items, spelled r.1.now)) found ≡ premises_at (length ts) ts) }
{
    let mut literals = Vec::new(alloc);
    let mut at = 0;
    while at < tokens.len() {
        let (_, left) = tokens.split_at(at);
        let Some((literal, rest)) = premise_at(left) else {
            return Ok(None);
        };
        literals.push(literal)?;
        at = tokens.len() - rest.len();
        if !next_is(rest, "&") {
            return Ok(Some((literals, rest)));
        }
        at += 1;
    }
    Ok(None)
}

/// Whether the tokens are dashes and the conclusion.
#[tactic(auto, unfolding(crate::specs::Matching::ends))]
fn ends(tokens: &[&[u8]]) -> bool
    ensures { result ≡ ends (spelled tokens.now) }
{
    let Some((dashes, rest)) = tokens.split_first() else {
        return false;
    };
    is_dashes(dashes)
        && after(rest, &["main", "(", "_", ")", "end"]).is_some_and(|rest| rest.is_empty())
}

/// The literals, read from the left.
#[tactic(auto, unfolding(crate::specs::Matching::literals_in))]
fn read<'a>(alloc: Global, tokens: &'a [&'a [u8]]) -> Result<Option<Vec<&'a [u8]>>, AllocError>
    ensures { IfOk result (λ found. option_map (λ r. spelled r.items) found ≡ literals_in (spelled tokens.now)) }
{
    let Some(rest) = after_rule(tokens) else {
        return Ok(None);
    };
    let Some((literals, rest)) = premises_at(alloc, rest)? else {
        return Ok(None);
    };
    Ok(if ends(rest) { Some(literals) } else { None })
}

/// The literals that a text of the first form prints, in order, as they are spelled.
pub fn literals_in<'a>(
    alloc: Global,
    tokens: &'a [&'a [u8]],
) -> Result<Option<Vec<&'a [u8]>>, AllocError>
    ensures found { IfOk result (λ found. IfSome found (λ literals. IsFirstForm (spelled tokens.now) (spelled literals.items))) }
    ensures only { IfOk result (λ found. IfNone found ((literals : List (List ℕ)) → ¬ IsFirstForm (spelled tokens.now) literals)) }
{
    read(alloc, tokens)
}
