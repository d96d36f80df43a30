//! Patterns, and the patterns for the results of a call.

ghost use Rattle.rml_print.specs.Parts.{in_square, listed, results_tokens, tupled};
ghost use Rattle.rml_print.specs.Patterns.{pattern_tokens};
ghost use Rattle.rml_print.specs.Written.{with_tokens};
ghost use Rattle.rml_print.specs.declared.seats.Seat.TheVariants.{Free};
ghost use Rattle.rml_syntax.specs.declared.token.Mark.TheVariants.{Comma};
ghost use Rattle.std.specs.Prelude.{◌≡◌, map, OnOk};

use crate::page::Page;
use crate::seats::{Seat, is_bracketed, pattern_shape};
use rml_base::Memory;
use rml_syntax::{Key, Mark, Pattern, Token};

/// A pattern, with brackets where its seat wants them.
#[cycle(patterns)]
pub fn print_pattern(page: &mut Page<'_>, tree: &Pattern, seat: Seat) -> Result<(), Memory>
    ensures { OnOk result (page.new ≡ with_tokens page.old (pattern_tokens tree.now seat)) }
{
    if is_bracketed(seat, pattern_shape(tree)) {
        page.sign(Mark::OpenRound)?;
        print_bare_pattern(page, tree)?;
        return page.sign(Mark::CloseRound);
    }
    print_bare_pattern(page, tree)
}

#[cycle(patterns)]
fn print_bare_pattern(page: &mut Page<'_>, tree: &Pattern) -> Result<(), Memory>
    ensures { OnOk result (page.new ≡ with_tokens page.old (pattern_tokens tree.now Free)) }
{
    match tree {
        Pattern::Any => page.sign(Mark::Wild),
        Pattern::Lit(literal) => page.token(Token::Lit(*literal)),
        Pattern::Name(long) => page.long(long),
        Pattern::App(long, arguments) => {
            page.long(long)?;
            print_pattern_tuple(page, arguments.as_slice())
        }
        Pattern::Tuple(items) => print_pattern_tuple(page, items.as_slice()),
        Pattern::List(items) => print_pattern_list(page, items.as_slice()),
        Pattern::Cons(items) => print_patterns(page, items.as_slice(), Mark::TwoColons, Seat::Item),
        Pattern::Bind(name, _, bound) => {
            page.name(*name)?;
            page.word(Key::KAs)?;
            print_pattern(page, bound.get(), Seat::BehindAs)
        }
    }
}

/// In round brackets, with commas.
#[cycle(patterns)]
pub fn print_pattern_tuple(page: &mut Page<'_>, patterns: &[Pattern]) -> Result<(), Memory>
    ensures { OnOk result (page.new ≡ with_tokens page.old (tupled (map pattern_tokens patterns.now))) }
{
    page.sign(Mark::OpenRound)?;
    print_patterns(page, patterns, Mark::Comma, Seat::Free)?;
    page.sign(Mark::CloseRound)
}

/// In square brackets, with commas.
#[cycle(patterns)]
fn print_pattern_list(page: &mut Page<'_>, patterns: &[Pattern]) -> Result<(), Memory>
    ensures { OnOk result (page.new ≡ with_tokens page.old (in_square (listed Comma Free (map pattern_tokens patterns.now)))) }
{
    page.sign(Mark::OpenSquare)?;
    print_patterns(page, patterns, Mark::Comma, Seat::Free)?;
    page.sign(Mark::CloseSquare)
}

/// With a sign between them.
#[cycle(patterns)]
fn print_patterns(
    page: &mut Page<'_>,
    patterns: &[Pattern],
    separator: Mark,
    seat: Seat,
) -> Result<(), Memory>
    ensures { OnOk result (page.new ≡ with_tokens page.old (listed separator seat (map pattern_tokens patterns.now))) }
{
    for (i, tree) in patterns.iter().enumerate() {
        page.separate(i, Token::Sign(separator))?;
        print_pattern(page, tree, seat)?;
    }
    Ok(())
}

/// The patterns for the results of a call, with their arrow.
pub fn print_result_patterns(page: &mut Page<'_>, patterns: &[Pattern]) -> Result<(), Memory>
    ensures { OnOk result (page.new ≡ with_tokens page.old (results_tokens (map pattern_tokens patterns.now))) }
{
    match patterns {
        [] => Ok(()),
        [only] => {
            page.sign(Mark::Arrow)?;
            print_pattern(page, only, Seat::OnlyResult)
        }
        _ => {
            page.sign(Mark::Arrow)?;
            print_pattern_tuple(page, patterns)
        }
    }
}
