//! Expressions, and the results of a rule.

ghost use Rattle.rml_print.specs.Parts.{in_square, listed, results_tokens, tupled};
ghost use Rattle.rml_print.specs.Expressions.{exp_tokens};
ghost use Rattle.rml_print.specs.Written.{with_tokens};
ghost use Rattle.rml_print.specs.declared.seats.Seat.TheVariants.{Free};
ghost use Rattle.rml_syntax.specs.declared.token.Mark.TheVariants.{Comma};
ghost use Rattle.std.specs.Prelude.{◌≡◌, map, OnOk};

use crate::page::Page;
use crate::seats::{Seat, exp_shape, is_bracketed};
use rml_base::Memory;
use rml_syntax::{Exp, Mark, Token};

/// An expression, with brackets where its seat wants them.
#[cycle(expressions)]
pub fn print_exp(page: &mut Page<'_>, tree: &Exp, seat: Seat) -> Result<(), Memory>
    ensures { OnOk result (page.new ≡ with_tokens page.old (exp_tokens tree.now seat)) }
{
    if is_bracketed(seat, exp_shape(tree)) {
        page.sign(Mark::OpenRound)?;
        print_bare_exp(page, tree)?;
        return page.sign(Mark::CloseRound);
    }
    print_bare_exp(page, tree)
}

#[cycle(expressions)]
fn print_bare_exp(page: &mut Page<'_>, tree: &Exp) -> Result<(), Memory>
    ensures { OnOk result (page.new ≡ with_tokens page.old (exp_tokens tree.now Free)) }
{
    match tree {
        Exp::Lit(literal) => page.token(Token::Lit(*literal)),
        Exp::Name(long) => page.long(long),
        Exp::App(long, arguments) => {
            page.long(long)?;
            print_exp_tuple(page, arguments.as_slice())
        }
        Exp::Tuple(items) => print_exp_tuple(page, items.as_slice()),
        Exp::List(items) => print_exp_list(page, items.as_slice()),
        Exp::Cons(items) => print_exps(page, items.as_slice(), Mark::TwoColons, Seat::Item),
    }
}

/// In round brackets, with commas.
#[cycle(expressions)]
pub fn print_exp_tuple(page: &mut Page<'_>, exps: &[Exp]) -> Result<(), Memory>
    ensures { OnOk result (page.new ≡ with_tokens page.old (tupled (map exp_tokens exps.now))) }
{
    page.sign(Mark::OpenRound)?;
    print_exps(page, exps, Mark::Comma, Seat::Free)?;
    page.sign(Mark::CloseRound)
}

/// In square brackets, with commas.
#[cycle(expressions)]
fn print_exp_list(page: &mut Page<'_>, exps: &[Exp]) -> Result<(), Memory>
    ensures { OnOk result (page.new ≡ with_tokens page.old (in_square (listed Comma Free (map exp_tokens exps.now)))) }
{
    page.sign(Mark::OpenSquare)?;
    print_exps(page, exps, Mark::Comma, Seat::Free)?;
    page.sign(Mark::CloseSquare)
}

/// With a sign between them.
#[cycle(expressions)]
fn print_exps(page: &mut Page<'_>, exps: &[Exp], separator: Mark, seat: Seat) -> Result<(), Memory>
    ensures { OnOk result (page.new ≡ with_tokens page.old (listed separator seat (map exp_tokens exps.now))) }
{
    for (i, tree) in exps.iter().enumerate() {
        page.separate(i, Token::Sign(separator))?;
        print_exp(page, tree, seat)?;
    }
    Ok(())
}

/// The results of a rule, with their arrow.
pub fn print_results(page: &mut Page<'_>, exps: &[Exp]) -> Result<(), Memory>
    ensures { OnOk result (page.new ≡ with_tokens page.old (results_tokens (map exp_tokens exps.now))) }
{
    match exps {
        [] => Ok(()),
        [only] => {
            page.sign(Mark::Arrow)?;
            print_exp(page, only, Seat::OnlyResult)
        }
        _ => {
            page.sign(Mark::Arrow)?;
            print_exp_tuple(page, exps)
        }
    }
}
