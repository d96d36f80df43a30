//! Types and signatures.

ghost use Rattle.rml_print.specs.Parts.{in_round, listed, long_tokens, tupled};
ghost use Rattle.rml_print.specs.Types.{argument_tokens, sequence_tokens, sig_tokens, type_tokens};
ghost use Rattle.rml_print.specs.Written.{with_tokens};
ghost use Rattle.rml_print.specs.declared.seats.Seat.TheVariants.{Free};
ghost use Rattle.std.specs.List.{flat_map};
ghost use Rattle.std.specs.Prelude.{◌≡◌, ◌++◌, map, OnOk};

use crate::page::Page;
use crate::seats::{Seat, is_bracketed, type_shape};
use rml_base::Memory;
use rml_syntax::{Long, Mark, Sig, Token, TypeExp};

/// A type, with brackets where its seat wants them.
#[cycle(types)]
pub fn print_type(page: &mut Page<'_>, tree: &TypeExp, seat: Seat) -> Result<(), Memory>
    ensures { OnOk result (page.new ≡ with_tokens page.old (type_tokens tree.now seat)) }
{
    if is_bracketed(seat, type_shape(tree)) {
        page.sign(Mark::OpenRound)?;
        print_bare_type(page, tree)?;
        return page.sign(Mark::CloseRound);
    }
    print_bare_type(page, tree)
}

#[cycle(types)]
fn print_bare_type(page: &mut Page<'_>, tree: &TypeExp) -> Result<(), Memory>
    ensures { OnOk result (page.new ≡ with_tokens page.old (type_tokens tree.now Free)) }
{
    match tree {
        TypeExp::Var(name, _) => page.token(Token::TyVar(*name)),
        TypeExp::App(arguments, names) => {
            print_named(page, arguments.as_slice(), names.as_slice())
        }
        TypeExp::Tuple(factors) => print_types(page, factors.as_slice(), Mark::Star, Seat::Factor),
        TypeExp::Rel(sig) => print_relation_type(page, sig.get()),
    }
}

/// Arguments, and the names behind them.
#[cycle(types)]
fn print_named(page: &mut Page<'_>, arguments: &[TypeExp], names: &[Long]) -> Result<(), Memory>
    ensures { OnOk result (page.new ≡ with_tokens page.old (argument_tokens (map type_tokens arguments.now) ++ flat_map long_tokens names.now)) }
{
    print_arguments(page, arguments)?;
    print_longs(page, names)
}

#[cycle(types)]
fn print_relation_type(page: &mut Page<'_>, sig: &Sig) -> Result<(), Memory>
    ensures { OnOk result (page.new ≡ with_tokens page.old (in_round (sig_tokens sig.now))) }
{
    page.sign(Mark::OpenRound)?;
    print_signature(page, sig)?;
    page.sign(Mark::CloseRound)
}

/// The arguments before the names of a type.
#[cycle(types)]
fn print_arguments(page: &mut Page<'_>, arguments: &[TypeExp]) -> Result<(), Memory>
    ensures { OnOk result (page.new ≡ with_tokens page.old (argument_tokens (map type_tokens arguments.now))) }
{
    match arguments {
        [] => Ok(()),
        [argument] => print_type(page, argument, Seat::OnlyArgument),
        _ => print_tuple(page, arguments),
    }
}

fn print_longs(page: &mut Page<'_>, longs: &[Long]) -> Result<(), Memory>
    ensures { OnOk result (page.new ≡ with_tokens page.old (flat_map long_tokens longs.now)) }
{
    for long in longs {
        page.long(long)?;
    }
    Ok(())
}

/// In round brackets, with commas.
#[cycle(types)]
fn print_tuple(page: &mut Page<'_>, types: &[TypeExp]) -> Result<(), Memory>
    ensures { OnOk result (page.new ≡ with_tokens page.old (tupled (map type_tokens types.now))) }
{
    page.sign(Mark::OpenRound)?;
    print_types(page, types, Mark::Comma, Seat::Free)?;
    page.sign(Mark::CloseRound)
}

/// With a sign between them.
#[cycle(types)]
pub fn print_types(
    page: &mut Page<'_>,
    types: &[TypeExp],
    separator: Mark,
    seat: Seat,
) -> Result<(), Memory>
    ensures { OnOk result (page.new ≡ with_tokens page.old (listed separator seat (map type_tokens types.now))) }
{
    for (i, tree) in types.iter().enumerate() {
        page.separate(i, Token::Sign(separator))?;
        print_type(page, tree, seat)?;
    }
    Ok(())
}

/// The inputs or the outputs of a signature.
#[cycle(types)]
fn print_sequence(page: &mut Page<'_>, types: &[TypeExp]) -> Result<(), Memory>
    ensures { OnOk result (page.new ≡ with_tokens page.old (sequence_tokens (map type_tokens types.now))) }
{
    match types {
        [only] => print_type(page, only, Seat::Free),
        _ => print_tuple(page, types),
    }
}

#[cycle(types)]
pub fn print_signature(page: &mut Page<'_>, sig: &Sig) -> Result<(), Memory>
    ensures { OnOk result (page.new ≡ with_tokens page.old (sig_tokens sig.now)) }
{
    print_sequence(page, sig.inputs.as_slice())?;
    page.sign(Mark::Arrow)?;
    print_sequence(page, sig.outputs.as_slice())
}
