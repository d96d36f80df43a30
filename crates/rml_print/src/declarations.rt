//! Declarations, each behind a margin of some blanks.

ghost use Rattle.rml_print.specs.Texts.{abbreviation_tokens, binding_tokens, constructor_tokens, datatype_tokens, decl_lines, defined_tokens, head_tokens, line, parts_tokens, relation_lines, signed_tokens, typed_tokens, variables_tokens};
ghost use Rattle.rml_print.specs.Parts.{separated};
ghost use Rattle.rml_print.specs.Written.{with_line, with_lines, with_tokens};
ghost use Rattle.rml_syntax.specs.declared.token.Key.TheVariants as key;
ghost use Rattle.rml_syntax.specs.declared.token.Mark.TheVariants as mark;
ghost use Rattle.rml_syntax.specs.declared.token.Token.TheVariants as token;
ghost use Rattle.std.specs.List.{flat_map};
ghost use Rattle.std.specs.Prelude.{◌≡◌, ◌∷◌, ◌++◌, [], map, OnOk};

use crate::expressions::print_exp;
use crate::page::Page;
use crate::rules::print_rules;
use crate::seats::Seat;
use crate::types::{print_signature, print_type, print_types};
use rml_base::Memory;
use rml_syntax::{ConBind, DataBind, Decl, Exp, Key, Mark, Rule, Sig, Token, TypeExp, TypeHead};

/// Type variables with commas between them.
fn print_variables(page: &mut Page<'_>, variables: &[u32]) -> Result<(), Memory>
    ensures { OnOk result (page.new ≡ with_tokens page.old (separated (token.Sign mark.Comma) (map (λ v. token.TyVar v ∷ []) variables.now))) }
{
    for (i, variable) in variables.iter().enumerate() {
        page.separate(i, Token::Sign(Mark::Comma))?;
        page.token(Token::TyVar(*variable))?;
    }
    Ok(())
}

/// The declared name of a type and the variables before it.
fn print_head(page: &mut Page<'_>, head: &TypeHead) -> Result<(), Memory>
    ensures { OnOk result (page.new ≡ with_tokens page.old (head_tokens head.now)) }
{
    let variables = head.vars.as_slice();
    if variables.len() > 1 {
        page.sign(Mark::OpenRound)?;
        print_variables(page, variables)?;
        page.sign(Mark::CloseRound)?;
    } else {
        print_variables(page, variables)?;
    }
    page.name(head.name)
}

fn print_constructor(page: &mut Page<'_>, constructor: &ConBind) -> Result<(), Memory>
    ensures { OnOk result (page.new ≡ with_tokens page.old (constructor_tokens constructor.now)) }
{
    page.name(constructor.name)?;
    if constructor.parts.is_empty() {
        return Ok(());
    }
    page.word(Key::KOf)?;
    print_types(page, constructor.parts.as_slice(), Mark::Star, Seat::Factor)
}

fn print_constructors(page: &mut Page<'_>, constructors: &[ConBind]) -> Result<(), Memory>
    ensures { OnOk result (page.new ≡ with_tokens page.old (separated (token.Sign mark.Bar) (map constructor_tokens constructors.now))) }
{
    for (i, constructor) in constructors.iter().enumerate() {
        page.separate(i, Token::Sign(Mark::Bar))?;
        print_constructor(page, constructor)?;
    }
    Ok(())
}

fn print_binding(page: &mut Page<'_>, binding: &DataBind) -> Result<(), Memory>
    ensures { OnOk result (page.new ≡ with_tokens page.old (binding_tokens binding.now)) }
{
    print_head(page, &binding.head)?;
    page.sign(Mark::Equals)?;
    print_constructors(page, binding.cons.as_slice())
}

fn print_bindings(page: &mut Page<'_>, bindings: &[DataBind]) -> Result<(), Memory>
    ensures { OnOk result (page.new ≡ with_tokens page.old (separated (token.Word key.KAnd) (map binding_tokens bindings.now))) }
{
    for (i, binding) in bindings.iter().enumerate() {
        page.separate(i, Token::Word(Key::KAnd))?;
        print_binding(page, binding)?;
    }
    Ok(())
}

/// The tokens of a val, with its type and its expression where they are there.
fn print_val(
    page: &mut Page<'_>,
    name: u32,
    typed: &Option<TypeExp>,
    defined: &Option<Exp>,
) -> Result<(), Memory>
    ensures { OnOk result (page.new ≡ with_tokens page.old (token.Word key.KVal ∷ token.Name name ∷ typed_tokens typed.now ++ defined_tokens defined.now)) }
{
    page.word(Key::KVal)?;
    page.name(name)?;
    if let Some(tree) = typed {
        page.sign(Mark::Colon)?;
        print_type(page, tree, Seat::Free)?;
    }
    if let Some(exp) = defined {
        page.sign(Mark::Equals)?;
        print_exp(page, exp, Seat::Free)?;
    }
    Ok(())
}

/// The word `relation`, the name and the signature.
fn print_opening(page: &mut Page<'_>, name: u32, sig: &Option<Sig>) -> Result<(), Memory>
    ensures { OnOk result (page.new ≡ with_tokens page.old (token.Word key.KRelation ∷ token.Name name ∷ signed_tokens sig.now)) }
{
    page.word(Key::KRelation)?;
    page.name(name)?;
    if let Some(sig) = sig {
        page.sign(Mark::Colon)?;
        print_signature(page, sig)?;
    }
    Ok(())
}

fn print_relation(
    page: &mut Page<'_>,
    margin: u32,
    name: u32,
    sig: &Option<Sig>,
    rules: &[Rule],
) -> Result<(), Memory>
    ensures { OnOk result (page.new ≡ with_lines page.old (relation_lines margin (token.Word key.KRelation ∷ token.Name name ∷ signed_tokens sig.now) rules.now)) }
{
    page.begin_line(margin)?;
    print_opening(page, name, sig)?;
    if rules.is_empty() {
        return page.end_line();
    }
    page.sign(Mark::Equals)?;
    page.end_line()?;
    print_rules(page, rules)?;
    page.begin_line(margin)?;
    page.word(Key::KEnd)?;
    page.end_line()
}

/// Datatypes that are joined by `and`.
fn print_datatype(page: &mut Page<'_>, bindings: &[DataBind]) -> Result<(), Memory>
    ensures { OnOk result (page.new ≡ with_tokens page.old (datatype_tokens bindings.now)) }
{
    page.word(Key::KDatatype)?;
    print_bindings(page, bindings)
}

fn print_abbreviation(page: &mut Page<'_>, head: &TypeHead, means: &TypeExp) -> Result<(), Memory>
    ensures { OnOk result (page.new ≡ with_tokens page.old (abbreviation_tokens head.now means.now)) }
{
    page.word(Key::KType)?;
    print_head(page, head)?;
    page.sign(Mark::Equals)?;
    print_type(page, means, Seat::Free)
}

fn print_abstract(page: &mut Page<'_>, head: &TypeHead) -> Result<(), Memory>
    ensures { OnOk result (page.new ≡ with_tokens page.old (token.Word key.KAbstype ∷ head_tokens head.now)) }
{
    page.word(Key::KAbstype)?;
    print_head(page, head)
}

/// A declaration behind a margin of so many blanks.
pub fn print_decl(page: &mut Page<'_>, margin: u32, decl: &Decl) -> Result<(), Memory>
    ensures { OnOk result (page.new ≡ with_lines page.old (decl_lines margin decl.now)) }
{
    match decl {
        Decl::Datatype(bindings) => {
            page.begin_line(margin)?;
            print_datatype(page, bindings.as_slice())?;
            page.end_line()
        }
        Decl::Abbrev(head, means) => {
            page.begin_line(margin)?;
            print_abbreviation(page, head, means)?;
            page.end_line()
        }
        Decl::Abstype(head) => {
            page.begin_line(margin)?;
            print_abstract(page, head)?;
            page.end_line()
        }
        Decl::Val(name, _, typed, defined) => {
            page.begin_line(margin)?;
            print_val(page, *name, typed, defined)?;
            page.end_line()
        }
        Decl::Relation(name, _, sig, rules) => print_relation(
            page,
            margin,
            *name,
            sig,
            rules.as_slice(),
        ),
    }
}
