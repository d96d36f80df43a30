//! Texts: an interface two blanks in, and a body.

ghost use Rattle.rml_print.specs.Texts.{decl_lines, part_lines, text_lines, uses_line};
ghost use Rattle.rml_print.specs.Written.{with_lines};
ghost use Rattle.std.specs.List.{flat_map};
ghost use Rattle.std.specs.Prelude.{◌≡◌, map, OnOk};

use crate::declarations::print_decl;
use crate::page::Page;
use rml_base::Memory;
use rml_syntax::{Decl, Key, Lit, Mark, Text, Token, Uses};

/// Blanks before what stands in an interface.
const INTERFACE_MARGIN: u32 = 2;

/// Blanks before what stands in a body.
const BODY_MARGIN: u32 = 0;

fn print_uses(page: &mut Page<'_>, margin: u32, uses: &[Uses]) -> Result<(), Memory>
    ensures { OnOk result (page.new ≡ with_lines page.old (map (uses_line margin) uses.now)) }
{
    for one in uses {
        page.begin_line(margin)?;
        page.word(Key::KWith)?;
        page.token(Token::Lit(Lit::Text(one.file)))?;
        page.end_line()?;
    }
    Ok(())
}

fn print_decls(page: &mut Page<'_>, margin: u32, decls: &[Decl]) -> Result<(), Memory>
    ensures { OnOk result (page.new ≡ with_lines page.old (flat_map (decl_lines margin) decls.now)) }
{
    for decl in decls {
        print_decl(page, margin, decl)?;
    }
    Ok(())
}

/// `with`s, and then declarations.
fn print_part(page: &mut Page<'_>, margin: u32, uses: &[Uses], decls: &[Decl]) -> Result<(), Memory>
    ensures { OnOk result (page.new ≡ with_lines page.old (part_lines margin uses.now decls.now)) }
{
    print_uses(page, margin, uses)?;
    print_decls(page, margin, decls)
}

pub fn print_text(page: &mut Page<'_>, text: &Text) -> Result<(), Memory>
    ensures { OnOk result (page.new ≡ with_lines page.old (text_lines text.now)) }
{
    page.begin_line(0)?;
    page.word(Key::KModule)?;
    page.name(text.module)?;
    page.sign(Mark::Colon)?;
    page.end_line()?;
    print_part(
        page,
        INTERFACE_MARGIN,
        text.uses.as_slice(),
        text.specs.as_slice(),
    )?;
    page.begin_line(0)?;
    page.word(Key::KEnd)?;
    page.end_line()?;
    print_part(
        page,
        BODY_MARGIN,
        text.body_uses.as_slice(),
        text.decls.as_slice(),
    )
}
