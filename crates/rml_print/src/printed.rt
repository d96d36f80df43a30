//! What is handed out: the text of a tree, and that of a signature.

ghost use Rattle.rml_print.specs.Printed.{printed_sig, printed_text};
ghost use Rattle.rml_print.specs.ReadsBack.{AreReadBack};
ghost use Rattle.rml_print.specs.Source.{IsOfSomeText};
ghost use Rattle.std.specs.Prelude.{◌≡◌, ℕ, IfOk};

use crate::page::Page;
use crate::texts::print_text;
use crate::types::print_signature;
use rml_base::{Memory, Names};
use rml_syntax::{Sig, Text};
use std::alloc::Global;

/// The text of a tree, in the one layout. Where it is the tree of some text, its bytes are read as this tree again.
pub fn print_tree(alloc: Global, text: &Text, names: &Names) -> Result<Vec<u8>, Memory>
    ensures layout { IfOk result (λ v. v.items ≡ printed_text names.now text.now) }
    ensures reads_back { IfOk result (λ v. (number : ℕ) → IsOfSomeText names.now text.now → AreReadBack number names.now v.items text.now) }
{
    let mut page = Page::new(alloc, names);
    print_text(&mut page, text)?;
    Ok(page.finish())
}

/// The text of a signature, on one line without its end.
pub fn print_sig(alloc: Global, sig: &Sig, names: &Names) -> Result<Vec<u8>, Memory>
    ensures { IfOk result (λ v. v.items ≡ printed_sig names.now sig.now) }
{
    let mut page = Page::new(alloc, names);
    print_signature(&mut page, sig)?;
    Ok(page.finish())
}
