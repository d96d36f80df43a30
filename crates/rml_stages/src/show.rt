//! What is shown of one text alone.

ghost use Rattle.rml_base.specs.Answers.{Explains, Gives, Refuses};
ghost use Rattle.rml_base.specs.declared.limits.TheConstants.{BYTES};
ghost use Rattle.rml_stages.specs.Reading.{IsRefused};
ghost use Rattle.rml_stages.specs.Shown.{ShowsTokens, ShowsTree};
ghost use Rattle.rml_stages.specs.declared.refusal.Refusal.{Refusal};
ghost use Rattle.rml_stages.specs.declared.refusal.Refusal.TheVariants as refusal;
ghost use Rattle.std.specs.Prelude.{◌≡◌, ℕ, ◌≤◌, List, [], length};

use crate::read::read;
use crate::refusal::Refusal;
use rml_base::Names;
use rml_print::{print_tokens, print_tree};
use std::alloc::Global;

/// The number of a text that stands alone.
const ALONE: u32 = 0;

/// The listing of a text's tokens, or why the text is refused: as `read_text` refuses it, so the tokens are those of a text
/// that has a tree.
pub fn show_tokens(alloc: Global, bytes: &[u8]) -> Result<Vec<u8>, Refusal>
    requires { length bytes.now ≤ BYTES }
    ensures answer { Explains refusal.Memory result (λ v. ShowsTokens bytes.now v.items) (IsRefused 0 bytes.now []) }
    ensures shows { (out : List ℕ) → ShowsTokens bytes.now out → Gives refusal.Memory result (λ v. v.items ≡ out) }
    ensures refuses { (r : Refusal) → IsRefused 0 bytes.now [] r → Refuses refusal.Memory result (λ q. q ≡ r) }
{
    let mut names = Names::new(alloc);
    let (spots, _) = read(alloc, ALONE, bytes, &mut names)?;
    Ok(print_tokens(alloc, &spots, &names)?)
}

/// A text in the one layout of its tree, or why the text is refused.
pub fn show_tree(alloc: Global, bytes: &[u8]) -> Result<Vec<u8>, Refusal>
    requires { length bytes.now ≤ BYTES }
    ensures answer { Explains refusal.Memory result (λ v. ShowsTree bytes.now v.items) (IsRefused 0 bytes.now []) }
    ensures shows { (out : List ℕ) → ShowsTree bytes.now out → Gives refusal.Memory result (λ v. v.items ≡ out) }
    ensures refuses { (r : Refusal) → IsRefused 0 bytes.now [] r → Refuses refusal.Memory result (λ q. q ≡ r) }
{
    let mut names = Names::new(alloc);
    let (_, text) = read(alloc, ALONE, bytes, &mut names)?;
    Ok(print_tree(alloc, &text, &names)?)
}
