//! Texts, and the first refusal among them.

ghost use Rattle.rml_base.specs.Answers.{Explains, Gives, Refuses};
ghost use Rattle.rml_base.specs.Numbering.{GrowsBy};
ghost use Rattle.rml_base.specs.declared.limits.TheConstants.{BYTES, TEXTS};
ghost use Rattle.rml_stages.specs.Sources.{contents};
ghost use Rattle.rml_stages.specs.Reading.{AreRead, IsFirstRefusal, IsRead, IsReadAs, IsRefused};
ghost use Rattle.rml_stages.specs.declared.refusal.Refusal.{Refusal};
ghost use Rattle.rml_stages.specs.declared.refusal.Refusal.TheVariants as refusal;
ghost use Rattle.rml_syntax.specs.declared.texts.Text.{Text};
ghost use Rattle.std.specs.Prelude.{◌≡◌, ℕ, ◌*◌, ◌≤◌, ◌^◌, All, List, length};

use crate::refusal::Refusal;
use crate::source::Source;
use rml_base::Names;
use rml_lex::{end_place, lex};
use rml_parse::parse;
use rml_syntax::{Spot, Text};
use std::alloc::Global;

/// The tree of a text, or why it is refused: its first lexical fault, or the first fault of its tokens. A number stands for
/// the text in its places.
///
/// The names of the text are numbered by `names`, which may have grown after a refusal too; old numbers stand.
pub fn read_text(
    alloc: Global,
    number: u32,
    bytes: &[u8],
    names: &mut Names,
) -> Result<Text, Refusal>
    requires size { length bytes.now ≤ BYTES }
    requires room { length names.old ≤ 2 ^ 31 }
    ensures answer { Explains refusal.Memory result (λ t. IsRead number bytes.now names.old t names.new) (IsRefused number bytes.now names.old) }
    ensures reads { (t : Text) (new : List (List ℕ)) → IsRead number bytes.now names.old t new → Gives refusal.Memory result (λ u. (u ≡ t) × (names.new ≡ new)) }
    ensures refuses { (r : Refusal) → IsRefused number bytes.now names.old r → Refuses refusal.Memory result (λ q. q ≡ r) }
    ensures names { GrowsBy (length bytes.now) names.old names.new }
{
    let (_, text) = read(alloc, number, bytes, names)?;
    Ok(text)
}

/// The tokens of a text, and their tree.
pub fn read(
    alloc: Global,
    number: u32,
    bytes: &[u8],
    names: &mut Names,
) -> Result<(Vec<Spot>, Text), Refusal>
    requires size { length bytes.now ≤ BYTES }
    requires room { length names.old ≤ 2 ^ 31 }
    ensures answer { Explains refusal.Memory result (λ v. IsReadAs number bytes.now names.old v.0.items v.1 names.new) (IsRefused number bytes.now names.old) }
    ensures names { GrowsBy (length bytes.now) names.old names.new }
{
    let spots = lex(alloc, number, bytes, names)?;
    let text = parse(alloc, &spots, end_place(number, bytes))?;
    Ok((spots, text))
}

/// The trees of texts, which are numbered from 0, or the first refusal: that of the first text that is refused. The names
/// of all texts are numbered together, in their order.
///
/// After a refusal `names` may have grown, by at most so many names as a text may have bytes, for each text; old numbers stand.
pub fn read_texts(
    alloc: Global,
    sources: &[Source],
    names: &mut Names,
) -> Result<Vec<Text>, Refusal>
    requires count { length sources.now ≤ TEXTS }
    requires size { All (λ s. length s.bytes ≤ BYTES) sources.now }
    requires room { length names.old ≤ 2 ^ 30 }
    ensures answer { Explains refusal.Memory result (λ v. AreRead 0 (contents sources.now) names.old v.items names.new) (IsFirstRefusal 0 (contents sources.now) names.old) }
    ensures reads { (trees : List Text) (new : List (List ℕ)) → AreRead 0 (contents sources.now) names.old trees new → Gives refusal.Memory result (λ v. (v.items ≡ trees) × (names.new ≡ new)) }
    ensures refuses { (r : Refusal) → IsFirstRefusal 0 (contents sources.now) names.old r → Refuses refusal.Memory result (λ q. q ≡ r) }
    ensures names { GrowsBy (BYTES * length sources.now) names.old names.new }
{
    read_all(alloc, sources, names)
}

/// The same, text by text.
fn read_all(alloc: Global, sources: &[Source], names: &mut Names) -> Result<Vec<Text>, Refusal>
    requires count { length sources.now ≤ TEXTS }
    requires size { All (λ s. length s.bytes ≤ BYTES) sources.now }
    requires room { length names.old ≤ 2 ^ 30 }
    ensures answer { Explains refusal.Memory result (λ v. AreRead 0 (contents sources.now) names.old v.items names.new) (IsFirstRefusal 0 (contents sources.now) names.old) }
    ensures names { GrowsBy (BYTES * length sources.now) names.old names.new }
{
    let mut texts = Vec::new(alloc);
    for (number, source) in sources.iter().enumerate() {
        let text = read_text(alloc, number as u32, source.bytes.as_slice(), names)?;
        texts.push(text)?;
    }
    Ok(texts)
}
