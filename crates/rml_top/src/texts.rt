//! What the texts of a line give, once all are read from their files.

ghost use Rattle.std.specs.Prelude.{◌≡◌, ◌≤◌, ◌<◌, ℕ, List, [], ◌∷◌, length, All, Ok, Err, Some, None, IfOk, IfErr, IfSome, IfNone};
ghost use Rattle.rml_base.specs.Answers.{Explains};
ghost use Rattle.rml_base.specs.declared.limits.TheConstants.{BYTES, TEXTS};
ghost use Rattle.rml_stages.specs.Sources.{contents};
ghost use Rattle.rml_stages.specs.declared.refusal.Refusal.TheVariants as refusal;
ghost use Rattle.rml_words.specs.View.{asked, words_of};
ghost use Rattle.rml_top.specs.Due.{AreAccepted, Outputs, PrintsFirst, AreRefused};
ghost use Rattle.rml_top.specs.Line.{text_names};

use crate::line::is_plain_run;
use crate::text::printed;
use rml_base::{Memory, Names};
use rml_stages::{Refusal, Source, read_texts, show_tokens, show_tree};
use rml_words::Command;
use std::alloc::Global;

/// What the command gives over the texts of its files. There is no output where that is not built.
///
/// # Errors
/// The first fault of the texts.
pub fn output(
    alloc: Global,
    words: &[String],
    command: &Command,
    sources: &[Source],
) -> Result<Option<Vec<u8>>, Refusal>
    requires count { length sources.now ≤ TEXTS }
    requires size { All (λ s. length s.bytes ≤ BYTES) sources.now }
    requires each { length sources.now ≡ length (text_names (asked command.now)) }
    ensures answer { Explains refusal.Memory result
        (λ given. IfSome given (λ text. Outputs (words_of words.now) (asked command.now) (contents sources.now) text.items))
        (AreRefused (contents sources.now)) }
    ensures unbuilt { IfOk result (λ given. IfNone given (AreAccepted (contents sources.now)
        × ((out : List ℕ) → ¬ Outputs (words_of words.now) (asked command.now) (contents sources.now) out))) }
{
    match command {
        Command::ShowTokens { .. } => with_output(show_tokens(alloc, only_text(sources))),
        Command::ShowTree { .. } => with_output(show_tree(alloc, only_text(sources))),
        Command::Run { .. } if is_plain_run(words) => run_first_form(alloc, sources),
        _ => without_output(accept(alloc, sources)),
    }
}

/// The bytes of the one text.
fn only_text(sources: &[Source]) -> &[u8]
    requires one { length sources.now ≡ 1 }
    requires size { All (λ s. length s.bytes ≤ BYTES) sources.now }
    ensures alone { contents sources.now ≡ result.now ∷ [] }
    ensures size { length result.now ≤ BYTES }
{
    sources[0].bytes.as_slice()
}

fn with_output(given: Result<Vec<u8>, Refusal>) -> Result<Option<Vec<u8>>, Refusal>
    ensures ok { IfOk given (λ text. result ≡ Ok (Some text)) }
    ensures err { IfErr given (λ why. result ≡ Err why) }
{
    match given {
        Ok(text) => Ok(Some(text)),
        Err(why) => Err(why),
    }
}

fn without_output(accepted: Result<(), Refusal>) -> Result<Option<Vec<u8>>, Refusal>
    ensures ok { IfOk accepted (λ _. result ≡ Ok None) }
    ensures err { IfErr accepted (λ why. result ≡ Err why) }
{
    match accepted {
        Ok(()) => Ok(None),
        Err(why) => Err(why),
    }
}

/// What `run FILE` prints, where that is the text of the file.
fn run_first_form(alloc: Global, sources: &[Source]) -> Result<Option<Vec<u8>>, Refusal>
    requires count { length sources.now ≤ TEXTS }
    requires size { All (λ s. length s.bytes ≤ BYTES) sources.now }
    ensures answer { Explains refusal.Memory result
        (λ given. IfSome given (λ text. AreAccepted (contents sources.now) × PrintsFirst (contents sources.now) text.items))
        (AreRefused (contents sources.now)) }
    ensures unbuilt { IfOk result (λ given. IfNone given (AreAccepted (contents sources.now) × ((out : List ℕ) → ¬ PrintsFirst (contents sources.now) out))) }
{
    match accept(alloc, sources) {
        Ok(()) => match printed_alone(alloc, sources) {
            Ok(text) => Ok(text),
            Err(_) => Err(Refusal::Memory),
        },
        Err(why) => Err(why),
    }
}

/// What the text prints, where there is one alone, of the first form.
fn printed_alone(alloc: Global, sources: &[Source]) -> Result<Option<Vec<u8>>, Memory>
    requires size { All (λ s. length s.bytes ≤ BYTES) sources.now }
    ensures given { IfOk result (λ given. IfSome given (λ text. PrintsFirst (contents sources.now) text.items)) }
    ensures unbuilt { IfOk result (λ given. IfNone given ((out : List ℕ) → ¬ PrintsFirst (contents sources.now) out)) }
{
    if sources.len() == 1 {
        printed(alloc, only_text(sources))
    } else {
        Ok(None)
    }
}

/// Reads the texts, and keeps none of their trees.
fn accept(alloc: Global, sources: &[Source]) -> Result<(), Refusal>
    requires count { length sources.now ≤ TEXTS }
    requires size { All (λ s. length s.bytes ≤ BYTES) sources.now }
    ensures { Explains refusal.Memory result (λ _. AreAccepted (contents sources.now)) (AreRefused (contents sources.now)) }
{
    let mut names = Names::new(alloc);
    match read_texts(alloc, sources, &mut names) {
        Ok(_) => Ok(()),
        Err(why) => Err(why),
    }
}
