//! Reads a line of words from the left.

ghost use Rattle.rml_words.specs.Forms.{Asks, IsInBounds, IsLine};
ghost use Rattle.rml_words.specs.Reading.{crun, line, make, run, show, show_c, show_stage, stage_of};
ghost use Rattle.rml_words.specs.View.{asked, words_of};
ghost use Rattle.std.specs.Option.{option_map};
ghost use Rattle.std.specs.Prelude.{◌≡◌, IfNone, IfSome};

use crate::command::{Command, Stage};
use crate::files::{arguments, file_at, files_at, one_file, only_files};
use crate::number::number;
use crate::options::{cells_at, run_options, steps_at};
use rml_base::limits;

/// The greatest number of relations of `make`.
const RELATIONS: u64 = 3_000;

#[tactic(auto, unfolding(crate::specs::Reading::stage_of))]
fn stage_of(word: &str) -> Option<Stage>
    ensures { result ≡ stage_of word.now }
{
    match word {
        "types" => Some(Stage::Types),
        "clauses" => Some(Stage::Clauses),
        "factored" => Some(Stage::Factored),
        "trees" => Some(Stage::Trees),
        "cps" => Some(Stage::Cps),
        "simple" => Some(Stage::Simple),
        "code" => Some(Stage::Code),
        _ => None,
    }
}

#[tactic(auto, unfolding(crate::specs::Reading::show_c))]
fn show_c<'a>(words: &'a [String]) -> Option<Command<'a>>
    ensures { option_map asked result ≡ show_c (words_of words.now) }
{
    let (cells, rest) = cells_at(words)?;
    let files = only_files(rest)?;
    Some(Command::ShowC {
        cells: cells.unwrap_or(limits::DEFAULT_CELLS),
        files,
    })
}

#[tactic(auto, unfolding(crate::specs::Reading::show_stage))]
fn show_stage<'a>(word: &str, words: &'a [String]) -> Option<Command<'a>>
    ensures { option_map asked result ≡ show_stage word.now (words_of words.now) }
{
    let stage = stage_of(word)?;
    let files = only_files(words)?;
    Some(Command::Show { stage, files })
}

#[tactic(auto, unfolding(crate::specs::Reading::show))]
fn show<'a>(words: &'a [String]) -> Option<Command<'a>>
    ensures { option_map asked result ≡ show (words_of words.now) }
{
    let (word, rest) = words.split_first()?;
    match word.as_str() {
        "tokens" => Some(Command::ShowTokens {
            file: one_file(rest)?,
        }),
        "tree" => Some(Command::ShowTree {
            file: one_file(rest)?,
        }),
        "c" => show_c(rest),
        stage => show_stage(stage, rest),
    }
}

#[tactic(auto, unfolding(crate::specs::Reading::run))]
fn run<'a>(words: &'a [String]) -> Option<Command<'a>>
    ensures { option_map asked result ≡ run (words_of words.now) }
{
    let (cells, steps, rest) = run_options(words)?;
    let (files, rest) = files_at(rest)?;
    let arguments = arguments(rest)?;
    Some(Command::Run {
        cells,
        steps,
        files,
        arguments,
    })
}

#[tactic(auto, unfolding(crate::specs::Reading::crun))]
fn crun<'a>(words: &'a [String]) -> Option<Command<'a>>
    ensures { option_map asked result ≡ crun (words_of words.now) }
{
    let (steps, rest) = steps_at(words)?;
    let (file, rest) = file_at(rest)?;
    let arguments = arguments(rest)?;
    Some(Command::Crun {
        steps: steps.unwrap_or(limits::DEFAULT_STEPS),
        file,
        arguments,
    })
}

#[tactic(auto, unfolding(crate::specs::Reading::make))]
fn make<'a>(words: &'a [String]) -> Option<Command<'a>>
    ensures { option_map asked result ≡ make (words_of words.now) }
{
    let [word] = words else {
        return None;
    };
    let relations = number(word.as_str(), 1, RELATIONS)?;
    Some(Command::Make {
        relations: relations as u32,
    })
}

#[tactic(auto, unfolding(crate::specs::Reading::line))]
fn line<'a>(words: &'a [String]) -> Option<Command<'a>>
    ensures { option_map asked result ≡ line (words_of words.now) }
{
    let (word, rest) = words.split_first()?;
    match word.as_str() {
        "check" => Some(Command::Check {
            files: only_files(rest)?,
        }),
        "show" => show(rest),
        "run" => run(rest),
        "crun" => crun(rest),
        "make" => make(rest),
        _ => None,
    }
}

/// What a line asks for. The words are those of the command line without the program's name. There is no answer exactly
/// where they are of no form.
pub fn read_words<'a>(words: &'a [String]) -> Option<Command<'a>>
    ensures found { IfSome result (λ command. IsLine (words_of words.now) (asked command)) }
    ensures within { IfSome result (λ command. IsInBounds (asked command)) }
    ensures only { IfNone result ((asks : Asks) → ¬ IsLine (words_of words.now) asks) }
{
    line(words)
}
