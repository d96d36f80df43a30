//! What the words of a line ask for, as far as the program does it, and what is due by them alone.

ghost use Rattle.std.specs.Prelude.{◌≡◌, ◌≤◌, ◌<◌, ℕ, List, Some, None, [], IfSome, IfNone, length};
ghost use Rattle.std.specs.declared.option.Option.{Option};
ghost use Rattle.rml_io.specs.Files.{Held};
ghost use Rattle.rml_words.specs.View.{asked, words_of};
ghost use Rattle.rml_top.specs.Due.{IsDue};
ghost use Rattle.rml_top.specs.Ends.{read_by};
ghost use Rattle.rml_top.specs.Line.{arguments_of, is_plain_run, is_run, takes_texts, text_names, Reads};
ghost use Rattle.rml_top.specs.Names.{names_in};

use crate::files::FileNames;
use crate::status::Status;
use rml_base::limits;
use rml_stages::Which;
use rml_words::Command;

/// The files whose texts are read. A C text is not among them.
pub fn text_names<'a>(command: &Command<'a>) -> FileNames<'a>
    ensures { names_in result ≡ text_names (asked command.now) }
{
    match command {
        Command::ShowTokens { file } | Command::ShowTree { file } => FileNames::One(file),
        Command::Check { files }
        | Command::Show { files, .. }
        | Command::ShowC { files, .. }
        | Command::Run { files, .. } => FileNames::Each(files),
        Command::Crun { .. } | Command::Make { .. } => FileNames::Each(&[]),
    }
}

/// How many arguments are given to a run.
fn count_arguments(command: &Command) -> usize
    ensures { result ≡ length (arguments_of (asked command.now)) }
{
    match command {
        Command::Run { arguments, .. } | Command::Crun { arguments, .. } => arguments.len(),
        _ => 0,
    }
}

/// Whether the command begins with texts. Of the others nothing is built.
fn takes_texts(command: &Command) -> bool
    ensures { result ≡ takes_texts (asked command.now) }
{
    !matches!(command, Command::Crun { .. } | Command::Make { .. })
}

/// Whether the end of the command is noted when all was done.
pub fn is_run(command: &Command) -> bool
    ensures { result ≡ is_run (asked command.now) }
{
    matches!(command, Command::Run { .. } | Command::Crun { .. })
}

/// Whether the words of a line are `run FILE`, without an option and without `--`.
pub fn is_plain_run(words: &[String]) -> bool
    ensures { result ≡ is_plain_run (words_of words.now) }
{
    matches!(words, [word, _] if word.as_str() == "run")
}

/// What is due by the words alone, before any file is read.
pub fn by_words(command: &Command) -> Option<Status>
    ensures due { IfSome result (λ status. (held : Option Held) (words : List (List ℕ)) → IsDue held words (Some (asked command.now)) status []) }
    ensures unread { IfSome result (λ status. read_by (length (text_names (asked command.now))) status ≡ 0) }
    ensures reads { IfNone result (Reads (asked command.now)) }
{
    if !takes_texts(command) {
        Some(Status::Unbuilt)
    } else if text_names(command).len() > limits::TEXTS {
        Some(Status::Limit(None, Which::Texts))
    } else if count_arguments(command) > limits::ARGUMENTS {
        Some(Status::Limit(None, Which::Arguments))
    } else {
        None
    }
}
