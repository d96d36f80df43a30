//! The top call, which does all that the program does.

ghost use Rattle.std.specs.Prelude.{◌≡◌, ◌≤◌, ℤ, false};
ghost use Rattle.std.specs.declared.option.Option.{Option};
ghost use Rattle.rml_words.specs.Forms.{Asks, IsLine};
ghost use Rattle.rml_words.specs.View.{words_of};
ghost use Rattle.rml_top.specs.Answers.{IsAnswered};
ghost use Rattle.rml_top.specs.Line.{is_run, Means, Reads};
ghost use Rattle.rml_top.specs.declared.status.Status.TheVariants.{Done};

use crate::files::FileNames;
use crate::line::{is_run, text_names};
use crate::note::write_note;
use crate::perform::perform;
use crate::status::Status;
use rml_io::{Files, Sink};
use rml_words::read_words;
use std::alloc::Global;

/// Does what the words ask for, which are those of the command line without the program's name: it reads from `files`,
/// writes to `out`, and ends with a line on `note`.
///
/// Built are `show tokens`, `show tree`, and `run FILE` for a text of the first form. Every other line is refused as far as
/// its words and texts are, and then it is `Unbuilt`.
pub fn rmlc<F: Files, O: Sink, N: Sink>(
    alloc: Global,
    words: &[String],
    files: &mut F,
    out: &mut O,
    note: &mut N,
) -> Status
    // What the words ask for, what is due after the reading and writing, then the note, and each answer by itself.
    ensures answered { (line : Option Asks) × Means (words_of words.now) line × IsAnswered (record {
      work = record {
        words = words_of words.now;
        line = line;
        files = F.seen files.old;
        files' = F.seen files.new;
        out = O.seen out.old;
        out' = O.seen out.new;
      };
      note = N.seen note.old;
      note' = N.seen note.new;
    }) result }
    // Files of which no text is read are left alone.
    ensures unread { ((asks : Asks) → IsLine (words_of words.now) asks → ¬ Reads asks) → files.new ≡ files.old }
    // What is no run leaves the note alone, where all was done.
    ensures silent { (asks : Asks) → IsLine (words_of words.now) asks → is_run asks ≡ false → (k : Option ℤ) → result ≡ Done k → note.new ≡ note.old }
    // What is held stays, and counts never fall.
    ensures held { (F.seen files.new).held ≡ (F.seen files.old).held }
    ensures later { ((F.seen files.old).faults ≤ (F.seen files.new).faults) × ((O.seen out.old).faults ≤ (O.seen out.new).faults) × ((N.seen note.old).faults ≤ (N.seen note.new).faults) }
{
    match read_words(words) {
        None => write_note(note, &FileNames::Each(&[]), false, Status::Usage),
        Some(command) => {
            let due = perform(alloc, words, &command, files, out);
            write_note(note, &text_names(&command), is_run(&command), due)
        }
    }
}
