//! Does what a command asks for, but for the note.

ghost use Rattle.std.specs.Prelude.{◌≡◌, ◌≤◌, Some, length, All};
ghost use Rattle.rml_base.specs.declared.limits.TheConstants.{BYTES, TEXTS};
ghost use Rattle.rml_stages.specs.Sources.{contents};
ghost use Rattle.rml_words.specs.View.{asked, words_of};
ghost use Rattle.rml_top.specs.Ends.{IsPerformed};
ghost use Rattle.rml_top.specs.Line.{text_names, Reads};
ghost use Rattle.rml_top.specs.Performed.{Performed};
ghost use Rattle.rml_lex.specs.Places.{start};
ghost use Rattle.rml_top.specs.Stops.{status_of};

use crate::line::{by_words, text_names};
use crate::sources::{NotRead, read_sources};
use crate::status::Status;
use crate::texts::output;
use rml_base::Place;
use rml_io::{Files, Sink, write_whole};
use rml_stages::{Refusal, Source, Which};
use rml_words::Command;
use std::alloc::Global;

/// Reads the files of the command and writes what it gives. The words are those of its line.
pub fn perform<F: Files, O: Sink>(
    alloc: Global,
    words: &[String],
    command: &Command,
    files: &mut F,
    out: &mut O,
) -> Status
    ensures performed { IsPerformed (record {
      words = words_of words.now;
      line = Some (asked command.now);
      files = F.seen files.old;
      files' = F.seen files.new;
      out = O.seen out.old;
      out' = O.seen out.new;
    }) result }
    ensures unread { ¬ Reads (asked command.now) → files.new ≡ files.old }
    ensures held { (F.seen files.new).held ≡ (F.seen files.old).held }
    ensures later { ((F.seen files.old).faults ≤ (F.seen files.new).faults) × ((O.seen out.old).faults ≤ (O.seen out.new).faults) }
{
    match by_words(command) {
        Some(due) => due,
        None => match read_sources(alloc, &text_names(command), files) {
            Ok(sources) => answer(alloc, words, command, sources.as_slice(), out),
            Err(why) => stopped(why),
        },
    }
}

/// Writes what the command gives over the texts of its files.
fn answer<O: Sink>(
    alloc: Global,
    words: &[String],
    command: &Command,
    sources: &[Source],
    out: &mut O,
) -> Status
    requires count { length sources.now ≤ TEXTS }
    requires size { All (λ s. length s.bytes ≤ BYTES) sources.now }
    requires each { length sources.now ≡ length (text_names (asked command.now)) }
    ensures performed { Performed (words_of words.now) (asked command.now) (contents sources.now) (O.seen out.old) (O.seen out.new) result }
    ensures later { (O.seen out.old).faults ≤ (O.seen out.new).faults }
{
    match output(alloc, words, command, sources) {
        Ok(Some(text)) => match write_whole(out, text.as_slice()) {
            Ok(()) => Status::Done(None),
            Err(_) => Status::WriteFault,
        },
        Ok(None) => Status::Unbuilt,
        Err(Refusal::Limit(place, which)) => Status::Limit(place, which),
        Err(Refusal::Syntax(place, kind)) => Status::Syntax(place, kind),
        Err(Refusal::Memory) => Status::Memory,
    }
}

/// The status where the texts could not be read from their files. A file with too many bytes is refused at its start.
fn stopped(why: NotRead) -> Status
    ensures { result ≡ status_of why }
{
    match why {
        NotRead::Fault(file) => Status::ReadFault(file),
        NotRead::Bytes(file) => Status::Limit(Some(start(file)), Which::Bytes),
        NotRead::Total(file) => Status::Limit(Some(start(file)), Which::Total),
        NotRead::Memory => Status::Memory,
    }
}

fn start(text: u32) -> Place
    ensures { result ≡ start text }
{
    Place {
        text,
        line: 1,
        column: 1,
    }
}
