//! The note that a call ends with. It takes no memory.

ghost use Rattle.std.specs.Prelude.{◌≡◌, ◌≤◌, ℤ, false};
ghost use Rattle.std.specs.declared.option.Option.{Option};
ghost use Rattle.std.specs.List.{flat_map};
ghost use Rattle.rml_io.specs.Counts.{HasCause, Rose};
ghost use Rattle.rml_top.specs.Names.{names_in};
ghost use Rattle.rml_top.specs.declared.status.Status.TheVariants.{Done};
ghost use Rattle.rml_top.specs.Notes.{limit_at, limit_note, located, name_at, note_of, syntax_note, with_file, with_place, IsNoted, Wrote};

use crate::files::FileNames;
use crate::status::Status;
use itoa::Buffer;
use rml_base::Place;
use rml_io::{Failed, Sink, write_whole};
use rml_stages::{Kind, Which};

/// Writes the note of the status that is due, and answers the status of the call: a note that can't be written is a write
/// fault, whatever the status would have been. `run` says whether the end of a run is noted.
pub fn write_note<N: Sink>(note: &mut N, names: &FileNames, run: bool, due: Status) -> Status
    ensures noted { IsNoted (N.seen note.old) (N.seen note.new) (note_of (names_in names.now) run due) due result }
    // What is no run leaves the note alone, where all was done.
    ensures silent { run ≡ false → (k : Option ℤ) → due ≡ Done k → note.new ≡ note.old }
    ensures later { (N.seen note.old).faults ≤ (N.seen note.new).faults }
{
    match write_text(note, names, run, due) {
        Ok(()) => due,
        Err(Failed) => Status::WriteFault,
    }
}

fn write_text<N: Sink>(
    note: &mut N,
    names: &FileNames,
    run: bool,
    due: Status,
) -> Result<(), Failed>
    ensures wrote { Wrote (N.seen note.old).text (N.seen note.new).text (note_of (names_in names.now) run due) result }
    ensures silent { run ≡ false → (k : Option ℤ) → due ≡ Done k → note.new ≡ note.old }
    ensures cause { HasCause (N.seen note.old).faults (N.seen note.new).faults result }
{
    match due {
        Status::Done(_) if run => write_all(note, &[b"yes\n"]),
        Status::Done(_) => Ok(()),
        Status::Usage => write_all(note, &[b"usage\n"]),
        Status::ReadFault(file) => write_named(note, names.name(file as usize), b"read fault\n"),
        Status::WriteFault => write_all(note, &[b"write fault\n"]),
        Status::Syntax(place, kind) => write_placed(note, names, place, syntax_note(kind)),
        Status::Limit(None, which) => write_all(note, &[limit_note(which)]),
        Status::Limit(Some(place), which) => write_limit(note, names, place, which),
        Status::Memory => write_all(note, &[b"memory\n"]),
        Status::Unbuilt => write_all(note, &[b"unbuilt\n"]),
    }
}

/// The note of a limit that is passed at a place.
fn write_limit<N: Sink>(
    note: &mut N,
    names: &FileNames,
    place: Place,
    which: Which,
) -> Result<(), Failed>
    ensures wrote { Wrote (N.seen note.old).text (N.seen note.new).text (located (names_in names.now) place which (limit_note which)) result }
    ensures cause { HasCause (N.seen note.old).faults (N.seen note.new).faults result }
{
    let text = limit_note(which);
    match which {
        Which::Texts | Which::Arguments => write_all(note, &[text]),
        Which::Bytes | Which::Total => write_named(note, names.name(place.text as usize), text),
        Which::Literal | Which::Nesting | Which::Rules => write_placed(note, names, place, text),
    }
}

/// `FILE: ` and the text.
fn write_named<N: Sink>(note: &mut N, file: &str, text: &[u8]) -> Result<(), Failed>
    ensures wrote { Wrote (N.seen note.old).text (N.seen note.new).text (with_file file.now text.now) result }
    ensures cause { HasCause (N.seen note.old).faults (N.seen note.new).faults result }
{
    write_all(note, &[file.as_bytes(), b": ", text])
}

/// `FILE:L:C: ` and the text.
fn write_placed<N: Sink>(
    note: &mut N,
    names: &FileNames,
    place: Place,
    text: &[u8],
) -> Result<(), Failed>
    ensures wrote { Wrote (N.seen note.old).text (N.seen note.new).text (with_place (name_at (names_in names.now) place.text) place text.now) result }
    ensures cause { HasCause (N.seen note.old).faults (N.seen note.new).faults result }
{
    let mut line = Buffer::new();
    let mut column = Buffer::new();
    write_all(
        note,
        &[
            names.name(place.text as usize).as_bytes(),
            b":",
            line.format(place.line).as_bytes(),
            b":",
            column.format(place.column).as_bytes(),
            b": ",
            text,
        ],
    )
}

/// Writes the pieces one after the other.
fn write_all<N: Sink>(note: &mut N, pieces: &[&[u8]]) -> Result<(), Failed>
    ensures wrote { Wrote (N.seen note.old).text (N.seen note.new).text (flat_map (λ piece. piece.now) pieces.now) result }
    ensures cause { HasCause (N.seen note.old).faults (N.seen note.new).faults result }
{
    for piece in pieces {
        write_whole(note, piece)?;
    }
    Ok(())
}

fn syntax_note(kind: Kind) -> &'static [u8]
    ensures { result.now ≡ syntax_note kind }
{
    match kind {
        Kind::BadByte => b"syntax BadByte\n",
        Kind::OpenComment => b"syntax OpenComment\n",
        Kind::OpenString => b"syntax OpenString\n",
        Kind::BadEscape => b"syntax BadEscape\n",
        Kind::IntRange => b"syntax IntRange\n",
        Kind::Real => b"syntax Real\n",
        Kind::Unexpected => b"syntax Unexpected\n",
    }
}

fn limit_note(which: Which) -> &'static [u8]
    ensures { result.now ≡ limit_note which }
{
    match which {
        Which::Texts => b"limit texts 64\n",
        Which::Arguments => b"limit arguments 64\n",
        Which::Bytes => b"limit bytes 1048576\n",
        Which::Total => b"limit total 4194304\n",
        Which::Literal => b"limit literal 65535\n",
        Which::Nesting => b"limit nesting 200\n",
        Which::Rules => b"limit rules 4096\n",
    }
}
