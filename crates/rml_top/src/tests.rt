//! The top call over files and sinks in memory: what is read, written and answered, byte for byte.

use super::*;
use rml_base::limits;
use rml_io::{MemFiles, MemSink};
use std::alloc::Global;
use std::process::Abort;
use std::test::Fail;

mod first_form;
mod limits_passed;
mod order;
mod rows;

/// A line of words over files, and what it comes to. The read and the writes of these numbers fail; the output takes so
/// many bytes.
#[derive(Clone, Copy)]
struct Line<'a> {
    words: &'a [&'a str],
    files: &'a [(&'a str, &'a [u8])],
    failing_read: u64,
    failing_out: u64,
    failing_note: u64,
    room: usize,
}

/// What was written to both sinks, the status, and how many files were asked for.
#[derive(Clone, Copy)]
struct Wanted<'a> {
    out: &'a [u8],
    note: &'a [u8],
    code: u8,
    asked: usize,
}

fn words_of(alloc: Global, words: &[&str]) -> Result<Vec<String>, Fail> {
    let mut all = Vec::new(alloc);
    for word in words {
        all.push(String::from_str(alloc, word)?)?;
    }
    Ok(all)
}

fn files_of(alloc: Global, line: &Line) -> Result<MemFiles, Fail> {
    let mut files = MemFiles::new(alloc);
    for (name, bytes) in line.files {
        files.add(name, bytes)?;
    }
    files.fail_at(line.failing_read)?;
    Ok(files)
}

fn expect(rt: &(impl Abort + AllocGlobal), line: &Line, wanted: &Wanted) -> Result<(), Fail> {
    let alloc = rt.alloc();
    let words = words_of(alloc, line.words)?;
    let mut files = files_of(alloc, line)?;
    let mut out = MemSink::with_room(alloc, line.room)?;
    let mut note = MemSink::with_room(alloc, 100)?;
    out.fail_at(line.failing_out)?;
    note.fail_at(line.failing_note)?;
    let status = rmlc(alloc, words.as_slice(), &mut files, &mut out, &mut note);
    assert_eq!(rt; note.bytes(), wanted.note);
    assert_eq!(rt; out.bytes(), wanted.out);
    assert_eq!(rt; status.code(), wanted.code);
    assert_eq!(rt; files.asked().len(), wanted.asked);
    Ok(())
}

/// A line where nothing fails.
fn calm<'a>(words: &'a [&'a str], files: &'a [(&'a str, &'a [u8])]) -> Line<'a> {
    Line {
        words,
        files,
        failing_read: 0,
        failing_out: 0,
        failing_note: 0,
        room: 1_000,
    }
}

/// A line that ends with nothing but a note.
fn noted<'a>(note: &'a str, code: u8, asked: usize) -> Wanted<'a> {
    Wanted {
        out: b"",
        note: note.as_bytes(),
        code,
        asked,
    }
}
