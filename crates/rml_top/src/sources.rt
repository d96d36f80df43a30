//! Reads the texts of a line, file by file.

ghost use Rattle.std.specs.Prelude.{◌≡◌, ◌≤◌, length, IfOk, IfErr};
ghost use Rattle.rml_base.specs.declared.limits.TheConstants.{TEXTS, TOTAL};
ghost use Rattle.rml_top.specs.Names.{names_in};
ghost use Rattle.rml_top.specs.Reading.{Next, NextStopped, why_not_read};
ghost use Rattle.rml_top.specs.Sources.{AreSources, Stopped};
ghost use Rattle.rml_top.specs.declared.sources.NotRead.TheVariants.{Memory};

use crate::files::FileNames;
use rml_base::{Bytes, limits};
use rml_io::{FileErr, Files};
use rml_stages::Source;
use std::alloc::{AllocError, AllocFailed, Global};

/// Why the texts were not read. The numbers are those of files, from 0.
#[derive(Clone, Copy, Debug, PartialEq, Eq, Drop)]
pub enum NotRead {
    /// The file could not be read.
    Fault(u32),
    /// The file has too many bytes.
    Bytes(u32),
    /// With that file, the texts have too many bytes together.
    Total(u32),
    Memory,
}

impl From<AllocError> for NotRead {
    ghost from_gives = { λ _ e. e ≡ Memory };

    fn from(_: AllocError) -> NotRead {
        NotRead::Memory
    }
}

impl<T: Drop> From<AllocFailed<T>> for NotRead {
    ghost from_gives = { λ _ e. e ≡ Memory };

    fn from(_: AllocFailed<T>) -> NotRead {
        NotRead::Memory
    }
}

/// The text of one file, behind others that have `before` bytes together.
fn read_source<F: Files>(
    alloc: Global,
    name: &str,
    number: u32,
    before: usize,
    files: &mut F,
) -> Result<Source, NotRead>
    requires { before ≤ TOTAL }
    ensures next { IfOk result (λ source. Next name.now before
        (F.seen files.old)
        (F.seen files.new) source) }
    ensures stopped { IfErr result (NextStopped name.now number before
        (F.seen files.old)
        (F.seen files.new)) }
    ensures held { (F.seen files.new).held ≡ (F.seen files.old).held }
    ensures later { (F.seen files.old).faults ≤ (F.seen files.new).faults }
{
    match files.read(alloc, name, limits::BYTES) {
        Ok(bytes) => {
            if limits::TOTAL - before < bytes.len() {
                return Err(NotRead::Total(number));
            }
            let name = Vec::from_slice(alloc, name.as_bytes())?;
            Ok(Source {
                name: Bytes::of(name),
                bytes: Bytes::of(bytes),
            })
        }
        Err(why) => Err(not_read(number, why)),
    }
}

/// Why the text of a file is not read, by why its file gave no bytes.
fn not_read(number: u32, why: FileErr) -> NotRead
    ensures { result ≡ why_not_read number why }
{
    match why {
        FileErr::Failed => NotRead::Fault(number),
        FileErr::TooLong => NotRead::Bytes(number),
        FileErr::Memory => NotRead::Memory,
    }
}

/// The texts of the files in their order, each within the limit on bytes, and all together within theirs.
///
/// # Errors
/// The first that comes, file by file: a read that fails, a file that is too long, and then a total that is too great.
pub fn read_sources<F: Files>(
    alloc: Global,
    names: &FileNames,
    files: &mut F,
) -> Result<Vec<Source>, NotRead>
    requires { length (names_in names.now) ≤ TEXTS }
    ensures read { IfOk result (λ sources. AreSources (names_in names.now)
        (F.seen files.old)
        (F.seen files.new) sources.items) }
    ensures stopped { IfErr result (Stopped (names_in names.now)
        (F.seen files.old)
        (F.seen files.new)) }
    ensures held { (F.seen files.new).held ≡ (F.seen files.old).held }
    ensures later { (F.seen files.old).faults ≤ (F.seen files.new).faults }
{
    let mut sources = Vec::new(alloc);
    let mut bytes = 0;
    for k in 0..names.len() {
        let source = match read_source(alloc, names.name(k), k as u32, bytes, files) {
            Ok(source) => source,
            Err(why) => return Err(why),
        };
        bytes += source.bytes.as_slice().len();
        sources.push(source)?;
    }
    Ok(sources)
}
