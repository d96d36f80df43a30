//! Code that is generic over files and sinks, at the fakes and at the host, and what no clause can say: that calls succeed.

ghost use Rattle.std.specs.Prelude.{◌≡◌, ◌+◌, ◌≤◌, ℕ, List, Some, IfSome, OnOk, IsErrOf, IfOk, if◌then◌else◌, length, vec_len};
ghost use Rattle.std.specs.FinMap as fin_map;
ghost use Rattle.rml_io.specs.Counts.{raised, Rose};
ghost use Rattle.rml_io.specs.Sink.{and_bytes};

use crate::limited::read_to_limit;
use crate::{Failed, FileErr, Files, HostFiles, HostSink, MemFiles, MemSink, Sink, write_whole};
use std::alloc::Global;
use std::io::{ErrorKind, Read, Write};
use std::process::Abort;
use std::test::Fail;
use std::{fs, io};

#[derive(Clone, Copy, Debug, PartialEq, Eq)]
enum CopyErr {
    Read(FileErr),
    Write,
}

/// Copies a file to a sink. It knows both by their traits alone.
fn copy<F: Files, S: Sink>(
    alloc: Global,
    files: &mut F,
    name: &str,
    sink: &mut S,
) -> Result<(), CopyErr>
    ensures copied { OnOk result (IfSome (F.seen files.old).held (λ held. (bytes : List ℕ)
        × (fin_map.get held name.now ≡ Some bytes) × ((S.seen sink.new).text ≡ and_bytes (S.seen sink.old).text bytes))) }
    ensures read_fault { IsErrOf result (CopyErr.Read FileErr.Failed) → Rose (F.seen files.old).faults (F.seen files.new).faults }
    ensures write_fault { IsErrOf result CopyErr.Write → Rose (S.seen sink.old).faults (S.seen sink.new).faults }
    ensures calls { (F.seen files.new).calls ≡ raised (F.seen files.old).calls 1 }
    ensures held { (F.seen files.new).held ≡ (F.seen files.old).held }
{
    let bytes = match files.read(alloc, name, 8) {
        Ok(bytes) => bytes,
        Err(refusal) => return Err(CopyErr::Read(refusal)),
    };
    match write_whole(sink, bytes.as_slice()) {
        Ok(()) => Ok(()),
        Err(Failed) => Err(CopyErr::Write),
    }
}

/// One copy, whose answer and all that is written by then are compared.
fn copy_once(
    rt: &impl Abort,
    alloc: Global,
    files: &mut MemFiles,
    sink: &mut MemSink,
    name: &str,
    wanted: Result<(), CopyErr>,
    written: &[u8],
) {
    let got = copy(alloc, files, name, sink);
    assert_eq!(rt; got, wanted, "{name}");
    assert_eq!(rt; sink.bytes(), written, "{name}");
}

#[test]
fn copies_from_fake_to_fake(rt: HostRuntime) -> Result<(), Fail> {
    let alloc = rt.alloc();
    let mut files = MemFiles::new(alloc);
    files.add("a", b"one")?;
    files.add("b", b"four4")?;
    files.add("long", b"nine99999")?;
    files.add("a", b"two")?;
    files.fail_at(4)?;
    let mut sink = MemSink::with_room(alloc, 9)?;
    sink.fail_at(2)?;
    let (failed, too_long) = (
        Err(CopyErr::Read(FileErr::Failed)),
        Err(CopyErr::Read(FileErr::TooLong)),
    );
    copy_once(&rt, alloc, &mut files, &mut sink, "a", Ok(()), b"two");
    copy_once(&rt, alloc, &mut files, &mut sink, "c", failed, b"two");
    copy_once(&rt, alloc, &mut files, &mut sink, "long", too_long, b"two");
    copy_once(&rt, alloc, &mut files, &mut sink, "a", failed, b"two");
    copy_once(
        &rt,
        alloc,
        &mut files,
        &mut sink,
        "b",
        Err(CopyErr::Write),
        b"two",
    );
    copy_once(&rt, alloc, &mut files, &mut sink, "b", Ok(()), b"twofour4");
    copy_once(
        &rt,
        alloc,
        &mut files,
        &mut sink,
        "a",
        Err(CopyErr::Write),
        b"twofour4t",
    );
    let names = files.asked();
    assert_eq!(rt; names.len(), 7);
    assert_eq!(rt; names[2].as_str(), "long");
    assert_eq!(rt; names[6].as_str(), "a");
    Ok(())
}

#[test]
fn reads_what_is_held_up_to_the_limit(rt: HostRuntime) -> Result<(), Fail> {
    let alloc = rt.alloc();
    let mut files = MemFiles::new(alloc);
    files.add("m.rml", b"abc")?;
    assert_eq!(rt;
        files.read(alloc, "m.rml", 3)?.as_slice(),
        b"abc".as_slice()
    );
    assert_eq!(rt; files.read(alloc, "m.rml", 2).err(), Some(FileErr::TooLong));
    assert_eq!(rt; files.read(alloc, "M.RML", 3).err(), Some(FileErr::Failed));
    files.add("m.rml", b"")?;
    assert_eq!(rt; files.read(alloc, "m.rml", 0)?.as_slice(), b"".as_slice());
    Ok(())
}

#[test]
fn a_sink_keeps_a_front_of_what_does_not_fit(rt: HostRuntime) -> Result<(), Fail> {
    let alloc = rt.alloc();
    let mut sink = MemSink::with_room(alloc, 1)?;
    assert_eq!(rt; write_whole(&mut sink, b"ab"), Err(Failed));
    assert_eq!(rt; sink.bytes(), b"a".as_slice());
    assert_eq!(rt; write_whole(&mut sink, b""), Ok(()));
    assert_eq!(rt; sink.write(b"b"), Ok(0));
    Ok(())
}

/// Gives or takes at most two bytes at a time, and fails once it has no more.
#[derive(Drop)]
struct Slow {
    bytes: Vec<u8>,
    left: usize,
}

impl Read for Slow {
    fn read(&mut self, buf: &mut [u8]) -> io::Result<usize> {
        let count = buf.len().min(self.left).min(2);
        if count == 0 && !buf.is_empty() {
            return Err(io::Error::from(ErrorKind::Other));
        }
        for byte in &mut buf[..count] {
            *byte = b'x';
        }
        self.left -= count;
        Ok(count)
    }
}

impl Write for Slow {
    fn write(&mut self, buf: &[u8]) -> io::Result<usize> {
        let count = buf.len().min(self.left).min(2);
        if count == 0 && !buf.is_empty() {
            return Err(io::Error::from(ErrorKind::Other));
        }
        self.bytes.extend_from_slice(&buf[..count])?;
        self.left -= count;
        Ok(count)
    }

    fn flush(&mut self) -> io::Result<()> {
        Ok(())
    }
}

fn make_slow(alloc: Global, left: usize) -> Slow {
    Slow {
        bytes: Vec::new(alloc),
        left,
    }
}

#[test]
fn faults_in_mid_stream_are_faults(rt: HostRuntime) -> Result<(), Fail> {
    let alloc = rt.alloc();
    let mut writer = make_slow(alloc, 5);
    let mut sink = HostSink::new(&mut writer);
    assert_eq!(rt; write_whole(&mut sink, b"abcdefg"), Err(Failed));
    assert_eq!(rt; write_whole(&mut sink, b"h"), Err(Failed));
    drop(sink);
    assert_eq!(rt; writer.bytes.as_slice(), b"abcde".as_slice());
    let mut taken = 0;
    assert_eq!(rt;
        read_to_limit(alloc, &mut make_slow(alloc, 5), 9, &mut taken).err(),
        Some(FileErr::Failed)
    );
    assert_eq!(rt; taken, 5);
    assert_eq!(rt;
        read_to_limit(alloc, &mut make_slow(alloc, 5), 4, &mut taken).err(),
        Some(FileErr::TooLong)
    );
    assert_eq!(rt; taken, 10);
    Ok(())
}

#[test]
fn reads_more_than_one_piece(rt: HostRuntime) -> Result<(), Fail> {
    let alloc = rt.alloc();
    let text = vec![in alloc; 7u8; 20_000]?;
    let mut taken = 0;
    let whole = read_to_limit(alloc, &mut text.as_slice(), 20_000, &mut taken)?;
    assert!(rt; whole.as_slice() == text.as_slice());
    assert_eq!(rt; taken, 20_000);
    let refused = read_to_limit(alloc, &mut text.as_slice(), 19_999, &mut taken);
    assert_eq!(rt; refused.err(), Some(FileErr::TooLong));
    assert_eq!(rt; taken, 40_000);
    Ok(())
}

/// As many bytes as a host lets a name have.
const LONG_NAME: &str =
    "nnnnnnnnnnnnnnnnnnnnnnnnnnnnnnnnnnnnnnnnnnnnnnnnnnnnnnnnnnnnnnnnnnnnnnnnnnnnnnnnnnnnnnnnnnnnnnnnnnnn\
ooooooooooooooooooooooooooooooooooooooooooooooooooooooooooooooooooooooooooooooooooooooooooooooooooooooooooooooooooooooooooooooooooooooooooooooooooooooooooo";

#[test]
fn reads_a_file_of_the_host(rt: HostRuntime) -> Result<(), Fail> {
    let alloc = rt.alloc();
    for name in ["rml_io_reads_a_file_of_the_host.txt", LONG_NAME] {
        fs::write(&rt, name, b"hello".as_slice())?;
        let mut files = HostFiles::new(&rt);
        let whole = files.read(alloc, name, 5);
        let refused = files.read(alloc, name, 4);
        fs::remove_file(&rt, name)?;
        assert_eq!(rt; whole?.as_slice(), b"hello".as_slice());
        assert_eq!(rt; refused.err(), Some(FileErr::TooLong));
        assert_eq!(rt; files.read(alloc, name, 5).err(), Some(FileErr::Failed));
    }
    let mut files = HostFiles::new(&rt);
    assert_eq!(rt; files.read(alloc, ".", 5).err(), Some(FileErr::Failed));
    Ok(())
}

#[test]
fn writes_to_a_stream_of_the_host(rt: HostRuntime) -> Result<(), Fail> {
    let mut sink = HostSink::new(rt.stdout());
    assert_eq!(rt; write_whole(&mut sink, b"written\n"), Ok(()));
    Ok(())
}
