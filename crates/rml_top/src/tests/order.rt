//! Two faults on one line: which is named; and reads and writes that fail.

use super::rows::HELLO;
use super::*;

/// A text that ends too early, in its second line.
const SHORT: &str = "module m:\n";

/// A text with a fault of its bytes.
const BAD: &str = "module m: ~\u{7f}";

const TWO: &[&str] = &["check", "a", "b"];

/// What `a` and `b` hold, the note, the status and how many files are read.
const NAMED: [(&str, &str, &str, u8, usize); 5] = [
    (SHORT, BAD, "a:2:1: syntax Unexpected\n", 5, 2),
    (BAD, SHORT, "a:1:11: syntax BadByte\n", 5, 2),
    (HELLO, SHORT, "b:2:1: syntax Unexpected\n", 5, 2),
    ("module m m \u{7f}", SHORT, "a:1:12: syntax BadByte\n", 5, 2),
    ("end", BAD, "a:1:1: syntax Unexpected\n", 5, 2),
];

#[test]
fn the_first_fault_of_the_first_text_is_named(rt: HostRuntime) -> Result<(), Fail> {
    for (a, b, note, code, asked) in &NAMED {
        expect(
            &rt,
            &calm(TWO, &[("a", a.as_bytes()), ("b", b.as_bytes())]),
            &noted(note, *code, *asked),
        )?;
    }
    Ok(())
}

#[test]
fn files_come_before_texts(rt: HostRuntime) -> Result<(), Fail> {
    expect(
        &rt,
        &calm(TWO, &[("a", SHORT.as_bytes())]),
        &noted("b: read fault\n", 3, 2),
    )?;
    expect(
        &rt,
        &calm(TWO, &[("b", SHORT.as_bytes())]),
        &noted("a: read fault\n", 3, 1),
    )?;
    let files: &[(&str, &[u8])] = &[("a", HELLO.as_bytes()), ("b", HELLO.as_bytes())];
    let second = Line {
        failing_read: 2,
        ..calm(&["run", "a", "b"], files)
    };
    expect(&rt, &second, &noted("b: read fault\n", 3, 2))?;
    let unread = Line {
        failing_read: 1,
        ..calm(&["show", "tokens", "a"], files)
    };
    expect(&rt, &unread, &noted("a: read fault\n", 3, 1))
}

#[test]
fn a_failed_write_leaves_a_front(rt: HostRuntime) -> Result<(), Fail> {
    let files: &[(&str, &[u8])] = &[("m", HELLO.as_bytes()), ("b", b"module b:\nend\n")];
    let fault = |out, note, asked| Wanted {
        out,
        note,
        code: 4,
        asked,
    };
    let full = Line {
        room: 2,
        ..calm(&["run", "m"], files)
    };
    expect(&rt, &full, &fault(b"hi", b"write fault\n", 1))?;
    let tokens = Line {
        room: 20,
        ..calm(&["show", "tokens", "b"], files)
    };
    expect(
        &rt,
        &tokens,
        &fault(b"1:1 word module\n1:8 ", b"write fault\n", 1),
    )?;
    let refused = Line {
        failing_out: 1,
        ..calm(&["show", "tree", "b"], files)
    };
    expect(&rt, &refused, &fault(b"", b"write fault\n", 1))?;
    let no_note = Line {
        failing_note: 1,
        ..calm(&["run", "m"], files)
    };
    expect(&rt, &no_note, &fault(b"hi\n", b"", 1))?;
    let usage = Line {
        failing_note: 1,
        ..calm(&["run"], files)
    };
    expect(&rt, &usage, &fault(b"", b"", 0))?;
    let half_note = Line {
        failing_note: 3,
        ..calm(&["run", "n"], files)
    };
    expect(&rt, &half_note, &fault(b"", b"n: ", 1))
}
