//! Each limit, at its greatest value and one beyond it.

use super::rows::HELLO;
use super::*;

fn repeated(alloc: Global, word: &'static str, count: usize) -> Result<Vec<&'static str>, Fail> {
    let mut words = Vec::new(alloc);
    for _ in 0..count {
        words.push(word)?;
    }
    Ok(words)
}

/// The words in front, and then one word so many times.
fn line_of(
    alloc: Global,
    front: &[&'static str],
    word: &'static str,
    count: usize,
) -> Result<Vec<&'static str>, Fail> {
    let mut words = Vec::from_slice(alloc, front)?;
    words.extend_from_slice(repeated(alloc, word, count)?.as_slice())?;
    Ok(words)
}

/// The front, so many times the middle, and the end.
fn text_of(alloc: Global, parts: &[(&str, usize)]) -> Result<Vec<u8>, Fail> {
    let mut text = Vec::new(alloc);
    for (part, count) in parts {
        for _ in 0..*count {
            text.extend_from_slice(part.as_bytes())?;
        }
    }
    Ok(text)
}

#[test]
fn texts_and_arguments_are_counted_before_any_read(rt: HostRuntime) -> Result<(), Fail> {
    let alloc = rt.alloc();
    let files: &[(&str, &[u8])] = &[("m", HELLO.as_bytes())];
    let few = line_of(alloc, &["check"], "m", 64)?;
    expect(
        &rt,
        &calm(few.as_slice(), files),
        &noted("unbuilt\n", 13, 64),
    )?;
    let many = line_of(alloc, &["check"], "m", 65)?;
    expect(
        &rt,
        &calm(many.as_slice(), files),
        &noted("limit texts 64\n", 8, 0),
    )?;
    let many = line_of(alloc, &["show", "simple"], "none", 65)?;
    expect(
        &rt,
        &calm(many.as_slice(), files),
        &noted("limit texts 64\n", 8, 0),
    )?;
    let few = line_of(alloc, &["run", "m", "--"], "a", 64)?;
    expect(
        &rt,
        &calm(few.as_slice(), files),
        &noted("unbuilt\n", 13, 1),
    )?;
    let many = line_of(alloc, &["run", "m", "--"], "a", 65)?;
    expect(
        &rt,
        &calm(many.as_slice(), files),
        &noted("limit arguments 64\n", 8, 0),
    )?;
    let mut both = line_of(alloc, &["run"], "m", 65)?;
    both.extend_from_slice(line_of(alloc, &["--"], "a", 65)?.as_slice())?;
    expect(
        &rt,
        &calm(both.as_slice(), files),
        &noted("limit texts 64\n", 8, 0),
    )
}

#[test]
fn bytes_are_counted_file_by_file(rt: HostRuntime) -> Result<(), Fail> {
    let alloc = rt.alloc();
    let mut text = Vec::from_slice(alloc, HELLO.as_bytes())?;
    text.resize(limits::BYTES, b' ')?;
    let whole = Wanted {
        out: b"hi\n",
        note: b"yes\n",
        code: 0,
        asked: 1,
    };
    expect(&rt, &calm(&["run", "m"], &[("m", text.as_slice())]), &whole)?;
    let four = &["check", "m", "m", "m", "m"];
    expect(
        &rt,
        &calm(four, &[("m", text.as_slice())]),
        &noted("unbuilt\n", 13, 4),
    )?;
    let five = &["check", "m", "m", "m", "m", "e", "n"];
    let files: &[(&str, &[u8])] = &[("m", text.as_slice()), ("e", b"x")];
    expect(
        &rt,
        &calm(five, files),
        &noted("e: limit total 4194304\n", 8, 5),
    )?;
    text.push(b' ')?;
    let long: &[(&str, &[u8])] = &[("m", text.as_slice()), ("a", b"x")];
    expect(
        &rt,
        &calm(&["run", "m"], long),
        &noted("m: limit bytes 1048576\n", 8, 1),
    )?;
    expect(
        &rt,
        &calm(&["check", "a", "m", "n"], long),
        &noted("m: limit bytes 1048576\n", 8, 2),
    )
}

const FRONT: &str = "module m:
  relation main: string list => ()
end
relation main: string list => () =
";

const END: &str = "       --
       main(_)
end
";

/// Checks the text that the parts make.
fn expect_text(
    rt: &(impl Abort + AllocGlobal),
    parts: &[(&str, usize)],
    wanted: &Wanted,
) -> Result<(), Fail> {
    let text = text_of(rt.alloc(), parts)?;
    expect(
        rt,
        &calm(&["check", "m.rml"], &[("m.rml", text.as_slice())]),
        wanted,
    )
}

#[test]
fn brackets_are_counted(rt: HostRuntime) -> Result<(), Fail> {
    let front = "  rule let y = ";
    let few = &[
        (FRONT, 1),
        (front, 1),
        ("(", 200),
        ("0", 1),
        (")", 200),
        ("\n", 1),
        (END, 1),
    ];
    expect_text(&rt, few, &noted("unbuilt\n", 13, 1))?;
    let many = &[
        (FRONT, 1),
        (front, 1),
        ("(", 201),
        ("0", 1),
        (")", 201),
        ("\n", 1),
        (END, 1),
    ];
    expect_text(&rt, many, &noted("m.rml:5:216: limit nesting 200\n", 8, 1))
}

#[test]
fn rules_are_counted(rt: HostRuntime) -> Result<(), Fail> {
    let few = &[(FRONT, 1), ("  axiom main(_)\n", 4_096), ("end\n", 1)];
    expect_text(&rt, few, &noted("unbuilt\n", 13, 1))?;
    let many = &[(FRONT, 1), ("  axiom main(_)\n", 4_097), ("end\n", 1)];
    expect_text(&rt, many, &noted("m.rml:4101:3: limit rules 4096\n", 8, 1))
}

#[test]
fn bytes_of_literals_are_counted(rt: HostRuntime) -> Result<(), Fail> {
    let few = &[
        (FRONT, 1),
        ("  rule print \"", 1),
        ("a", 65_535),
        ("\"\n", 1),
        (END, 1),
    ];
    expect_text(&rt, few, &noted("unbuilt\n", 13, 1))?;
    let many = &[
        (FRONT, 1),
        ("  rule print \"", 1),
        ("a", 65_536),
        ("\"\n", 1),
        (END, 1),
    ];
    expect_text(&rt, many, &noted("m.rml:5:14: limit literal 65535\n", 8, 1))
}
