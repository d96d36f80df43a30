//! Whole lines, each over few small files.

use super::*;

pub const HELLO: &str = "module m:
  relation main: string list => ()
end
relation main: string list => () =
  rule print \"hi\\n\"
       --
       main(_)
end
";

const HELLO_TREE: &str = "module m:
  relation main: string list => ()
end
relation main: string list => () =
  rule print(\"hi\\n\")
       --
       main(_)
end
";

const REAL: &str = "module m:
  relation main: string list => int
end
relation main: string list => int =
  axiom main(_) => 1.5
end
";

const GREAT: &str = "module m:
  relation main: string list => int
end
relation main: string list => int =
  axiom main(_) => 1073741824
end
";

const GREATEST: &str = "module m:
  relation main: string list => int
end
relation main: string list => int =
  axiom main(_) => 1073741823
end
";

const CUT: &str = "module m:
  relation main: string list => ()
end
relation main: string list => () =
  rule print \"hi\\n\"
       --
";

const B: &str = "module b:\nend\n";

const B_TOKENS: &str = "1:1 word module\n1:8 name b\n1:9 sign :\n2:1 word end\n";

/// Texts by the names of their files.
const FILES: [(&str, &str); 11] = [
    ("m.rml", HELLO),
    ("real.rml", REAL),
    ("great.rml", GREAT),
    ("greatest.rml", GREATEST),
    ("cut.rml", CUT),
    ("b.rml", B),
    ("e.rml", ""),
    ("c.rml", "(* (* *)"),
    ("-", "module \"a\n"),
    ("byte", "\u{7f}"),
    ("escape", "\n\"\\q\""),
];

/// The words of a line over those files, the output, the note, the status and how many files are read.
type Row = (
    &'static [&'static str],
    &'static str,
    &'static str,
    u8,
    usize,
);

fn expect_rows(rt: &(impl Abort + AllocGlobal), rows: &[Row]) -> Result<(), Fail> {
    let mut files = Vec::new(rt.alloc());
    for (name, text) in &FILES {
        files.push((*name, text.as_bytes()))?;
    }
    for (words, out, note, code, asked) in rows {
        let wanted = Wanted {
            out: out.as_bytes(),
            note: note.as_bytes(),
            code: *code,
            asked: *asked,
        };
        expect(rt, &calm(words, files.as_slice()), &wanted)?;
    }
    Ok(())
}

const GIVEN: [Row; 3] = [
    (&["run", "m.rml"], "hi\n", "yes\n", 0, 1),
    (&["show", "tree", "m.rml"], HELLO_TREE, "", 0, 1),
    (&["show", "tokens", "b.rml"], B_TOKENS, "", 0, 1),
];

#[test]
fn tokens_trees_and_the_first_form_are_printed(rt: HostRuntime) -> Result<(), Fail> {
    expect_rows(&rt, &GIVEN)
}

const NOT_BUILT: [Row; 11] = [
    (&["check", "m.rml"], "", "unbuilt\n", 13, 1),
    (&["show", "types", "m.rml"], "", "unbuilt\n", 13, 1),
    (
        &["show", "c", "--cells", "5", "m.rml"],
        "",
        "unbuilt\n",
        13,
        1,
    ),
    (&["run", "--steps", "5", "m.rml"], "", "unbuilt\n", 13, 1),
    (&["run", "m.rml", "--"], "", "unbuilt\n", 13, 1),
    (&["run", "m.rml", "m.rml"], "", "unbuilt\n", 13, 2),
    (&["run", "greatest.rml"], "", "unbuilt\n", 13, 1),
    (&["check", "greatest.rml"], "", "unbuilt\n", 13, 1),
    (&["check", "b.rml"], "", "unbuilt\n", 13, 1),
    (&["crun", "m.rml"], "", "unbuilt\n", 13, 0),
    (&["make", "5"], "", "unbuilt\n", 13, 0),
];

#[test]
fn other_commands_are_not_built(rt: HostRuntime) -> Result<(), Fail> {
    expect_rows(&rt, &NOT_BUILT)
}

const FAULTY: [Row; 12] = [
    (
        &["check", "e.rml"],
        "",
        "e.rml:1:1: syntax Unexpected\n",
        5,
        1,
    ),
    (
        &["run", "e.rml"],
        "",
        "e.rml:1:1: syntax Unexpected\n",
        5,
        1,
    ),
    (
        &["run", "cut.rml"],
        "",
        "cut.rml:7:1: syntax Unexpected\n",
        5,
        1,
    ),
    (
        &["show", "tree", "cut.rml"],
        "",
        "cut.rml:7:1: syntax Unexpected\n",
        5,
        1,
    ),
    (
        &["show", "tokens", "cut.rml"],
        "",
        "cut.rml:7:1: syntax Unexpected\n",
        5,
        1,
    ),
    (
        &["check", "real.rml"],
        "",
        "real.rml:5:20: syntax Real\n",
        5,
        1,
    ),
    (
        &["check", "great.rml"],
        "",
        "great.rml:5:20: syntax IntRange\n",
        5,
        1,
    ),
    (
        &["show", "code", "great.rml"],
        "",
        "great.rml:5:20: syntax IntRange\n",
        5,
        1,
    ),
    (
        &["show", "tokens", "c.rml"],
        "",
        "c.rml:1:1: syntax OpenComment\n",
        5,
        1,
    ),
    (&["check", "-"], "", "-:1:8: syntax OpenString\n", 5, 1),
    (&["check", "byte"], "", "byte:1:1: syntax BadByte\n", 5, 1),
    (
        &["check", "escape"],
        "",
        "escape:2:2: syntax BadEscape\n",
        5,
        1,
    ),
];

#[test]
fn faults_are_named_with_their_places(rt: HostRuntime) -> Result<(), Fail> {
    expect_rows(&rt, &FAULTY)
}

const FORMLESS: [Row; 8] = [
    (&[], "", "usage\n", 2, 0),
    (&["run"], "", "usage\n", 2, 0),
    (&["run", ""], "", "usage\n", 2, 0),
    (&["run", "--cells", "0", "m.rml"], "", "usage\n", 2, 0),
    (
        &["run", "--steps", "5", "--steps", "6", "m.rml"],
        "",
        "usage\n",
        2,
        0,
    ),
    (&["run", "--steps=5", "m.rml"], "", "usage\n", 2, 0),
    (&["make", "3001"], "", "usage\n", 2, 0),
    (&["show", "tokens", "b.rml", "b.rml"], "", "usage\n", 2, 0),
];

#[test]
fn words_of_no_form_read_nothing(rt: HostRuntime) -> Result<(), Fail> {
    expect_rows(&rt, &FORMLESS)
}
