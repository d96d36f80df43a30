//! Texts of the first form, and others.

use super::rows::HELLO;
use super::*;

/// Texts of the first form, and what they print.
const PRINTED: [(&str, &str); 7] = [
    (HELLO, "hi\n"),
    (
        "module m:relation main:string list=>()end relation main=rule print(\"a\")&print\"b\"--main(_)end",
        "ab",
    ),
    (
        "module x'1_:\r\n\trelation main : string list => ( )\r\nend\r\nrelation main = rule print \"\"\r\n-------- main ( _ )\r\nend",
        "",
    ),
    (
        "module m: relation main: string list => () end relation main: string list => () = rule print \"\\\\n\\\"(*--\\n~ \" & print(\"c\") & print \"c\" -- main(_) end",
        "\\n\"(*--\n~ cc",
    ),
    (
        "module main: relation main: string list => () end relation main = rule print \"print\" -- main(_) end",
        "print",
    ),
    (
        "module endx: relation main: string list => () end relation main = rule print \"1\"--main(_)end",
        "1",
    ),
    (
        "module Rml: relation main: string list => () end relation main = rule print \"2\" --- main(_) end",
        "2",
    ),
];

/// Texts that are none of the first form, the note and the status: they are refused, or their run is not built.
const OTHERS: [(&str, &str, u8); 17] = [
    ("module m", "m:1:9: syntax Unexpected\n", 5),
    (
        "module rml: relation main: string list => () end relation main = rule print \"a\" -- main(_) end",
        "unbuilt\n",
        13,
    ),
    (
        "module _: relation main: string list => () end relation main = rule print \"a\" -- main(_) end",
        "m:1:8: syntax Unexpected\n",
        5,
    ),
    (
        "module m: (* c *) relation main: string list => () end relation main = rule print \"a\" -- main(_) end",
        "unbuilt\n",
        13,
    ),
    (
        "module m: relation main: string list => () end relation main = rule print \"a\" -- main(_) end (*",
        "m:1:94: syntax OpenComment\n",
        5,
    ),
    (
        "module m: relation main: string list => () end relation main = rule print \"\\t\" -- main(_) end",
        "unbuilt\n",
        13,
    ),
    (
        "module m: relation main: string list => () end relation main = rule print \"\\065\" -- main(_) end",
        "unbuilt\n",
        13,
    ),
    (
        "module m: relation main: string list => () end relation main = rule print \"\u{e9}\" -- main(_) end",
        "unbuilt\n",
        13,
    ),
    (
        "module m: relation main: string list => () end relation main = rule print \"a -- main(_) end",
        "m:1:75: syntax OpenString\n",
        5,
    ),
    (
        "module m: relation main: string list => () end relation main = rule print \"a\" - main(_) end",
        "m:1:79: syntax BadByte\n",
        5,
    ),
    (
        "module m: relation main: string list => () end relation main = rule print \"a\" -- main(_) end end",
        "m:1:94: syntax Unexpected\n",
        5,
    ),
    (
        "module m: relation main: string list => () end relation main = rule print \"a\" -- main(_)",
        "m:1:89: syntax Unexpected\n",
        5,
    ),
    (
        "module m: relation main: string list => () end relation main = rule print \"a\" -- main(x) end",
        "unbuilt\n",
        13,
    ),
    (
        "module m: relation main: string list => () end relation main = rule print x -- main(_) end",
        "unbuilt\n",
        13,
    ),
    (
        "module m: relation main: string list => () end relation main = rule print \"a\" & -- main(_) end",
        "m:1:81: syntax Unexpected\n",
        5,
    ),
    (
        "module m: relation main: string list => () end relation main = rule print((\"a\")) -- main(_) end",
        "unbuilt\n",
        13,
    ),
    (
        "module m: relation main: string list => () end relation main = axiom main(_) end",
        "unbuilt\n",
        13,
    ),
];

#[test]
fn texts_of_the_first_form_are_printed(rt: HostRuntime) -> Result<(), Fail> {
    for (text, out) in &PRINTED {
        let wanted = Wanted {
            out: out.as_bytes(),
            note: b"yes\n",
            code: 0,
            asked: 1,
        };
        expect(
            &rt,
            &calm(&["run", "m"], &[("m", text.as_bytes())]),
            &wanted,
        )?;
    }
    Ok(())
}

#[test]
fn other_texts_are_not(rt: HostRuntime) -> Result<(), Fail> {
    for (text, note, code) in &OTHERS {
        expect(
            &rt,
            &calm(&["run", "m"], &[("m", text.as_bytes())]),
            &noted(note, *code, 1),
        )?;
    }
    Ok(())
}
