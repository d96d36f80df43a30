//! Whole texts through the public calls: what is read, what is refused and where, and what is shown.

ghost use Rattle.std.specs.Prelude.{◌≤◌, All, IfOk, length};

mod rows;

use crate::{Kind, Refusal, Source, Which, read_texts, show_tokens, show_tree};
use rml_base::{Bytes, Memory, Names, Place};
use rml_syntax::Text;
use std::alloc::{AllocError, Global};
use std::test::Fail;

const fn place(text: u32, line: u32, column: u32) -> Place {
    Place { text, line, column }
}

/// The bytes of a text in the layout of its tree, or why it is refused. Texts in the tests are no longer than a call takes.
fn printed(alloc: Global, text: &[u8]) -> Result<Vec<u8>, Refusal> {
    if text.len() > 1_048_576 {
        return Err(Refusal::Memory);
    }
    show_tree(alloc, text)
}

/// The tokens of a text, one on a line, or why it is refused.
fn listed(alloc: Global, text: &str) -> Result<Vec<u8>, Refusal> {
    if text.len() > 1_048_576 {
        return Err(Refusal::Memory);
    }
    show_tokens(alloc, text.as_bytes())
}

/// Why a text is refused, if it is.
fn refusal(alloc: Global, text: &str) -> Option<Refusal> {
    printed(alloc, text.as_bytes()).err()
}

fn source(alloc: Global, text: &str) -> Result<Source, Memory> {
    Ok(Source {
        name: Bytes::of(Vec::new(alloc)),
        bytes: Bytes::of(text.as_bytes().to_vec(alloc)?),
    })
}

/// Sources of texts that a call takes.
fn sources(alloc: Global, texts: &[&str]) -> Result<Vec<Source>, Memory>
    ensures { IfOk result (λ v. All (λ s. length s.bytes ≤ 1_048_576) v.items) }
{
    let mut sources = Vec::new(alloc);
    for text in texts {
        let made = source(alloc, text)?;
        if made.bytes.as_slice().len() > 1_048_576 {
            return Err(Memory);
        }
        sources.push(made)?;
    }
    Ok(sources)
}

/// The trees of a few texts, or the first refusal.
fn trees(alloc: Global, texts: &[&str], names: &mut Names) -> Result<Vec<Text>, Refusal> {
    let sources = sources(alloc, texts)?;
    if sources.len() > 64 || names.len() > 1_000_000 {
        return Err(Refusal::Memory);
    }
    read_texts(alloc, &sources, names)
}

/// Why texts are refused, if they are.
fn first_refusal(alloc: Global, texts: &[&str]) -> Option<Refusal> {
    let mut names = Names::new(alloc);
    trees(alloc, texts, &mut names).err()
}

fn repeat(text: &mut String, piece: &str, count: usize) -> Result<(), AllocError> {
    for _ in 0..count {
        text.push_str(piece)?;
    }
    Ok(())
}

/// A text whose fifth line begins `  rule`, with a piece so many times inside.
fn long_rule(
    alloc: Global,
    front: &str,
    piece: (&str, usize),
    middle: &str,
    other: (&str, usize),
) -> Result<String, AllocError> {
    let mut text = String::new(alloc);
    text.push_str(
        "module m:\n  relation main: string list => ()\nend\nrelation main: string list => () =\n",
    )?;
    text.push_str(front)?;
    repeat(&mut text, piece.0, piece.1)?;
    text.push_str(middle)?;
    repeat(&mut text, other.0, other.1)?;
    text.push_str("\n       --\n       main(_)\nend\n")?;
    Ok(text)
}

/// A text of one relation with so many rules, the first in line 5.
fn many_rules(alloc: Global, count: usize) -> Result<String, AllocError> {
    let mut text = String::new(alloc);
    text.push_str(
        "module m:\n  relation main: string list => ()\nend\nrelation main: string list => () =\n",
    )?;
    repeat(&mut text, "  axiom main(_)\n", count)?;
    text.push_str("end\n")?;
    Ok(text)
}

#[test]
fn each_kind_of_fault_at_its_place(rt: HostRuntime) -> Result<(), Fail> {
    for (text, refusal_due) in [
        (
            "module m:\n  $",
            Refusal::Syntax(place(0, 2, 3), Kind::BadByte),
        ),
        (
            "(* (* *)",
            Refusal::Syntax(place(0, 1, 1), Kind::OpenComment),
        ),
        (
            "module m:\n  \"ab\n",
            Refusal::Syntax(place(0, 2, 3), Kind::OpenString),
        ),
        (
            "module m:\n  \"a\\q\"",
            Refusal::Syntax(place(0, 2, 5), Kind::BadEscape),
        ),
        (
            "module m:\n  1073741824",
            Refusal::Syntax(place(0, 2, 3), Kind::IntRange),
        ),
        (
            "module m:\n  1.5",
            Refusal::Syntax(place(0, 2, 3), Kind::Real),
        ),
        ("", Refusal::Syntax(place(0, 1, 1), Kind::Unexpected)),
        (
            "module m:\nend\nend\n",
            Refusal::Syntax(place(0, 3, 1), Kind::Unexpected),
        ),
    ] {
        assert_eq!(rt; refusal(rt.alloc(), text), Some(refusal_due), "in {text}");
    }
    Ok(())
}

#[test]
fn both_sides_of_each_limit(rt: HostRuntime) -> Result<(), Fail> {
    let alloc = rt.alloc();
    let deepest = long_rule(alloc, "  rule let y = ", ("(", 200), "0", (")", 200))?;
    assert_eq!(rt; refusal(alloc, deepest.as_str()), None);
    let deeper = long_rule(alloc, "  rule let y = ", ("(", 201), "0", (")", 201))?;
    let too_deep = Refusal::Limit(Some(place(0, 5, 216)), Which::Nesting);
    assert_eq!(rt; refusal(alloc, deeper.as_str()), Some(too_deep));
    let longest = long_rule(alloc, "  rule print \"", ("a", 65_535), "\"", ("", 0))?;
    assert_eq!(rt; refusal(alloc, longest.as_str()), None);
    let longer = long_rule(alloc, "  rule print \"", ("a", 65_536), "\"", ("", 0))?;
    let too_long = Refusal::Limit(Some(place(0, 5, 14)), Which::Literal);
    assert_eq!(rt; refusal(alloc, longer.as_str()), Some(too_long));
    let most = many_rules(alloc, 4_096)?;
    assert_eq!(rt; refusal(alloc, most.as_str()), None);
    let more = many_rules(alloc, 4_097)?;
    let too_many = Refusal::Limit(Some(place(0, 4_101, 3)), Which::Rules);
    assert_eq!(rt; refusal(alloc, more.as_str()), Some(too_many));
    Ok(())
}

#[test]
fn the_first_of_two_faults(rt: HostRuntime) -> Result<(), Fail> {
    let plain = "module a:\nend\n";
    for (first, second, refusal_due) in [
        (plain, "$", Refusal::Syntax(place(1, 1, 1), Kind::BadByte)),
        (
            plain,
            "end",
            Refusal::Syntax(place(1, 1, 1), Kind::Unexpected),
        ),
        (
            "end\n$",
            plain,
            Refusal::Syntax(place(0, 2, 1), Kind::BadByte),
        ),
        (
            "module a:\n",
            "$",
            Refusal::Syntax(place(0, 2, 1), Kind::Unexpected),
        ),
        (
            "end",
            "end",
            Refusal::Syntax(place(0, 1, 1), Kind::Unexpected),
        ),
    ] {
        assert_eq!(rt;
            first_refusal(rt.alloc(), &[first, second]),
            Some(refusal_due),
            "in {first}, {second}"
        );
    }
    Ok(())
}

#[test]
fn whole_texts_are_read(rt: HostRuntime) -> Result<(), Fail> {
    let mut names = Names::new(rt.alloc());
    let texts = trees(rt.alloc(), &rows::ALL, &mut names)?;
    assert_eq!(rt; texts.len(), rows::ALL.len());
    Ok(())
}

#[test]
fn names_are_numbered_together(rt: HostRuntime) -> Result<(), Fail> {
    let mut names = Names::new(rt.alloc());
    let texts = trees(
        rt.alloc(),
        &["module a:\nend\n", "module b:\n  with \"a\"\nend\n"],
        &mut names,
    )?;
    let numbers: Vec<u32> = texts.iter().map(|text| text.module).collect(rt.alloc())?;
    assert_eq!(rt; numbers.as_slice(), [0, 1].as_slice());
    assert_eq!(rt; names.len(), 2);
    Ok(())
}

/// Whether what is printed of a text prints again the same.
fn prints_again(alloc: Global, text: &str) -> Result<bool, Refusal> {
    let once = printed(alloc, text.as_bytes())?;
    let again = printed(alloc, &once)?;
    Ok(once.as_slice() == again.as_slice())
}

#[test]
fn what_is_printed_reads_back(rt: HostRuntime) -> Result<(), Fail> {
    for text in rows::ALL {
        assert!(rt; prints_again(rt.alloc(), text)?, "of {text}");
    }
    Ok(())
}

/// A text in which a bracket opens 200 times, each with what stands before it and behind it.
fn deep(
    alloc: Global,
    front: &str,
    open: &str,
    middle: &str,
    tail: &str,
) -> Result<String, AllocError> {
    let mut text = String::from_str(alloc, front)?;
    repeat(&mut text, open, 200)?;
    text.push_str(middle)?;
    repeat(&mut text, if open == "[" { "]" } else { ")" }, 200)?;
    text.push_str(tail)?;
    Ok(text)
}

/// Lists, goals under `not`, relation types, and patterns under `as`: read, printed, and let go.
#[test]
fn the_deepest_trees(rt: HostRuntime) -> Result<(), Fail> {
    for (front, open, middle, tail) in [
        ("module m:\nend\nval x = ", "[", "", "\n"),
        (
            "module m:\nend\nrelation f =\n  rule ",
            "not (",
            "x = 1",
            "\n  -- f\nend\n",
        ),
        ("module m:\n  type t = ", "(a => ", "a", "\nend\n"),
        (
            "module m:\nend\nrelation f =\n  axiom f",
            "(x as ",
            "y",
            "\nend\n",
        ),
    ] {
        let text = deep(rt.alloc(), front, open, middle, tail)?;
        assert!(rt; prints_again(rt.alloc(), text.as_str())?, "of {text}");
    }
    Ok(())
}

#[test]
fn hello_in_its_layout(rt: HostRuntime) -> Result<(), Fail> {
    let layout = "module m:
  relation main: string list => ()
end
relation main: string list => () =
  rule print(\"hi\\n\")
       --
       main(_)
end
";
    assert_eq!(rt;
        printed(rt.alloc(), rows::HELLO.as_bytes())?.as_slice(),
        layout.as_bytes()
    );
    Ok(())
}

#[test]
fn tokens_of_a_text_that_has_a_tree(rt: HostRuntime) -> Result<(), Fail> {
    let lines = "1:1 word module\n1:8 name b\n1:9 sign :\n2:1 word end\n";
    assert_eq!(rt;
        listed(rt.alloc(), "module b:\nend\n")?.as_slice(),
        lines.as_bytes()
    );
    let underived = Refusal::Syntax(place(0, 2, 1), Kind::Unexpected);
    assert_eq!(rt; listed(rt.alloc(), "module b:\n").err(), Some(underived));
    let misspelled = Refusal::Syntax(place(0, 1, 1), Kind::BadByte);
    assert_eq!(rt; listed(rt.alloc(), "$").err(), Some(misspelled));
    Ok(())
}
