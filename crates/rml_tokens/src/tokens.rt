//! One table of texts with their tokens, and one of texts with their first fault.

use rml_base::{Memory, Names, Place};
use rml_lex::{LexErr, LexKind, end_place, lex};
use rml_syntax::{Key, Lit, Mark, Token};
use std::alloc::Global;
use std::test::Fail;

/// Texts, and their tokens with lines and columns. Names are numbered from 0 in each.
const TOKENS: [(&[u8], &[(u32, u32, Token)]); 13] = [
    (
        b"abstype and as axiom datatype default end eqtype let module not of relation rule type val with withtype ",
        &[
            (1, 1, Token::Word(Key::KAbstype)),
            (1, 9, Token::Word(Key::KAnd)),
            (1, 13, Token::Word(Key::KAs)),
            (1, 16, Token::Word(Key::KAxiom)),
            (1, 22, Token::Word(Key::KDatatype)),
            (1, 31, Token::Word(Key::KDefault)),
            (1, 39, Token::Word(Key::KEnd)),
            (1, 43, Token::Word(Key::KEqtype)),
            (1, 50, Token::Word(Key::KLet)),
            (1, 54, Token::Word(Key::KModule)),
            (1, 61, Token::Word(Key::KNot)),
            (1, 65, Token::Word(Key::KOf)),
            (1, 68, Token::Word(Key::KRelation)),
            (1, 77, Token::Word(Key::KRule)),
            (1, 82, Token::Word(Key::KType)),
            (1, 87, Token::Word(Key::KVal)),
            (1, 91, Token::Word(Key::KWith)),
            (1, 96, Token::Word(Key::KWithtype)),
        ],
    ),
    (
        b"x Foo a_1' rule' types end2 ands ",
        &[
            (1, 1, Token::Name(0)),
            (1, 3, Token::Name(1)),
            (1, 7, Token::Name(2)),
            (1, 12, Token::Name(3)),
            (1, 18, Token::Name(4)),
            (1, 24, Token::Name(5)),
            (1, 29, Token::Name(6)),
        ],
    ),
    (
        b"'a 'rule 'a'b 'T_0 ",
        &[
            (1, 1, Token::TyVar(0)),
            (1, 4, Token::TyVar(1)),
            (1, 10, Token::TyVar(2)),
            (1, 15, Token::TyVar(3)),
        ],
    ),
    (
        b"0 007 -5 ~5 -0 1073741823 -1073741824 ~1073741824~1",
        &[
            (1, 1, Token::Lit(Lit::Int(0))),
            (1, 3, Token::Lit(Lit::Int(7))),
            (1, 7, Token::Lit(Lit::Int(-5))),
            (1, 10, Token::Lit(Lit::Int(-5))),
            (1, 13, Token::Lit(Lit::Int(0))),
            (1, 16, Token::Lit(Lit::Int(1073741823))),
            (1, 27, Token::Lit(Lit::Int(-1073741824))),
            (1, 39, Token::Lit(Lit::Int(-1073741824))),
            (1, 50, Token::Lit(Lit::Int(-1))),
        ],
    ),
    (
        b"1. 1e 1.e5 1e-- 1Ex5 .5",
        &[
            (1, 1, Token::Lit(Lit::Int(1))),
            (1, 2, Token::Sign(Mark::Dot)),
            (1, 4, Token::Lit(Lit::Int(1))),
            (1, 5, Token::Name(0)),
            (1, 7, Token::Lit(Lit::Int(1))),
            (1, 8, Token::Sign(Mark::Dot)),
            (1, 9, Token::Name(1)),
            (1, 12, Token::Lit(Lit::Int(1))),
            (1, 13, Token::Name(0)),
            (1, 14, Token::Dashes(2)),
            (1, 17, Token::Lit(Lit::Int(1))),
            (1, 18, Token::Name(2)),
            (1, 22, Token::Sign(Mark::Dot)),
            (1, 23, Token::Lit(Lit::Int(5))),
        ],
    ),
    (
        b"-- --- --5 a--b 5-5",
        &[
            (1, 1, Token::Dashes(2)),
            (1, 4, Token::Dashes(3)),
            (1, 8, Token::Dashes(2)),
            (1, 10, Token::Lit(Lit::Int(5))),
            (1, 12, Token::Name(0)),
            (1, 13, Token::Dashes(2)),
            (1, 15, Token::Name(1)),
            (1, 17, Token::Lit(Lit::Int(5))),
            (1, 18, Token::Lit(Lit::Int(-5))),
        ],
    ),
    (
        b"#\"a\"#\" \"#\"\\n\"#\"\\t\"#\"\\r\"#\"\\\\\"#\"\\\"\"#\"\\000\"#\"\\255\"#\"~\"#\"\x80\"#\"\xff\"#\"'\"",
        &[
            (1, 1, Token::Lit(Lit::Char(97))),
            (1, 5, Token::Lit(Lit::Char(32))),
            (1, 9, Token::Lit(Lit::Char(10))),
            (1, 14, Token::Lit(Lit::Char(9))),
            (1, 19, Token::Lit(Lit::Char(13))),
            (1, 24, Token::Lit(Lit::Char(92))),
            (1, 29, Token::Lit(Lit::Char(34))),
            (1, 34, Token::Lit(Lit::Char(0))),
            (1, 41, Token::Lit(Lit::Char(255))),
            (1, 48, Token::Lit(Lit::Char(126))),
            (1, 52, Token::Lit(Lit::Char(128))),
            (1, 56, Token::Lit(Lit::Char(255))),
            (1, 60, Token::Lit(Lit::Char(39))),
        ],
    ),
    (
        b"\"\"\"a\\nb\"\"\\097\\010b\" ab\"ab\"\"(* \\\\ *)\\\"\"\"\x80\xff\\000\"\"--\"",
        &[
            (1, 1, Token::Lit(Lit::Text(0))),
            (1, 3, Token::Lit(Lit::Text(1))),
            (1, 9, Token::Lit(Lit::Text(1))),
            (1, 21, Token::Name(2)),
            (1, 23, Token::Lit(Lit::Text(2))),
            (1, 27, Token::Lit(Lit::Text(3))),
            (1, 39, Token::Lit(Lit::Text(4))),
            (1, 47, Token::Lit(Lit::Text(5))),
        ],
    ),
    (
        b"()[],:::=>=&|*._",
        &[
            (1, 1, Token::Sign(Mark::OpenRound)),
            (1, 2, Token::Sign(Mark::CloseRound)),
            (1, 3, Token::Sign(Mark::OpenSquare)),
            (1, 4, Token::Sign(Mark::CloseSquare)),
            (1, 5, Token::Sign(Mark::Comma)),
            (1, 6, Token::Sign(Mark::TwoColons)),
            (1, 8, Token::Sign(Mark::Colon)),
            (1, 9, Token::Sign(Mark::Arrow)),
            (1, 11, Token::Sign(Mark::Equals)),
            (1, 12, Token::Sign(Mark::Amp)),
            (1, 13, Token::Sign(Mark::Bar)),
            (1, 14, Token::Sign(Mark::Star)),
            (1, 15, Token::Sign(Mark::Dot)),
            (1, 16, Token::Sign(Mark::Wild)),
        ],
    ),
    (
        b"::===>*)_a",
        &[
            (1, 1, Token::Sign(Mark::TwoColons)),
            (1, 3, Token::Sign(Mark::Equals)),
            (1, 4, Token::Sign(Mark::Equals)),
            (1, 5, Token::Sign(Mark::Arrow)),
            (1, 7, Token::Sign(Mark::Star)),
            (1, 8, Token::Sign(Mark::CloseRound)),
            (1, 9, Token::Sign(Mark::Wild)),
            (1, 10, Token::Name(0)),
        ],
    ),
    (
        b"\t\r x\r\n y\n\n\t(",
        &[
            (1, 4, Token::Name(0)),
            (2, 2, Token::Name(1)),
            (4, 2, Token::Sign(Mark::OpenRound)),
        ],
    ),
    (
        b"(**)a(*)*)b(* (* *) *)c(*(*)*)*)d(***)e(* \"\n # \x01 \xff ( * ) **)f((* *)(*((**)*)",
        &[
            (1, 5, Token::Name(0)),
            (1, 11, Token::Name(1)),
            (1, 23, Token::Name(2)),
            (1, 33, Token::Name(3)),
            (1, 39, Token::Name(4)),
            (2, 17, Token::Name(5)),
            (2, 18, Token::Sign(Mark::OpenRound)),
        ],
    ),
    (b"", &[]),
];

/// Texts, and the line, the column and the kind of their first fault.
const FAULTS: [(&[u8], u32, u32, LexKind); 73] = [
    (b"x $", 1, 3, LexKind::BadByte),
    (b"\x00", 1, 1, LexKind::BadByte),
    (b"\x7f", 1, 1, LexKind::BadByte),
    (b"\x80", 1, 1, LexKind::BadByte),
    (b"a\n\n \xff", 3, 2, LexKind::BadByte),
    (b"-", 1, 1, LexKind::BadByte),
    (b"5 -x", 1, 3, LexKind::BadByte),
    (b"~", 1, 1, LexKind::BadByte),
    (b"-~5", 1, 1, LexKind::BadByte),
    (b"'", 1, 1, LexKind::BadByte),
    (b"'1", 1, 1, LexKind::BadByte),
    (b"''a", 1, 1, LexKind::BadByte),
    (b"#", 1, 1, LexKind::BadByte),
    (b"# \"a\"", 1, 1, LexKind::BadByte),
    (b"{", 1, 1, LexKind::BadByte),
    (b"\\", 1, 1, LexKind::BadByte),
    (b"1e-", 1, 3, LexKind::BadByte),
    (b"(*)", 1, 1, LexKind::OpenComment),
    (b"(*", 1, 1, LexKind::OpenComment),
    (b"(**", 1, 1, LexKind::OpenComment),
    (b"x\n (* (* *)", 2, 2, LexKind::OpenComment),
    (b"(* *", 1, 1, LexKind::OpenComment),
    (b"(*(**)", 1, 1, LexKind::OpenComment),
    (b"(* * )", 1, 1, LexKind::OpenComment),
    (b"\"", 1, 1, LexKind::OpenString),
    (b"\"a", 1, 1, LexKind::OpenString),
    (b"x \"ab\nc\"", 1, 3, LexKind::OpenString),
    (b"#\"", 1, 1, LexKind::OpenString),
    (b"#\"a", 1, 1, LexKind::OpenString),
    (b"#\"a\n\"", 1, 1, LexKind::OpenString),
    (b"#\"\n\"", 1, 1, LexKind::OpenString),
    (b"\"\\n", 1, 1, LexKind::OpenString),
    (b"\"\\065", 1, 1, LexKind::OpenString),
    (b"#\"\"", 1, 1, LexKind::BadEscape),
    (b"#\"ab\"", 1, 1, LexKind::BadEscape),
    (b"x #\"ab\n", 1, 3, LexKind::BadEscape),
    (b"#\"a\\098\"", 1, 1, LexKind::BadEscape),
    (b"#\"a\\q\"", 1, 4, LexKind::BadEscape),
    (b"#\"\\", 1, 3, LexKind::BadEscape),
    (b"#\"\\12", 1, 3, LexKind::BadEscape),
    (b"\"\\", 1, 2, LexKind::BadEscape),
    (b"\"\\q\"", 1, 2, LexKind::BadEscape),
    (b"\"\\1", 1, 2, LexKind::BadEscape),
    (b"\"\\1\"", 1, 2, LexKind::BadEscape),
    (b"\"\\12", 1, 2, LexKind::BadEscape),
    (b"\"\\12x\"", 1, 2, LexKind::BadEscape),
    (b"\"\\256\"", 1, 2, LexKind::BadEscape),
    (b"\"a\\\n\"", 1, 3, LexKind::BadEscape),
    (b"\"\\n\\x\"", 1, 4, LexKind::BadEscape),
    (b"\"\\q\x01\"", 1, 2, LexKind::BadEscape),
    (b"#\"\"\"", 1, 1, LexKind::BadEscape),
    (b"\"a\x01\"", 1, 3, LexKind::BadByte),
    (b"\"\t\"", 1, 2, LexKind::BadByte),
    (b"\"\r\n\"", 1, 2, LexKind::BadByte),
    (b"\"\x7f\"", 1, 2, LexKind::BadByte),
    (b"#\"\x01\"", 1, 3, LexKind::BadByte),
    (b"#\"a\x01", 1, 4, LexKind::BadByte),
    (b"\"\x01\\q\"", 1, 2, LexKind::BadByte),
    (b"1073741824", 1, 1, LexKind::IntRange),
    (b"-1073741825", 1, 1, LexKind::IntRange),
    (b"x ~1073741825", 1, 3, LexKind::IntRange),
    (b"99999999999999999999999999x", 1, 1, LexKind::IntRange),
    (b"1 2\n3 01073741824.", 2, 3, LexKind::IntRange),
    (b"1.5", 1, 1, LexKind::Real),
    (b"1e5", 1, 1, LexKind::Real),
    (b"1E-5", 1, 1, LexKind::Real),
    (b"1e~5", 1, 1, LexKind::Real),
    (b"x -1.5e~3", 1, 3, LexKind::Real),
    (b"~0.0", 1, 1, LexKind::Real),
    (b"1.5e", 1, 1, LexKind::Real),
    (b"99999999999.0", 1, 1, LexKind::Real),
    (b"99999999999e0", 1, 1, LexKind::Real),
    (b"1.5.", 1, 1, LexKind::Real),
];

#[test]
fn texts_have_their_tokens(rt: HostRuntime) -> Result<(), Fail> {
    for (text, expected) in TOKENS {
        assert!(rt; text.len() < 1000);
        let mut names = Names::new(rt.alloc());
        let spots = lex(rt.alloc(), 7, text, &mut names)?;
        assert_eq!(rt; spots.len(), expected.len());
        for (spot, (line, column, token)) in spots.iter().zip(expected) {
            assert_eq!(rt;
                spot.place,
                Place {
                    text: 7,
                    line: *line,
                    column: *column
                }
            );
            assert_eq!(rt; spot.token, *token);
        }
    }
    Ok(())
}

#[test]
fn first_faults_stand_at_their_places(rt: HostRuntime) -> Result<(), Fail> {
    for (text, line, column, kind) in FAULTS {
        assert!(rt; text.len() < 1000);
        let mut names = Names::new(rt.alloc());
        let fault = lex(rt.alloc(), 7, text, &mut names).err();
        assert_eq!(rt;
            fault,
            Some(LexErr::At(
                Place {
                    text: 7,
                    line,
                    column
                },
                kind
            ))
        );
    }
    Ok(())
}

#[test]
fn names_stand_for_their_bytes(rt: HostRuntime) -> Result<(), Fail> {
    let mut names = Names::new(rt.alloc());
    let spots = lex(rt.alloc(), 0, b"'a rule' \"x\\n\\065\" x \"x\"", &mut names)?;
    assert_eq!(rt; spots.len(), 5);
    assert_eq!(rt; names.len(), 4);
    assert_eq!(rt; names.bytes(0), b"'a".as_slice());
    assert_eq!(rt; names.bytes(1), b"rule'".as_slice());
    assert_eq!(rt; names.bytes(2), b"x\nA".as_slice());
    assert_eq!(rt; names.bytes(3), b"x".as_slice());
    Ok(())
}

/// A blank, a quote, so many bytes and an end.
fn long_text(alloc: Global, count: usize, end: &[u8]) -> Result<Vec<u8>, Memory> {
    let mut text = Vec::new(alloc);
    text.extend_from_slice(b" \"")?;
    for _ in 0..count {
        text.push(b'a')?;
    }
    text.extend_from_slice(end)?;
    Ok(text)
}

#[test]
fn long_texts_are_refused_where_they_begin(rt: HostRuntime) -> Result<(), Fail> {
    let rows = [
        (65_535, &b"\""[..], None),
        (65_536, b"\"", Some((2, LexKind::LongString))),
        (65_536, b"\\q\"", Some((65_539, LexKind::BadEscape))),
        (65_536, b"", Some((2, LexKind::OpenString))),
    ];
    for (count, end, expected) in rows {
        let text = long_text(rt.alloc(), count, end)?;
        assert!(rt; text.len() < 100_000);
        let mut names = Names::new(rt.alloc());
        let fault = lex(rt.alloc(), 0, &text, &mut names).err();
        let wanted = match expected {
            Some((column, kind)) => Some(LexErr::At(
                Place {
                    text: 0,
                    line: 1,
                    column,
                },
                kind,
            )),
            None => None,
        };
        assert_eq!(rt; fault, wanted);
    }
    Ok(())
}

#[test]
fn a_text_ends_behind_its_last_byte(rt: HostRuntime) -> Result<(), Fail> {
    let rows = [
        (&b""[..], 1, 1),
        (b"ab", 1, 3),
        (b"a\n", 2, 1),
        (b"\n\n\tb", 3, 3),
        (b"a\r\nb\xff", 2, 3),
    ];
    for (text, line, column) in rows {
        assert!(rt; text.len() < 100);
        assert_eq!(rt;
            end_place(5, text),
            Place {
                text: 5,
                line,
                column
            }
        );
    }
    Ok(())
}
