//! The reserved words.

ghost use Rattle.rml_lex.specs.Words.{word_of, word_spelling};
ghost use Rattle.std.specs.Prelude.{◌≡◌};

use rml_syntax::Key;

const KEYS: [Key; 18] = [
    Key::KAbstype,
    Key::KAnd,
    Key::KAs,
    Key::KAxiom,
    Key::KDatatype,
    Key::KDefault,
    Key::KEnd,
    Key::KEqtype,
    Key::KLet,
    Key::KModule,
    Key::KNot,
    Key::KOf,
    Key::KRelation,
    Key::KRule,
    Key::KType,
    Key::KVal,
    Key::KWith,
    Key::KWithtype,
];

/// How a reserved word is spelled.
pub fn word_spelling(key: Key) -> &'static [u8]
    ensures { result.now ≡ word_spelling key }
{
    match key {
        Key::KAbstype => b"abstype",
        Key::KAnd => b"and",
        Key::KAs => b"as",
        Key::KAxiom => b"axiom",
        Key::KDatatype => b"datatype",
        Key::KDefault => b"default",
        Key::KEnd => b"end",
        Key::KEqtype => b"eqtype",
        Key::KLet => b"let",
        Key::KModule => b"module",
        Key::KNot => b"not",
        Key::KOf => b"of",
        Key::KRelation => b"relation",
        Key::KRule => b"rule",
        Key::KType => b"type",
        Key::KVal => b"val",
        Key::KWith => b"with",
        Key::KWithtype => b"withtype",
    }
}

/// The reserved word with this spelling.
pub fn find_word(spelling: &[u8]) -> Option<Key>
    ensures { result ≡ word_of spelling.now }
{
    KEYS.iter()
        .copied()
        .find(|key| word_spelling(*key) == spelling)
}
