//! What a piece of a text is.

use rml_syntax::{Key, Mark};

/// Why a text has no tokens.
#[derive(Clone, Copy, Debug, PartialEq, Eq)]
pub enum LexKind {
    /// No piece begins at the byte, or it stands in no literal.
    BadByte,
    OpenComment,
    /// A char or text that its line does not close.
    OpenString,
    /// A `\` that begins no character, or a char of no character or of two.
    BadEscape,
    /// An integer outside -1,073,741,824 to 1,073,741,823.
    IntRange,
    /// A real number: there are none.
    Real,
    /// A text of more than 65,535 bytes after its escapes.
    LongString,
}

/// A piece, without its bytes. Faults are pieces, so that the longest piece decides between them too.
#[derive(Clone, Copy, Debug, PartialEq, Eq)]
pub enum Piece {
    Blank,
    Comment,
    Word(Key),
    Name,
    TyVar,
    Int(i64),
    /// The byte that the char stands for.
    Char(u8),
    Text,
    /// Two dashes or more.
    Dashes,
    Sign(Mark),
    /// A fault, and how many bytes into the piece it stands.
    Faulty(LexKind, usize),
}
