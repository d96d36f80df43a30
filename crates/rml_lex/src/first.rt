//! What a first byte can begin.

ghost use Rattle.rml_lex.specs.Spelling.{class_of, single_sign};
ghost use Rattle.std.specs.Prelude.{◌≡◌};

use rml_syntax::Mark;

/// What a piece that begins with some byte can be, where the byte is no digit.
#[derive(Clone, Copy)]
pub enum Class {
    Blank,
    /// A name or a word.
    Letter,
    Dash,
    Tilde,
    Quote,
    Hash,
    Prime,
    /// A round bracket or a comment.
    Round,
    Colon,
    Equals,
    /// A sign of one byte, or nothing.
    Other,
}

pub fn first_class(b: u8) -> Class
    ensures { result ≡ class_of b }
{
    match b {
        b'\t' | b'\n' | b'\r' | b' ' => Class::Blank,
        b'A'..=b'Z' | b'a'..=b'z' => Class::Letter,
        b'-' => Class::Dash,
        b'~' => Class::Tilde,
        b'"' => Class::Quote,
        b'#' => Class::Hash,
        b'\'' => Class::Prime,
        b'(' => Class::Round,
        b':' => Class::Colon,
        b'=' => Class::Equals,
        _ => Class::Other,
    }
}

/// The sign of one byte that begins no other piece.
pub fn sign_of(b: u8) -> Option<Mark>
    ensures { result ≡ single_sign b }
{
    Some(match b {
        b')' => Mark::CloseRound,
        b'[' => Mark::OpenSquare,
        b']' => Mark::CloseSquare,
        b',' => Mark::Comma,
        b'&' => Mark::Amp,
        b'|' => Mark::Bar,
        b'*' => Mark::Star,
        b'.' => Mark::Dot,
        b'_' => Mark::Wild,
        _ => return None,
    })
}
