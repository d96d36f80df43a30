//! The lexer: it cuts the bytes of a text into pieces, each the longest that stands at its place, and gives the tokens
//! with their places, or the first fault.
//!
//! `Spells` says what each kind of piece is, and faults are pieces too, so one rule, "the longest", decides everything. The
//! theorem stands on `lex`; `laws` ties the definitions to one another. The code follows `whole`, which decides `Spells`.
//! It knows nothing of what tokens are used for.
#![tactic(auto)]

mod bytes;
mod character;
mod comment;
mod first;
pub mod laws;
mod literal;
mod machine;
mod next;
mod number;
mod piece;
mod places;
mod tokens;
mod words;

pub use character::unescape;
pub use next::next_piece;
pub use piece::{LexKind, Piece};
pub use places::end_place;
pub use tokens::{LexErr, lex};
pub use words::{find_word, word_spelling};
