//! Spellings that are read a byte at a time, from state to state.

use crate::piece::Piece;

/// What a byte does in a state.
#[derive(Clone, Copy)]
pub enum Move<S> {
    /// The spelling goes on.
    On(S),
    /// The byte ends it.
    Done(Piece),
    /// It ended before the byte.
    Dead,
}
