//! Comments, which nest. Their depth is a number, so deep ones need no stack.

ghost use Rattle.rml_lex.specs.Comment.{IsWithin, comment_inside, comment_step, half_of};
ghost use Rattle.rml_lex.specs.Machine.{Longest};
ghost use Rattle.std.specs.Prelude.{◌≡◌, ◌+◌, ◌<◌, ◌^◌, ◌-◌, length};

use crate::machine::Move;
use crate::piece::{LexKind, Piece};

/// The byte before, where it may be half of a bracket. A byte that has served one bracket serves no other.
#[derive(Clone, Copy)]
pub enum Half {
    Neither,
    Round,
    Star,
}

/// Inside a comment: how many are open, at least 1.
#[derive(Clone, Copy)]
pub struct Depth {
    pub depth: usize,
    pub half: Half,
}

fn half_bracket(b: u8) -> Half
    ensures { result ≡ half_of b }
{
    match b {
        b'(' => Half::Round,
        b'*' => Half::Star,
        _ => Half::Neither,
    }
}

fn step_comment(state: Depth, b: u8) -> Move<Depth>
    requires { state.depth < 2 ^ 64 - 1 }
    ensures step { result ≡ comment_step state b }
    ensures depth { IsWithin (state.depth + 1) result }
{
    match state.half {
        Half::Star if b == b')' && state.depth <= 1 => Move::Done(Piece::Comment),
        Half::Star if b == b')' => Move::On(Depth {
            depth: state.depth - 1,
            half: Half::Neither,
        }),
        Half::Round if b == b'*' => Move::On(Depth {
            depth: state.depth + 1,
            half: Half::Neither,
        }),
        _ => Move::On(Depth {
            depth: state.depth,
            half: half_bracket(b),
        }),
    }
}

/// The comment whose opening `(*` stands before the bytes, with the length of what follows it.
pub fn comment_end(bytes: &[u8]) -> (usize, Piece)
    requires { length bytes.now < 2 ^ 32 }
    ensures { Longest comment_inside bytes.now result.0 result.1 }
{
    let mut state = Depth {
        depth: 1,
        half: Half::Neither,
    };
    for (i, b) in bytes.iter().enumerate() {
        match step_comment(state, *b) {
            Move::On(next) => state = next,
            Move::Done(piece) => return (i + 1, piece),
            Move::Dead => return (i, Piece::Faulty(LexKind::OpenComment, 0)),
        }
    }
    (bytes.len(), Piece::Faulty(LexKind::OpenComment, 0))
}
