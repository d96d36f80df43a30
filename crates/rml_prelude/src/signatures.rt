//! What the interface of the prelude says of relations, in short forms, each behind its text.

use crate::short::{ShortSig, ShortType};
use crate::word::Word;

/// All signatures of the interface, in its order.
pub const SIGNATURES: [ShortSig; 9] = [
    // `relation bool_and: (bool, bool) => bool`
    ShortSig {
        name: Word::BoolAnd,
        inputs: &[ShortType::Named(Word::Bool), ShortType::Named(Word::Bool)],
        output: ShortType::Named(Word::Bool),
    },
    // `relation bool_or: (bool, bool) => bool`
    ShortSig {
        name: Word::BoolOr,
        inputs: &[ShortType::Named(Word::Bool), ShortType::Named(Word::Bool)],
        output: ShortType::Named(Word::Bool),
    },
    // `relation bool_not: bool => bool`
    ShortSig {
        name: Word::BoolNot,
        inputs: &[ShortType::Named(Word::Bool)],
        output: ShortType::Named(Word::Bool),
    },
    // `relation list_append: ('a list, 'a list) => 'a list`
    ShortSig {
        name: Word::ListAppend,
        inputs: &[ShortType::Lists, ShortType::Lists],
        output: ShortType::Lists,
    },
    // `relation list_reverse: 'a list => 'a list`
    ShortSig {
        name: Word::ListReverse,
        inputs: &[ShortType::Lists],
        output: ShortType::Lists,
    },
    // `relation list_length: 'a list => int`
    ShortSig {
        name: Word::ListLength,
        inputs: &[ShortType::Lists],
        output: ShortType::Named(Word::Int),
    },
    // `relation list_member: ('a, 'a list) => bool`
    ShortSig {
        name: Word::ListMember,
        inputs: &[ShortType::Any, ShortType::Lists],
        output: ShortType::Named(Word::Bool),
    },
    // `relation list_nth: ('a list, int) => 'a`
    ShortSig {
        name: Word::ListNth,
        inputs: &[ShortType::Lists, ShortType::Named(Word::Int)],
        output: ShortType::Any,
    },
    // `relation list_delete: ('a list, int) => 'a list`
    ShortSig {
        name: Word::ListDelete,
        inputs: &[ShortType::Lists, ShortType::Named(Word::Int)],
        output: ShortType::Lists,
    },
];

/// The inputs that the body gives `list_turn`, whose result is of the same type.
pub const TURN_INPUTS: [ShortType; 2] = [ShortType::Lists, ShortType::Lists];
