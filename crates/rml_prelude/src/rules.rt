//! The rules of the prelude's relations in their short forms, each behind its text.

use crate::short::{ShortExp, ShortGoal, ShortPattern, ShortRule};
use crate::word::Word;

/// Those of `bool_and`.
pub const AND: [ShortRule; 3] = [
    // `bool_and(true, true) => true`
    ShortRule {
        inputs: &[
            ShortPattern::Name(Word::True),
            ShortPattern::Name(Word::True),
        ],
        goals: &[],
        result: ShortExp::Name(Word::True),
        tokens: 9,
    },
    // `bool_and(true, false) => false`
    ShortRule {
        inputs: &[
            ShortPattern::Name(Word::True),
            ShortPattern::Name(Word::False),
        ],
        goals: &[],
        result: ShortExp::Name(Word::False),
        tokens: 9,
    },
    // `bool_and(false, _) => false`
    ShortRule {
        inputs: &[ShortPattern::Name(Word::False), ShortPattern::Any],
        goals: &[],
        result: ShortExp::Name(Word::False),
        tokens: 9,
    },
];

/// Those of `bool_or`.
pub const OR: [ShortRule; 3] = [
    // `bool_or(false, false) => false`
    ShortRule {
        inputs: &[
            ShortPattern::Name(Word::False),
            ShortPattern::Name(Word::False),
        ],
        goals: &[],
        result: ShortExp::Name(Word::False),
        tokens: 9,
    },
    // `bool_or(false, true) => true`
    ShortRule {
        inputs: &[
            ShortPattern::Name(Word::False),
            ShortPattern::Name(Word::True),
        ],
        goals: &[],
        result: ShortExp::Name(Word::True),
        tokens: 9,
    },
    // `bool_or(true, _) => true`
    ShortRule {
        inputs: &[ShortPattern::Name(Word::True), ShortPattern::Any],
        goals: &[],
        result: ShortExp::Name(Word::True),
        tokens: 9,
    },
];

/// Those of `bool_not`.
pub const NOT: [ShortRule; 2] = [
    // `bool_not(false) => true`
    ShortRule {
        inputs: &[ShortPattern::Name(Word::False)],
        goals: &[],
        result: ShortExp::Name(Word::True),
        tokens: 7,
    },
    // `bool_not(true) => false`
    ShortRule {
        inputs: &[ShortPattern::Name(Word::True)],
        goals: &[],
        result: ShortExp::Name(Word::False),
        tokens: 7,
    },
];

/// Those of `list_append`.
pub const APPEND: [ShortRule; 2] = [
    // `list_append([], y) => y`
    ShortRule {
        inputs: &[ShortPattern::Empty, ShortPattern::Name(Word::VarY)],
        goals: &[],
        result: ShortExp::Name(Word::VarY),
        tokens: 10,
    },
    // `list_append(r, y) => z` gives `list_append(x :: r, y) => x :: z`
    ShortRule {
        inputs: &[
            ShortPattern::Link(Word::VarX, Word::VarR),
            ShortPattern::Name(Word::VarY),
        ],
        goals: &[ShortGoal::Two(
            Word::ListAppend,
            ShortExp::Name(Word::VarR),
            ShortExp::Name(Word::VarY),
            Word::VarZ,
        )],
        result: ShortExp::Link(Word::VarX, Word::VarZ),
        tokens: 22,
    },
];

/// Those of `list_turn`.
pub const TURN: [ShortRule; 2] = [
    // `list_turn([], y) => y`
    ShortRule {
        inputs: &[ShortPattern::Empty, ShortPattern::Name(Word::VarY)],
        goals: &[],
        result: ShortExp::Name(Word::VarY),
        tokens: 10,
    },
    // `list_turn(r, x :: y) => z` gives `list_turn(x :: r, y) => z`
    ShortRule {
        inputs: &[
            ShortPattern::Link(Word::VarX, Word::VarR),
            ShortPattern::Name(Word::VarY),
        ],
        goals: &[ShortGoal::Two(
            Word::ListTurn,
            ShortExp::Name(Word::VarR),
            ShortExp::Link(Word::VarX, Word::VarY),
            Word::VarZ,
        )],
        result: ShortExp::Name(Word::VarZ),
        tokens: 22,
    },
];

/// Those of `list_reverse`.
pub const REVERSE: [ShortRule; 1] = [
    // `list_turn(x, []) => y` gives `list_reverse(x) => y`
    ShortRule {
        inputs: &[ShortPattern::Name(Word::VarX)],
        goals: &[ShortGoal::Two(
            Word::ListTurn,
            ShortExp::Name(Word::VarX),
            ShortExp::Empty,
            Word::VarY,
        )],
        result: ShortExp::Name(Word::VarY),
        tokens: 17,
    },
];

/// Those of `list_length`.
pub const LENGTH: [ShortRule; 2] = [
    // `list_length([]) => 0`
    ShortRule {
        inputs: &[ShortPattern::Empty],
        goals: &[],
        result: ShortExp::Number(0),
        tokens: 8,
    },
    // `list_length(r) => n & int_add(n, 1) => m` gives `list_length(_ :: r) => m`
    ShortRule {
        inputs: &[ShortPattern::Rest(Word::VarR)],
        goals: &[
            ShortGoal::One(Word::ListLength, ShortExp::Name(Word::VarR), Word::VarN),
            ShortGoal::Two(
                Word::IntAdd,
                ShortExp::Name(Word::VarN),
                ShortExp::Number(1),
                Word::VarM,
            ),
        ],
        result: ShortExp::Name(Word::VarM),
        tokens: 25,
    },
];

/// Those of `list_member`.
pub const MEMBER: [ShortRule; 3] = [
    // `list_member(_, []) => false`
    ShortRule {
        inputs: &[ShortPattern::Any, ShortPattern::Empty],
        goals: &[],
        result: ShortExp::Name(Word::False),
        tokens: 10,
    },
    // `x = y` gives `list_member(x, y :: _) => true`
    ShortRule {
        inputs: &[
            ShortPattern::Name(Word::VarX),
            ShortPattern::First(Word::VarY),
        ],
        goals: &[ShortGoal::Equal(Word::VarX, Word::VarY)],
        result: ShortExp::Name(Word::True),
        tokens: 15,
    },
    // `not x = y & list_member(x, r) => b` gives `list_member(x, y :: r) => b`
    ShortRule {
        inputs: &[
            ShortPattern::Name(Word::VarX),
            ShortPattern::Link(Word::VarY, Word::VarR),
        ],
        goals: &[
            ShortGoal::Differ(Word::VarX, Word::VarY),
            ShortGoal::Two(
                Word::ListMember,
                ShortExp::Name(Word::VarX),
                ShortExp::Name(Word::VarR),
                Word::VarB,
            ),
        ],
        result: ShortExp::Name(Word::VarB),
        tokens: 25,
    },
];

/// Those of `list_nth`.
pub const NTH: [ShortRule; 2] = [
    // `list_nth(x :: _, 0) => x`
    ShortRule {
        inputs: &[ShortPattern::First(Word::VarX), ShortPattern::Zero],
        goals: &[],
        result: ShortExp::Name(Word::VarX),
        tokens: 11,
    },
    // `int_gt(n, 0) => true & int_sub(n, 1) => m & list_nth(r, m) => x` gives `list_nth(_ :: r, n) => x`
    ShortRule {
        inputs: &[
            ShortPattern::Rest(Word::VarR),
            ShortPattern::Name(Word::VarN),
        ],
        goals: &[
            ShortGoal::Two(
                Word::IntGt,
                ShortExp::Name(Word::VarN),
                ShortExp::Number(0),
                Word::True,
            ),
            ShortGoal::Two(
                Word::IntSub,
                ShortExp::Name(Word::VarN),
                ShortExp::Number(1),
                Word::VarM,
            ),
            ShortGoal::Two(
                Word::ListNth,
                ShortExp::Name(Word::VarR),
                ShortExp::Name(Word::VarM),
                Word::VarX,
            ),
        ],
        result: ShortExp::Name(Word::VarX),
        tokens: 38,
    },
];

/// Those of `list_delete`.
pub const DELETE: [ShortRule; 2] = [
    // `list_delete(_ :: r, 0) => r`
    ShortRule {
        inputs: &[ShortPattern::Rest(Word::VarR), ShortPattern::Zero],
        goals: &[],
        result: ShortExp::Name(Word::VarR),
        tokens: 11,
    },
    // `int_gt(n, 0) => true & int_sub(n, 1) => m & list_delete(r, m) => s` gives `list_delete(x :: r, n) => x :: s`
    ShortRule {
        inputs: &[
            ShortPattern::Link(Word::VarX, Word::VarR),
            ShortPattern::Name(Word::VarN),
        ],
        goals: &[
            ShortGoal::Two(
                Word::IntGt,
                ShortExp::Name(Word::VarN),
                ShortExp::Number(0),
                Word::True,
            ),
            ShortGoal::Two(
                Word::IntSub,
                ShortExp::Name(Word::VarN),
                ShortExp::Number(1),
                Word::VarM,
            ),
            ShortGoal::Two(
                Word::ListDelete,
                ShortExp::Name(Word::VarR),
                ShortExp::Name(Word::VarM),
                Word::VarS,
            ),
        ],
        result: ShortExp::Link(Word::VarX, Word::VarS),
        tokens: 40,
    },
];
