//! What the words of the command line ask for.

use std::env::{self, Env};

/// A call that is measured.
#[derive(Clone, Copy, Debug, PartialEq, Eq)]
pub enum Call {
    /// A sum of two integers.
    IntAdd,
    /// A comparison of two integers.
    IntLt,
    /// Two texts of 1 MiB, one after the other, where the first ends with a word.
    StringAppend,
    /// The same, where the first ends three bytes before a word does.
    StringAppendShifted,
    /// Whether two texts of 1 MiB are equal, which they are.
    EqualTexts,
    /// The vector of a list of a million items.
    ListVector,
    /// Whether two lists of a million items are equal, which they are.
    EqualLists,
}

/// What a command line asks for.
#[derive(Clone, Copy, Debug, PartialEq, Eq)]
pub enum Line {
    /// It has no words.
    Nothing,
    /// To make a call so many times.
    Make(Call, u32),
    /// Its words are none of these.
    Faulty,
}

/// A call by its word.
fn call_of(word: &str) -> Option<Call> {
    match word {
        "int_add" => Some(Call::IntAdd),
        "int_lt" => Some(Call::IntLt),
        "string_append" => Some(Call::StringAppend),
        "string_append_shifted" => Some(Call::StringAppendShifted),
        "equal_texts" => Some(Call::EqualTexts),
        "list_vector" => Some(Call::ListVector),
        "equal_lists" => Some(Call::EqualLists),
        _ => None,
    }
}

/// What two words ask for.
fn two(word: &str, times: &str) -> Line {
    match (call_of(word), times.parse::<u32>()) {
        (Some(call), Ok(times)) => Line::Make(call, times),
        _ => Line::Faulty,
    }
}

/// What the words after the program's name ask for.
pub fn asked(rt: &(impl Env + AllocGlobal)) -> Line {
    let Ok(words) = env::args(rt) else {
        return Line::Faulty;
    };
    let mut words = words.skip(1);
    match (words.next(), words.next(), words.next()) {
        (None, _, _) => Line::Nothing,
        (Some(word), Some(times), None) => two(word.as_str(), times.as_str()),
        _ => Line::Faulty,
    }
}
