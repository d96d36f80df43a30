//! Calls on cells, made many times over so that it can be measured what one takes: `rml_cell_bench CALL TIMES`.
//! With no words it does nothing.
#![tactic(auto)]

mod calls;
mod placing;
mod words;

use calls::{ints, lists_compared, texts_compared, texts_joined, vectors};
use rml_base::Memory;
use std::alloc::Global;
use std::process::ExitCode;
use words::{Call, Line, asked};

/// The bytes of a text, and the items of a list.
const SIZE: usize = 1_048_576;

const ITEMS: u32 = 1_000_000;

/// Makes a call so many times. Answers how many times it gave an answer.
fn made(alloc: Global, call: Call, times: u32) -> Result<u32, Memory> {
    match call {
        Call::IntAdd => ints(alloc, 0, times),
        Call::IntLt => ints(alloc, 9, times),
        Call::StringAppend => texts_joined(alloc, SIZE, 0, times),
        Call::StringAppendShifted => texts_joined(alloc, SIZE, 3, times),
        Call::EqualTexts => texts_compared(alloc, SIZE, times),
        Call::ListVector => vectors(alloc, ITEMS, times),
        Call::EqualLists => lists_compared(alloc, ITEMS, times),
    }
}

fn main(rt: HostRuntime) -> ExitCode {
    match asked(&rt) {
        Line::Nothing => ExitCode::SUCCESS,
        Line::Faulty => ExitCode::from(2),
        Line::Make(call, times) => match made(rt.alloc(), call, times) {
            Ok(answers) if answers == times => ExitCode::SUCCESS,
            _ => ExitCode::FAILURE,
        },
    }
}
