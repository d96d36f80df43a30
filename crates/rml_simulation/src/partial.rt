//! What a part of a run gives where it is not told what comes after it. A form without continuations has its meaning in this
//! direct style, and a plain program that computes that meaning gives these values.

use sqlite_items::Items;

/// What a part of a run printed, the cells of the texts, lists and vectors that its built-ins made, and the sum of the weights
/// that it met.
#[derive(Drop)]
pub struct Trace {
    pub text: Items<u8>,
    pub made: u64,
    pub weighed: u64,
}

/// What a part of a run gives, each with its trace.
#[derive(Drop)]
pub enum Partial<A> {
    /// An answer, and the steps that are left.
    Yes(A, Trace, u32),
    /// No answer, and the steps that are left.
    No(Trace, u32),
    /// The steps ran out.
    CutOff(Trace),
    /// It met what has no meaning, which typing rules out.
    GoneWrong(Trace),
}
