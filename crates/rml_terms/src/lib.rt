//! What variables stand for, what patterns match and expressions are worth, and what is made of calls, whatever the trees in
//! which patterns, expressions and calls are written. The search over rules and clause form are both said in these words, so
//! what they make of equal parts is equal. There are no trees here, and no program.
#![tactic(auto)]

mod state;

pub use state::{Binding, Env, Matched};
