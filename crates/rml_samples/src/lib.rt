//! Small programs that are built by hand, and tests over them: how searches end, the text of their clauses, and how these end.
//! There is nothing else here.
#![tactic(auto)]

#[cfg(test)]
mod clause_runs;
#[cfg(test)]
mod clauses;
#[cfg(test)]
mod programs;
#[cfg(test)]
mod sample;
#[cfg(test)]
mod searches;
#[cfg(test)]
mod spelled;
