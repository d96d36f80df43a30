//! Tests of `parse`: texts in a notation of words, the trees that they have, and the places of their faults. There is
//! nothing else here.
#![tactic(auto)]

#[cfg(test)]
mod faults;
#[cfg(test)]
mod notation;
#[cfg(test)]
mod spelled;
#[cfg(test)]
mod trees;
