//! Tests of the printer: texts, signatures and tokens as they are printed. There is nothing else here.
#![tactic(auto)]

#[cfg(test)]
mod printings;
