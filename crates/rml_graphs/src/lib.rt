//! Tests of the graph of types: circles, clashes, instances, most general types, deep types. There is nothing else here.
#![tactic(auto)]

#[cfg(test)]
mod graphs;
