//! Bodies of clause form that are built by hand, and tests of what the pass makes of them. There is nothing else here.
#![tactic(auto)]

#[cfg(test)]
mod bodies;
#[cfg(test)]
mod building;
#[cfg(test)]
mod deep;
#[cfg(test)]
mod writing;
