//! Circuits: groups, gates and required literals, each with its clauses.
#![tactic(auto)]

mod builder;
mod circuit;
mod gate;
mod ladder;
#[cfg(test)]
mod tests;

pub use builder::{Builder, GateError};
pub use circuit::Circuit;
