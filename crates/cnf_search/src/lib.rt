//! The search for a solution of a circuit.
#![tactic(auto)]

mod answer;
mod back;
mod index;
mod learn;
mod level;
mod order;
#[cfg(test)]
mod tests;
mod trace;
mod unit;
mod walk;

pub use answer::{Found, search};
