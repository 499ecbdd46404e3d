//! Who calls whom, by numbers: chains of calls, nodes that lead to themselves, and nodes that lead to marked ones.
#![tactic(auto)]

mod cycle;
mod graph;
mod laws;
mod rows;

pub use cycle::leads_to_itself;
pub use graph::{Graph, Node};
pub use laws::calls_suffice;
pub use rows::{chains, touching};
