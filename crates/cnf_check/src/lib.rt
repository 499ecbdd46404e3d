//! A checker of derivations: each line is accepted by the clauses that it names, one after the other.
#![tactic(auto)]

mod bad;
mod checker;
mod follow;
mod kept;
mod lookup;
#[cfg(test)]
mod tests;

pub use bad::Bad;
pub use checker::Checker;
pub use cnf_base::{Hints, Line, Lines};
pub use kept::{Effort, Refutation};
pub use lookup::{is_clause_false, lone_literal};
