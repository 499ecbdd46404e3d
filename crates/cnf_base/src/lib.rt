//! Literals, clauses, formulas and assignments, and the lines of derivations.
#![tactic(auto)]

mod assignment;
mod clause;
mod line;
mod lit;
#[cfg(test)]
mod tests;
mod trail;

pub use assignment::{Assignment, makes_true, satisfies};
pub use clause::{Clause, Formula, Groups, Lits, clause_variables, copied, variables};
pub use line::{Hints, Line, Lines};
pub use lit::Lit;
pub use trail::Trail;
