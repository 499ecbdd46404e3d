use crate::clause::Clause;
use asm_list::Listed;

/// The numbers of the clauses by which a line is accepted, in the order in which they are taken.
pub type Hints = Listed<u64>;

/// A line of a derivation: a clause, and the clauses from which it follows.
#[derive(Drop, Debug)]
pub struct Line {
    pub clause: Clause,
    pub hints: Hints,
}

/// The lines of a derivation, in order.
pub type Lines = Listed<Line>;
