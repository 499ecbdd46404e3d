ghost use Rattle.std.specs.Prelude.{◌≡◌, ◌≤◌, IfOk};
ghost use Rattle.cnf_base.specs.Clauses.{clause_variables, variables};

use crate::lit::Lit;
use asm_list::Listed;
use std::alloc::{AllocError, Global};

/// Literals of which at least one is to be true. It counts as a set: order and repeats say nothing.
pub type Clause = Listed<Lit>;

/// Clauses that are all to be true, numbered from 0.
pub type Formula = Listed<Clause>;

/// The literals of a group, of which exactly one is to be true.
pub type Lits = Listed<Lit>;

/// The groups of a circuit, in the order in which they were made.
pub type Groups = Listed<Lits>;

/// The least number above each variable of a clause.
pub fn clause_variables(clause: &Clause) -> u32
    ensures value { result ≡ clause_variables clause.now }
    ensures bound { result ≤ 2000000 }
{
    let mut above: u32 = 0;
    for lit in clause.slice() {
        above = above.max(lit.var + 1);
    }
    above
}

/// The number of variables of a formula: the least number above each of them.
pub fn variables(formula: &Formula) -> u32
    ensures value { result ≡ variables formula.now }
    ensures bound { result ≤ 2000000 }
{
    let mut above: u32 = 0;
    for clause in formula.slice() {
        above = above.max(clause_variables(clause));
    }
    above
}

/// A formula with the same clauses.
pub fn copied(alloc: Global, formula: &Formula) -> Result<Formula, AllocError>
    ensures { IfOk result (λ f. f ≡ formula.now) }
{
    let mut copy = Formula::new(alloc);
    for clause in formula.slice() {
        copy.push(Clause::from_slice(alloc, clause.slice())?)?;
    }
    Ok(copy)
}
