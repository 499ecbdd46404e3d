//! The clauses of a group: a ladder in which each rung adds one literal, and says whether an earlier one is true.

ghost use Rattle.std.specs.Prelude.{◌≡◌, ◌+◌, ◌*◌, ◌<◌, ◌≤◌, ◌++◌, OnOk, IfOk};
ghost use Rattle.cnf_gate.specs.Ladder.{rung_clauses, IsGroup};

use crate::gate::{pair, push_clause, push_gate};
use cnf_base::{Clause, Lit, Lits};
use std::alloc::{AllocError, Global};

/// Adds one more literal to a group: `some` is true exactly where an earlier one is, and the negation of `output`
/// where `next` or an earlier one is.
fn push_rung(
    clauses: &mut Vec<Clause>,
    alloc: Global,
    output: Lit,
    some: Lit,
    next: Lit,
) -> Result<(), AllocError>
    ensures { OnOk result (clauses.new.items ≡ clauses.old.items ++ rung_clauses output some next) }
{
    push_clause(clauses, pair(alloc, next.negated(), some.negated())?)?;
    push_gate(clauses, alloc, output, &[some, next], true)
}

/// New literals from the variable `first` on, with clauses by which exactly one of them is true.
pub fn group_clauses(
    alloc: Global,
    first: u32,
    size: u32,
) -> Result<(Lits, Vec<Clause>), AllocError>
    requires some { 0 < size }
    requires room { first + 2 * size ≤ 2000001 }
    ensures { IfOk result (λ made. IsGroup made.1.items first size made.0) }
{
    let mut clauses = Vec::new(alloc);
    let mut some = Lit::new(first, true);
    let mut lits = Lits::new(alloc);
    lits.push(some)?;
    for i in 1..size {
        let next = Lit::new(first + 2 * i - 1, true);
        let output = Lit::new(first + 2 * i, false);
        push_rung(&mut clauses, alloc, output, some, next)?;
        lits.push(next)?;
        some = output.negated();
    }
    push_clause(&mut clauses, Clause::from_slice(alloc, lits.slice())?)?;
    Ok((lits, clauses))
}
