ghost use Rattle.std.specs.Prelude.{◌≡◌, ℕ, ◌+◌, ◌<◌, ◌≤◌, ◌++◌, length, IfOk, [], take, true};
ghost use Rattle.cnf_base.specs.Clauses.{value_in};
ghost use Rattle.cnf_search.specs.Trails.{values};
ghost use Rattle.cnf_search.specs.Ended.{completed};
ghost use Rattle.cnf_search.specs.Found.{Finds};
ghost use Rattle.cnf_search.specs.Walks.{Begins};

use crate::index::index_of;
use crate::order::ordered;
use crate::trace::Trace;
use crate::walk::{End, Walk, walk_on};
use cnf_base::{Assignment, Formula, variables};
use cnf_check::{Checker, Effort, Refutation};
use cnf_gate::Circuit;
use std::alloc::{AllocError, Global};

/// What a search found.
#[derive(Drop, Debug)]
pub enum Found {
    /// An assignment that satisfies the circuit's formula.
    Solved(Assignment),
    /// A refutation of the circuit's formula.
    Refuted(Refutation),
    /// The lines of as many conflicts as the budget allows. There are more choices of one literal per group than it.
    Spent(Effort),
}

/// The values of the trail below `count`, and false where there is none.
fn assignment(alloc: Global, trace: &Trace, count: u32) -> Result<Assignment, AllocError>
    requires room { count ≤ trace.now.size }
    requires few { count ≤ 2000000 }
    ensures long { IfOk result (λ a. length a ≡ count) }
    ensures values { IfOk result (λ a. (n : ℕ) → n < count → value_in a n ≡ completed (values trace.now.entries) n) }
{
    let mut list = Vec::new(alloc);
    for var in 0..count {
        list.push(trace.value(var))?;
    }
    Ok(Assignment::from_vec(list))
}

/// A walk that has done nothing yet.
fn begin(alloc: Global, formula: &Formula, budget: u64) -> Result<Walk, AllocError>
    ensures { IfOk result (λ w. Begins formula.now budget w) }
{
    let count = variables(formula);
    Ok(Walk {
        checker: Checker::new(alloc, formula)?,
        lists: index_of(alloc, formula, count)?,
        trace: Trace::new(alloc, count)?,
        levels: Vec::new(alloc),
        head: 0,
        left: 0,
        budget,
    })
}

/// Looks for an assignment of the circuit's formula, and counts at most `budget` conflicts.
///
/// It decides those groups first whose literals stand in the most clauses on average, as the formula is at the start, and
/// where that is the same, in the order in which they were made. It takes the literals of a group in their order, and
/// propagates after each decision. From a conflict it learns a line, goes back to the deepest decision that the line
/// speaks of, and makes that decision false by the line. It calls itself for nothing.
pub fn search(alloc: Global, circuit: &Circuit, budget: u64) -> Result<Found, AllocError>
    ensures { IfOk result (λ f. Finds circuit.now budget f) }
{
    let formula = circuit.formula();
    let mut walk = begin(alloc, formula, budget)?;
    let groups = ordered(alloc, &walk.lists, circuit.groups().slice())?;
    match walk_on(alloc, &mut walk, &groups)? {
        End::Solved => Ok(Found::Solved(assignment(alloc, &walk.trace, variables(formula))?)),
        End::Spent => Ok(Found::Spent(walk.checker.effort())),
        End::Refuted => match walk.checker.refutation() {
            Ok(refutation) => Ok(Found::Refuted(refutation)),
            Err(_) => unreachable!(),
        },
    }
}
