//! The line that is learned from a false clause.

ghost use Rattle.std.specs.Prelude.{◌≡◌, ℕ, ◌<◌, ◌≤◌, ◌++◌, ◌∷◌, [], length, take, IfOk, IfSome, IfNone, is_none, nat_lt};
ghost use Rattle.std.specs.List.{list_any};
ghost use Rattle.cnf_base.specs.Clauses.{variables, clause_variables};
ghost use Rattle.cnf_base.specs.Derivation.{accepted, outcome};
ghost use Rattle.cnf_search.specs.Trails.{Explained, nothing, values, IsConflict};
ghost use Rattle.cnf_search.specs.Lines.{known};
ghost use Rattle.cnf_search.specs.Passes.{IsLearned};
ghost use Rattle.cnf_search.specs.Backs.{told};

use crate::back::{Learning, look_back, reason_at};
use crate::trace::Trace;
use cnf_base::{Clause, Hints, Line};
use cnf_check::Checker;
use std::alloc::{AllocError, Global};

/// A line, and the place of the decision that it refutes; there is none where the line is empty.
#[derive(Drop, Debug)]
pub struct Learned {
    pub line: Line,
    pub found: Option<usize>,
}

/// What is learned from the false clause of this number.
pub fn learn(
    alloc: Global,
    checker: &Checker,
    trace: &Trace,
    conflict: u64,
) -> Result<Learned, AllocError>
    requires room { variables (known checker.now) ≤ trace.now.size }
    requires explained { Explained (known checker.now) nothing trace.now.entries }
    requires conflict { IsConflict (known checker.now) (values trace.now.entries) conflict }
    ensures accepted { IfOk result (λ l. outcome (known checker.now) l.line.clause l.line.hints ≡ accepted) }
    ensures within { IfOk result (λ l. clause_variables l.line.clause ≤ trace.now.size) }
    ensures found { IfOk result (λ l. IfSome l.found (λ k. IsLearned nothing 0 trace.now.entries l.line.clause k)) }
    ensures empty { IfOk result (λ l. IfNone l.found (l.line.clause ≡ [])) }
{
    let Some(clause) = checker.clause(conflict) else {
        unreachable!()
    };
    let reasons = trace.reasons();
    let base = first_decision(reasons);
    let learning = look_back(
        alloc,
        checker,
        trace.lits(),
        reasons,
        base,
        clause,
        trace.size(),
    )?;
    Ok(in_order(learning, conflict)?)
}

/// The place of the first entry without a reason.
fn first_decision(reasons: &[Option<u64>]) -> usize
    ensures { (i : ℕ) → i < length reasons.now → nat_lt result i ≡ list_any (λ o. is_none o) (take i reasons.now) }
{
    for place in 0..reasons.len() {
        if reason_at(reasons, place).is_none() {
            return place;
        }
    }
    reasons.len()
}

/// The clause and its hints from the first on, with the false clause as the last hint.
fn in_order(learning: Learning, conflict: u64) -> Result<Learned, AllocError>
    ensures clause { IfOk result (λ l. l.line.clause ≡ (told learning).clause) }
    ensures hints { IfOk result (λ l. l.line.hints ≡ (told learning).hints ++ conflict ∷ []) }
    ensures found { IfOk result (λ l. l.found ≡ learning.found) }
{
    let Learning {
        found,
        mut clause,
        mut hints,
        ..
    } = learning;
    clause.reverse();
    hints.reverse();
    hints.push(conflict)?;
    Ok(Learned {
        line: Line {
            clause: Clause::from_vec(clause),
            hints: Hints::from_vec(hints),
        },
        found,
    })
}
