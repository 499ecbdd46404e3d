//! The hints of a line, followed one after the other.

ghost use Rattle.std.specs.Prelude.{◌≡◌, ℕ, ◌+◌, ◌<◌, ◌≤◌, ◌++◌, [], length, slice_get, not, true, IfOk};
ghost use Rattle.cnf_base.specs.Clauses.{clause_variables, variables};
ghost use Rattle.cnf_base.specs.Known.{value_of};
ghost use Rattle.cnf_base.specs.Derivation.{follow, is_tautology, falsified};
ghost use Rattle.cnf_check.specs.Checked.{clauses_after};
ghost use Rattle.cnf_check.specs.Answer.{Answers};

use crate::bad::Bad;
use crate::lookup::{clause_at, is_clause_false, lone_literal};
use cnf_base::{Clause, Formula, Lines, Trail};
use std::alloc::AllocError;

/// Makes each literal of the clause false, and says whether it has no literal beside its negation.
pub fn falsify(trail: &mut Trail, clause: &Clause) -> Result<bool, AllocError>
    requires room { clause_variables clause.now ≤ trail.old.size }
    requires idle { trail.old.lits ≡ [] }
    ensures size { trail.new.size ≡ trail.old.size }
    ensures tautology { IfOk result (λ b. b ≡ not (is_tautology clause.now)) }
    ensures values { IfOk result (λ b. b ≡ true → value_of trail.new.lits ≡ falsified clause.now) }
{
    for lit in clause.slice() {
        if trail.is_true(*lit) {
            return Ok(false);
        }
        if trail.is_false(*lit) {
            continue;
        }
        trail.set(lit.negated())?;
    }
    Ok(true)
}

/// Takes the hinted clauses in turn.
pub fn follow_hints(
    formula: &Formula,
    lines: &Lines,
    trail: &mut Trail,
    hints: &[u64],
) -> Result<(), Bad>
    requires { variables (clauses_after formula.now lines.now) ≤ trail.old.size }
    ensures size { trail.new.size ≡ trail.old.size }
    ensures answer { Answers result (follow (clauses_after formula.now lines.now) (value_of trail.old.lits) 0 hints.now) }
{
    for (i, hint) in hints.iter().enumerate() {
        let place = i as u64;
        let Some(clause) = clause_at(formula, lines, *hint) else {
            return Err(Bad::NoSuchHint(place));
        };
        if i + 1 == hints.len() {
            return if is_clause_false(trail, clause) {
                Ok(())
            } else {
                Err(Bad::NoConflict)
            };
        }
        let Some(lit) = lone_literal(trail, clause) else {
            return Err(Bad::NotUnit(place));
        };
        trail.set(lit)?;
    }
    Err(Bad::NoConflict)
}
