//! What a trail makes of the literals of a clause.

ghost use Rattle.std.specs.Prelude.{◌≡◌, ◌≤◌, slice_get};
ghost use Rattle.std.specs.Option.{option_copied};
ghost use Rattle.cnf_base.specs.Clauses.{clause_variables};
ghost use Rattle.cnf_base.specs.Known.{value_of};
ghost use Rattle.cnf_base.specs.Derivation.{is_all_false, lone};
ghost use Rattle.cnf_check.specs.Checked.{clauses_after};

use cnf_base::{Clause, Formula, Lines, Lit, Trail};

/// The clause of this number: the formula's come first, then the lines'.
pub fn clause_at<'a>(formula: &'a Formula, lines: &'a Lines, number: u64) -> Option<&'a Clause>
    ensures { option_copied result ≡ slice_get (clauses_after formula.now lines.now) number }
{
    let count = formula.len() as u64;
    if number < count {
        return formula.slice().get(number as usize);
    }
    let line = lines.slice().get((number - count) as usize)?;
    Some(&line.clause)
}

/// Whether each literal of the clause is false.
#[tactic(auto, using(cnf_base::proofs::VariableBounds::var_read))]
pub fn is_clause_false(trail: &Trail, clause: &Clause) -> bool
    requires { clause_variables clause.now ≤ trail.now.size }
    ensures { result ≡ is_all_false (value_of trail.now.lits) clause.now }
{
    for lit in clause.slice() {
        if !trail.is_false(*lit) {
            return false;
        }
    }
    true
}

/// The literal of the clause that has no value, where all others are false.
#[tactic(auto, using(cnf_base::proofs::VariableBounds::var_read))]
pub fn lone_literal(trail: &Trail, clause: &Clause) -> Option<Lit>
    requires { clause_variables clause.now ≤ trail.now.size }
    ensures { result ≡ lone (value_of trail.now.lits) clause.now }
{
    let mut found: Option<Lit> = None;
    for lit in clause.slice() {
        if trail.is_false(*lit) {
            continue;
        }
        if trail.is_true(*lit) {
            return None;
        }
        match found {
            None => found = Some(*lit),
            Some(other) => {
                if other != *lit {
                    return None;
                }
            }
        }
    }
    found
}
