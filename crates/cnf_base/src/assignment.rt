ghost use Rattle.std.specs.Prelude.{◌≡◌, ◌<◌, ◌≤◌, length, ◌↔◌, IsTrue};
ghost use Rattle.cnf_base.specs.Clauses.{IsSatisfied, variables, clause_variables, lit_true, clause_true, formula_true, value_in};

use crate::clause::{Clause, Formula, variables};
use crate::lit::Lit;
use asm_list::Listed;

/// One truth value for each variable, by its number.
pub type Assignment = Listed<bool>;

/// Whether the assignment makes the literal true.
pub fn makes_true(assignment: &Assignment, lit: Lit) -> bool
    requires { lit.var < length assignment.now }
    ensures { result ≡ lit_true (value_in assignment.now) lit }
{
    assignment.slice()[lit.var as usize] == lit.positive
}

#[tactic(auto, using(crate::proofs::VariableBounds::var_read))]
fn is_clause_true(clause: &Clause, assignment: &Assignment) -> bool
    requires { clause_variables clause.now ≤ length assignment.now }
    ensures { result ≡ clause_true (value_in assignment.now) clause.now }
{
    for lit in clause.slice() {
        if makes_true(assignment, *lit) {
            return true;
        }
    }
    false
}

/// Whether the assignment makes each clause of the formula true, and has no value beyond those of its variables.
pub fn satisfies(formula: &Formula, assignment: &Assignment) -> bool
    requires { variables formula.now ≤ length assignment.now }
    ensures { IsTrue result ↔ IsSatisfied formula.now assignment.now }
{
    assignment.len() == variables(formula) as usize && is_formula_true(formula, assignment)
}

#[tactic(auto, using(crate::proofs::VariableBounds::clause_read))]
fn is_formula_true(formula: &Formula, assignment: &Assignment) -> bool
    requires { variables formula.now ≤ length assignment.now }
    ensures { result ≡ formula_true (value_in assignment.now) formula.now }
{
    for clause in formula.slice() {
        if !is_clause_true(clause, assignment) {
            return false;
        }
    }
    true
}
