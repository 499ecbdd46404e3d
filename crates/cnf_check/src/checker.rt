ghost use Rattle.std.specs.Prelude.{◌≡◌, ◌≤◌, ◌++◌, [], ◌∷◌, OnOk, OnErr, IfOk, IfErr, IsOk, IsTrue, ◌↔◌, length, slice_get};
ghost use Rattle.std.specs.Option.{option_copied};
ghost use Rattle.cnf_base.specs.Clauses.{variables, clause_variables};
ghost use Rattle.cnf_base.specs.Derivation.{accepted, outcome, EndsEmpty, IsRefutation};
ghost use Rattle.cnf_check.specs.Checked.{clauses_after, AreDistinct, has_empty, HasNoSolution};
ghost use Rattle.cnf_check.specs.Answer.{Answers};

use crate::bad::Bad;
use crate::follow::{falsify, follow_hints};
use crate::kept::{Effort, Refutation};
use crate::lookup::clause_at;
use cnf_base::{Clause, Formula, Hints, Line, Lines, Trail, clause_variables, copied, variables};
use std::alloc::{AllocError, Global};
use std::marker::Model;

/// Keeps a formula and the lines that it accepted.
#[derive(Drop, Debug)]
pub struct Checker {
    alloc: Global,
    formula: Formula,
    lines: Lines,
    trail: Trail,
    finished: bool,
}

impl Model for Checker {
    ghost use Rattle.cnf_check.specs.Checked.{Checked, IsReady};

    ghost Value = { Checked };

    ghost view = { λ c. record { formula = c.formula; lines = c.lines } };

    ghost invariant = { λ c. IsReady c.formula c.lines c.trail c.finished };
}

impl Checker {
    /// A checker of lines for this formula, of which it keeps a copy.
    pub fn new(alloc: Global, formula: &Formula) -> Result<Checker, AllocError>
        ensures formula { IfOk result (λ c. c.formula ≡ formula.now) }
        ensures lines { IfOk result (λ c. c.lines ≡ []) }
    {
        let mut trail = Trail::new(alloc);
        trail.grow(variables(formula))?;
        Ok(Checker {
            alloc,
            formula: copied(alloc, formula)?,
            lines: Lines::new(alloc),
            trail,
            finished: false,
        })
    }

    /// The formula that the checker was made with.
    pub fn formula(&self) -> &Formula
        ensures { result.now ≡ self.now.formula }
    {
        &self.formula
    }

    /// The clause of this number: the formula's come first, then the lines'.
    pub fn clause(&self, number: u64) -> Option<&Clause>
        ensures { option_copied result ≡ slice_get (clauses_after self.now.formula self.now.lines) number }
    {
        clause_at(&self.formula, &self.lines, number)
    }

    /// The number of the next line.
    pub fn next_number(&self) -> u64
        ensures { result ≡ length (clauses_after self.now.formula self.now.lines) }
    {
        let clauses = self.formula.slice().len() as u64;
        let lines = self.lines.slice().len() as u64;
        clauses + lines
    }

    /// Tests a line, and keeps it where its hints lead to a false clause.
    pub fn add(&mut self, clause: &Clause, hints: &[u64]) -> Result<(), Bad>
        ensures answer { Answers result (outcome (clauses_after self.old.formula self.old.lines) clause.now hints.now) }
        ensures ok { OnOk result (self.new.lines ≡ self.old.lines ++ (record { clause = clause.now; hints = hints.now }) ∷ []) }
        ensures err { OnErr result (self.new.lines ≡ self.old.lines) }
        ensures formula { self.new.formula ≡ self.old.formula }
    {
        self.trail.grow(clause_variables(clause))?;
        let line = Line {
            clause: Clause::from_slice(self.alloc, clause.slice())?,
            hints: Hints::from_slice(self.alloc, hints)?,
        };
        let tested = test_line(&self.formula, &self.lines, &mut self.trail, clause, hints);
        self.trail.undo(0);
        tested?;
        self.lines.push(line)?;
        self.finished |= clause.is_empty();
        Ok(())
    }

    /// Keeps a line whose hints are known to lead to a false clause, and tests nothing.
    pub fn keep(&mut self, line: Line) -> Result<(), AllocError>
        requires { outcome (clauses_after self.old.formula self.old.lines) line.clause line.hints ≡ accepted }
        ensures ok { OnOk result (self.new.lines ≡ self.old.lines ++ line ∷ []) }
        ensures err { OnErr result (self.new.lines ≡ self.old.lines) }
        ensures formula { self.new.formula ≡ self.old.formula }
    {
        self.trail.grow(clause_variables(&line.clause))?;
        let ends = line.clause.is_empty();
        self.lines.push(line)?;
        self.finished |= ends;
        Ok(())
    }

    /// Whether the empty clause was accepted.
    pub fn finished(&self) -> bool
        ensures { result ≡ has_empty self.now.lines }
    {
        self.finished
    }

    /// The refutation, where the last line is the empty clause.
    pub fn refutation(self) -> Result<Refutation, Checker>
        ensures when { IsOk result ↔ EndsEmpty self.lines }
        ensures ok { IfOk result (λ r. r ≡ self) }
        ensures derivation { OnOk result (IsRefutation self.formula self.lines) }
        ensures err { IfErr result (λ c. c ≡ self) }
    {
        if !ends_empty(&self.lines) {
            return Err(self);
        }
        let Checker { formula, lines, .. } = self;
        Ok(Refutation { formula, lines })
    }

    /// The lines as an effort.
    pub fn effort(self) -> Effort
        requires { AreDistinct self.lines }
        ensures { result ≡ self }
    {
        let Checker { formula, lines, .. } = self;
        Effort { formula, lines }
    }
}

/// Whether the last line is the empty clause.
fn ends_empty(lines: &Lines) -> bool
    ensures { IsTrue result ↔ EndsEmpty lines.now }
{
    match lines.slice().last() {
        None => false,
        Some(line) => line.clause.is_empty(),
    }
}

/// Tests a line by its hints.
fn test_line(
    formula: &Formula,
    lines: &Lines,
    trail: &mut Trail,
    clause: &Clause,
    hints: &[u64],
) -> Result<(), Bad>
    requires room { variables (clauses_after formula.now lines.now) ≤ trail.old.size }
    requires new_room { clause_variables clause.now ≤ trail.old.size }
    requires idle { trail.old.lits ≡ [] }
    ensures size { trail.new.size ≡ trail.old.size }
    ensures answer { Answers result (outcome (clauses_after formula.now lines.now) clause.now hints.now) }
{
    if !falsify(trail, clause)? {
        return Err(Bad::Tautology);
    }
    follow_hints(formula, lines, trail, hints)
}
