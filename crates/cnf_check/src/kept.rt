ghost use Rattle.std.specs.Prelude.{◌≡◌, ◌<◌, length};
ghost use Rattle.cnf_base.specs.Derivation.{AreAccepted, IsRefutation};
ghost use Rattle.cnf_check.specs.Checked.{AreDistinct, HasNoSolution};

use cnf_base::{Formula, Lines};
use std::marker::Model;

/// A formula and an accepted derivation of the empty clause from it, so whoever holds one knows that nothing
/// satisfies the formula.
#[derive(Drop, Debug)]
pub struct Refutation {
    pub(crate) formula: Formula,
    pub(crate) lines: Lines,
}

impl Model for Refutation {
    ghost use Rattle.cnf_base.specs.Derivation.{IsRefutation};
    ghost use Rattle.cnf_check.specs.Checked.{Checked};

    ghost Value = { Checked };

    ghost view = { λ r. record { formula = r.formula; lines = r.lines } };

    ghost invariant = { λ r. IsRefutation r.formula r.lines };
}

impl Refutation {
    /// The formula that is refuted.
    pub fn formula(&self) -> &Formula
        ensures value { result.now ≡ self.now.formula }
        ensures derivation { IsRefutation self.now.formula self.now.lines }
        ensures unsatisfied { HasNoSolution self.now.formula }
    {
        &self.formula
    }

    /// The lines of the derivation, in order.
    pub fn derivation(&self) -> &Lines
        ensures value { result.now ≡ self.now.lines }
        ensures refutes { IsRefutation self.now.formula self.now.lines }
    {
        &self.lines
    }

    /// The number of lines of the derivation.
    pub fn lines(&self) -> u64
        ensures count { result ≡ length self.now.lines }
        ensures derivation { IsRefutation self.now.formula self.now.lines }
    {
        self.lines.len() as u64
    }
}

/// A formula and lines that were accepted for it one after the other, no two with the same literals.
#[derive(Drop, Debug)]
pub struct Effort {
    pub(crate) formula: Formula,
    pub(crate) lines: Lines,
}

impl Model for Effort {
    ghost use Rattle.cnf_base.specs.Derivation.{AreAccepted};
    ghost use Rattle.cnf_check.specs.Checked.{Checked, Tries};

    ghost Value = { Checked };

    ghost view = { λ e. record { formula = e.formula; lines = e.lines } };

    ghost invariant = { λ e. Tries e.formula e.lines };
}

impl Effort {
    /// The number of lines.
    pub fn lines(&self) -> u64
        ensures count { result ≡ length self.now.lines }
        ensures accepted { AreAccepted self.now.formula self.now.lines }
        ensures distinct { AreDistinct self.now.lines }
    {
        self.lines.len() as u64
    }
}
