ghost use Rattle.std.specs.Prelude.{◌≡◌, ◌++◌};
ghost use Rattle.cnf_gate.specs.Built.{AlwaysChoose};
ghost use Rattle.cnf_gate.specs.Circuit.{EachChoiceOnce, IsCircuit};

use cnf_base::{Formula, Groups};
use std::marker::Model;

/// A formula of group and gate clauses and required literals, with its groups. For each choice of one literal per
/// group there is exactly one assignment of the group and gate clauses.
#[derive(Drop, Debug)]
pub struct Circuit {
    pub(crate) formula: Formula,
    pub(crate) fixed: usize,
    pub(crate) groups: Groups,
}

impl Model for Circuit {
    ghost use Rattle.std.specs.Prelude.{take, drop};
    ghost use Rattle.cnf_gate.specs.Circuit.{Drawn, IsCircuit};

    ghost Value = { Drawn };

    ghost view = { λ c. record { fixed = take c.fixed c.formula; required = drop c.fixed c.formula; groups = c.groups } };

    ghost invariant = { λ c. IsCircuit (take c.fixed c.formula) (drop c.fixed c.formula) c.groups };
}

impl Circuit {
    /// The group and gate clauses, and then a clause for each required literal.
    #[tactic(auto, using(crate::proofs::Choice::choice_law))]
    pub fn formula(&self) -> &Formula
        ensures value { result.now ≡ self.now.fixed ++ self.now.required }
        ensures one { AlwaysChoose self.now.fixed self.now.groups }
        ensures choices { EachChoiceOnce self.now.fixed self.now.groups }
        ensures circuit { IsCircuit self.now.fixed self.now.required self.now.groups }
    {
        &self.formula
    }

    /// The groups, in the order in which they were made.
    #[tactic(auto, using(crate::proofs::Choice::choice_law))]
    pub fn groups(&self) -> &Groups
        ensures value { result.now ≡ self.now.groups }
        ensures one { AlwaysChoose self.now.fixed self.now.groups }
        ensures choices { EachChoiceOnce self.now.fixed self.now.groups }
        ensures circuit { IsCircuit self.now.fixed self.now.required self.now.groups }
    {
        &self.groups
    }
}
