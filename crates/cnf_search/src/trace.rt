ghost use Rattle.std.specs.Prelude.{◌≡◌, ℕ, ◌<◌, ◌≤◌, ◌++◌, ◌∷◌, [], length, take, None, is_none, OnOk, OnErr, IfOk, map};
ghost use Rattle.std.specs.List.{list_any};
ghost use Rattle.cnf_base.specs.Known.{is_true};
ghost use Rattle.cnf_base.specs.Clauses.{clause_variables};
ghost use Rattle.cnf_base.specs.Derivation.{is_all_false, lone};
ghost use Rattle.cnf_search.specs.Trails.{values};
ghost use Rattle.cnf_base.specs.Bounds.{IsVariable};
ghost use Rattle.cnf_search.specs.Ended.{completed};
ghost use Rattle.cnf_search.specs.Queue.{IsLitAt};

use cnf_base::{Clause, Lit, Trail};
use cnf_check::{is_clause_false, lone_literal};
use std::alloc::{AllocError, Global};
use std::marker::Model;

/// The literals that were made true, each with the number of its clause; a decision has none.
#[derive(Drop, Debug)]
pub struct Trace {
    trail: Trail,
    reasons: Vec<Option<u64>>,
}

impl Model for Trace {
    ghost use Rattle.cnf_search.specs.Trails.{Told, IsTrace, entries_of};

    ghost Value = { Told };

    ghost view = { λ t. record { entries = entries_of t.trail.lits t.reasons.items; size = t.trail.size } };

    ghost invariant = { λ t. IsTrace t.trail.lits t.reasons.items t.trail.size };
}

impl Trace {
    pub fn new(alloc: Global, size: u32) -> Result<Trace, AllocError>
        ensures entries { IfOk result (λ t. t.entries ≡ []) }
        ensures size { IfOk result (λ t. t.size ≡ size) }
    {
        let mut trail = Trail::new(alloc);
        trail.grow(size)?;
        Ok(Trace {
            trail,
            reasons: Vec::new(alloc),
        })
    }

    /// How many literals it has.
    pub fn len(&self) -> usize
        ensures value { result ≡ length self.now.entries }
        ensures short { length self.now.entries ≤ self.now.size }
    {
        self.trail.lits().len()
    }

    /// For how many variables it has room.
    pub fn size(&self) -> usize
        ensures { result ≡ self.now.size }
    {
        self.trail.size()
    }

    /// The literals, in their order.
    pub fn lits(&self) -> &[Lit]
        ensures value { result.now ≡ map (λ e. e.lit) self.now.entries }
        ensures within { clause_variables result.now ≤ self.now.size }
    {
        self.trail.lits()
    }

    /// The reasons, in their order.
    pub fn reasons(&self) -> &[Option<u64>]
        ensures { result.now ≡ map (λ e. e.reason) self.now.entries }
    {
        &self.reasons
    }

    /// The literal at a place.
    pub fn lit(&self, place: usize) -> Lit
        requires { place < length self.now.entries }
        ensures at { IsLitAt self.now.entries place result }
        ensures room { result.var < self.now.size }
    {
        let lits = self.trail.lits();
        lits[place]
    }

    pub fn is_false(&self, clause: &Clause) -> bool
        requires { clause_variables clause.now ≤ self.now.size }
        ensures { result ≡ is_all_false (values self.now.entries) clause.now }
    {
        is_clause_false(&self.trail, clause)
    }

    pub fn lone(&self, clause: &Clause) -> Option<Lit>
        requires { clause_variables clause.now ≤ self.now.size }
        ensures { result ≡ lone (values self.now.entries) clause.now }
    {
        lone_literal(&self.trail, clause)
    }

    /// Whether some literal of the clause is true.
    #[tactic(auto, using(cnf_base::proofs::VariableBounds::var_read))]
    pub fn has_true(&self, clause: &Clause) -> bool
        requires { clause_variables clause.now ≤ self.now.size }
        ensures { result ≡ list_any (is_true (values self.now.entries)) clause.now }
    {
        for lit in clause.slice() {
            if self.trail.is_true(*lit) {
                return true;
            }
        }
        false
    }

    /// Whether the literal has no value.
    #[tactic(auto, using(crate::proofs::Fronts::open_by))]
    pub fn is_open(&self, lit: Lit) -> bool
        requires { lit.var < self.now.size }
        ensures { result ≡ is_none (values self.now.entries lit.var) }
    {
        !self.trail.is_true(lit) && !self.trail.is_false(lit)
    }

    /// The value of a variable, and false where it has none.
    #[tactic(auto, using(crate::proofs::Fronts::value_by))]
    pub fn value(&self, var: u32) -> bool
        requires room { var < self.now.size }
        requires variable { IsVariable var }
        ensures { result ≡ completed (values self.now.entries) var }
    {
        self.trail.is_true(Lit::new(var, true))
    }

    /// Takes back all but the first `count` literals.
    pub fn undo(&mut self, count: usize)
        requires { count ≤ length self.old.entries }
        ensures entries { self.new.entries ≡ take count self.old.entries }
        ensures size { self.new.size ≡ self.old.size }
    {
        self.trail.undo(count);
        self.reasons.truncate(count);
    }

    /// Makes a literal true that has no value.
    pub fn push(&mut self, lit: Lit, reason: Option<u64>) -> Result<(), AllocError>
        requires room { lit.var < self.old.size }
        requires fresh { values self.old.entries lit.var ≡ None }
        ensures ok { OnOk result (self.new.entries ≡ self.old.entries ++ (record { lit = lit; reason = reason }) ∷ []) }
        ensures err { OnErr result (self.new.entries ≡ self.old.entries) }
        ensures size { self.new.size ≡ self.old.size }
    {
        self.reasons.push(reason)?;
        if let Err(error) = self.trail.set(lit) {
            self.reasons.pop();
            return Err(error);
        }
        Ok(())
    }
}
