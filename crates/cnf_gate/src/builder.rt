ghost use Rattle.std.specs.Prelude.{◌≡◌, ℕ, ◌+◌, ◌*◌, ◌<◌, ◌≤◌, ◌++◌, ◌∷◌, [], length, OnOk, OnErr, IfOk, Bool, true, not, vec_len, vec_capacity};
ghost use Rattle.std.specs.List.{list_all, list_any};
ghost use Rattle.cnf_base.specs.Clauses.{clause_variables, lit_true, formula_true, variables};
ghost use Rattle.cnf_gate.specs.Built.{AddsGate, AddsGroup, AreRising, Grows, size_of, exactly_one};
ghost use Rattle.cnf_gate.specs.Circuit.{EachChoiceOnce};
ghost use Rattle.cnf_gate.specs.Gates.{gate_clauses, flip_all};
ghost use Rattle.cnf_gate.specs.Limits.{IsOverLimit, IsWithinLimits, OnTooLarge};

use crate::circuit::Circuit;
use crate::gate::push_gate;
use crate::ladder::group_clauses;
use cnf_base::{Clause, Formula, Groups, Lit, Lits};
use std::alloc::{AllocError, Global};
use std::marker::Model;

const MOST_VARIABLES: u64 = 2_000_000;

const MOST_LITERALS: u64 = 30_000_000;

/// Why a builder refuses.
#[derive(Drop, Debug)]
pub enum GateError {
    /// The circuit would pass 2,000,000 variables, or 30,000,000 literals over all clauses.
    TooLarge,
    /// Memory ran out.
    Memory,
}

impl From<AllocError> for GateError {
    ghost use Rattle.std.specs.Prelude.{◌≡◌};
    ghost use Rattle.cnf_gate.specs.declared.builder.GateError.{GateError};

    ghost from_gives = { λ _ r. r ≡ GateError.Memory };

    fn from(_error: AllocError) -> GateError {
        GateError::Memory
    }
}

/// Makes a circuit, gate by gate. After a refusal it is as before.
///
/// The group and gate clauses always have room for the required ones behind them, so that `finish` takes no memory.
#[derive(Drop, Debug)]
pub struct Builder {
    alloc: Global,
    fixed: Vec<Clause>,
    required: Vec<Clause>,
    groups: Groups,
    variables: u32,
    literals: u64,
}

impl Model for Builder {
    ghost use Rattle.std.specs.Prelude.{◌+◌, ◌≤◌, vec_len, vec_capacity};
    ghost use Rattle.cnf_gate.specs.Built.{Built, IsBuilt};

    ghost Value = { Built };

    ghost view = { λ b. record { fixed = b.fixed.items; required = b.required.items; groups = b.groups; count = b.variables } };

    ghost invariant = { λ b. IsBuilt b.fixed.items b.required.items b.groups b.variables b.literals × (vec_len b.fixed + vec_len b.required ≤ vec_capacity b.fixed) };
}

impl Builder {
    /// The circuit of no clauses.
    pub fn new(alloc: Global) -> Builder
        ensures fixed { result.fixed ≡ [] }
        ensures required { result.required ≡ [] }
        ensures groups { result.groups ≡ [] }
        ensures count { result.count ≡ 0 }
    {
        Builder {
            alloc,
            fixed: Vec::new(alloc),
            required: Vec::new(alloc),
            groups: Groups::new(alloc),
            variables: 0,
            literals: 0,
        }
    }

    /// New literals of which exactly one is true.
    pub fn group(&mut self, size: u32) -> Result<Lits, GateError>
        requires { 0 < size }
        ensures one { IfOk result (λ g. (v : ℕ → Bool) → formula_true v self.new.fixed ≡ true → exactly_one v g ≡ true) }
        ensures long { IfOk result (λ g. length g ≡ size) }
        ensures fresh { IfOk result (λ g. AreRising self.old.count g) }
        ensures within { IfOk result (λ g. clause_variables g ≤ self.new.count) }
        ensures adds { IfOk result (λ g. AddsGroup self.old self.new g) }
        ensures grows { IfOk result (λ g. Grows self.old self.new (g ∷ []) []) }
        ensures count { OnOk result (self.new.count + 1 ≡ self.old.count + 2 * size) }
        ensures size { OnOk result (size_of self.new + 9 ≡ size_of self.old + 10 * size) }
        ensures limits { OnOk result (IsWithinLimits self.new.count (size_of self.new)) }
        ensures too_large { OnTooLarge result (IsOverLimit (self.old.count + 2 * size) (size_of self.old + 12 * size)) }
        ensures err { OnErr result (self.new ≡ self.old) }
    {
        let more_variables = 2 * size as u64 - 1;
        let more_literals = 10 * size as u64 - 9;
        if self.variables as u64 + more_variables > MOST_VARIABLES {
            return Err(GateError::TooLarge);
        }
        if self.literals + more_literals > MOST_LITERALS {
            return Err(GateError::TooLarge);
        }
        let (lits, more) = group_clauses(self.alloc, self.variables, size)?;
        let copy = Lits::from_slice(self.alloc, lits.slice())?;
        self.fixed.reserve(more.len() + self.required.len())?;
        self.groups.push(copy)?;
        append_reserved(&mut self.fixed, more);
        self.variables += more_variables as u32;
        self.literals += more_literals;
        Ok(lits)
    }

    /// A literal that is true exactly where each given one is, so of none it is true.
    pub fn and(&mut self, lits: &[Lit]) -> Result<Lit, GateError>
        requires { clause_variables lits.now ≤ self.old.count }
        ensures means { IfOk result (λ l. (v : ℕ → Bool) → formula_true v self.new.fixed ≡ true → lit_true v l ≡ list_all (lit_true v) lits.now) }
        ensures within { IfOk result (λ l. l.var < self.new.count) }
        ensures adds { OnOk result (AddsGate self.old self.new) }
        ensures grows { Grows self.old self.new [] [] }
        ensures count { OnOk result (self.new.count ≡ self.old.count + 1) }
        ensures size { OnOk result (size_of self.new ≡ size_of self.old + 3 * length lits.now + 1) }
        ensures limits { OnOk result (IsWithinLimits self.new.count (size_of self.new)) }
        ensures too_large { OnTooLarge result (IsOverLimit (self.old.count + 1) (size_of self.old + 3 * length lits.now + 1)) }
        ensures err { OnErr result (self.new ≡ self.old) }
    {
        self.gate(lits, false)
    }

    /// A literal that is true exactly where at least one of the given ones is, so of none it is false.
    pub fn or(&mut self, lits: &[Lit]) -> Result<Lit, GateError>
        requires { clause_variables lits.now ≤ self.old.count }
        ensures means { IfOk result (λ l. (v : ℕ → Bool) → formula_true v self.new.fixed ≡ true → lit_true v l ≡ list_any (lit_true v) lits.now) }
        ensures within { IfOk result (λ l. l.var < self.new.count) }
        ensures adds { OnOk result (AddsGate self.old self.new) }
        ensures grows { Grows self.old self.new [] [] }
        ensures count { OnOk result (self.new.count ≡ self.old.count + 1) }
        ensures size { OnOk result (size_of self.new ≡ size_of self.old + 3 * length lits.now + 1) }
        ensures limits { OnOk result (IsWithinLimits self.new.count (size_of self.new)) }
        ensures too_large { OnTooLarge result (IsOverLimit (self.old.count + 1) (size_of self.old + 3 * length lits.now + 1)) }
        ensures err { OnErr result (self.new ≡ self.old) }
    {
        Ok(self.gate(lits, true)?.negated())
    }

    /// The literal that is true exactly where the given one is false. It adds nothing.
    pub fn not(lit: Lit) -> Lit
        ensures means { (v : ℕ → Bool) → lit_true v result ≡ not (lit_true v lit) }
        ensures var { result.var ≡ lit.var }
        ensures sign { result.positive ≡ not lit.positive }
    {
        lit.negated()
    }

    /// Makes the literal true in each solution, by the clause of it alone.
    pub fn require(&mut self, lit: Lit) -> Result<(), GateError>
        requires { lit.var < self.old.count }
        ensures ok { OnOk result (self.new ≡ record self.old { required = self.old.required ++ (lit ∷ []) ∷ [] }) }
        ensures grows { OnOk result (Grows self.old self.new [] ((lit ∷ []) ∷ [])) }
        ensures limits { OnOk result (IsWithinLimits self.new.count (size_of self.new)) }
        ensures too_large { OnTooLarge result (IsOverLimit self.old.count (size_of self.old + 1)) }
        ensures err { OnErr result (self.new ≡ self.old) }
    {
        if self.literals + 1 > MOST_LITERALS {
            return Err(GateError::TooLarge);
        }
        let clause = Clause::from_slice(self.alloc, &[lit])?;
        self.fixed.reserve(self.required.len() + 1)?;
        push_clause(&mut self.required, clause)?;
        self.literals += 1;
        Ok(())
    }

    /// The circuit: its formula has the group and gate clauses first, and then the required literals.
    pub fn finish(self) -> Circuit
        ensures fixed { result.fixed ≡ self.fixed }
        ensures required { result.required ≡ self.required }
        ensures groups { result.groups ≡ self.groups }
        ensures count { variables result.fixed ≡ self.count }
    {
        let Builder {
            fixed: mut clauses,
            required,
            groups,
            ..
        } = self;
        let fixed = clauses.len();
        append_reserved(&mut clauses, required);
        Circuit {
            formula: Formula::from_vec(clauses),
            fixed,
            groups,
        }
    }

    /// A literal that is true exactly where each given one, or its negation, is.
    fn gate(&mut self, lits: &[Lit], flip: bool) -> Result<Lit, GateError>
        requires { clause_variables lits.now ≤ self.old.count }
        ensures within { IfOk result (λ l. l.var < self.new.count) }
        ensures fixed { IfOk result (λ l. self.new.fixed ≡ self.old.fixed ++ gate_clauses l (flip_all flip lits.now)) }
        ensures rest { OnOk result ((self.new.required ≡ self.old.required) × (self.new.groups ≡ self.old.groups)) }
        ensures grows { Grows self.old self.new [] [] }
        ensures count { OnOk result (self.new.count ≡ self.old.count + 1) }
        ensures size { OnOk result (size_of self.new ≡ size_of self.old + 3 * length lits.now + 1) }
        ensures limits { OnOk result (IsWithinLimits self.new.count (size_of self.new)) }
        ensures too_large { OnTooLarge result (IsOverLimit (self.old.count + 1) (size_of self.old + 3 * length lits.now + 1)) }
        ensures err { OnErr result (self.new ≡ self.old) }
    {
        let more_literals = 3 * lits.len() as u64 + 1;
        if self.variables as u64 + 1 > MOST_VARIABLES {
            return Err(GateError::TooLarge);
        }
        if self.literals + more_literals > MOST_LITERALS {
            return Err(GateError::TooLarge);
        }
        let output = Lit::new(self.variables, !flip);
        let mut more = Vec::new(self.alloc);
        push_gate(&mut more, self.alloc, output, lits, flip)?;
        self.fixed.reserve(more.len() + self.required.len())?;
        append_reserved(&mut self.fixed, more);
        self.variables += 1;
        self.literals += more_literals;
        Ok(output)
    }
}

/// Adds clauses for which there is room.
fn append_reserved(clauses: &mut Vec<Clause>, mut more: Vec<Clause>)
    requires { vec_len clauses.old + vec_len more ≤ vec_capacity clauses.old }
    ensures items { clauses.new.items ≡ clauses.old.items ++ more.items }
    ensures len { vec_len clauses.new ≡ vec_len clauses.old + vec_len more }
    ensures capacity { vec_capacity clauses.old ≤ vec_capacity clauses.new }
{
    if clauses.append(&mut more).is_err() {
        unreachable!();
    }
}

fn push_clause(clauses: &mut Vec<Clause>, clause: Clause) -> Result<(), AllocError>
    ensures ok { OnOk result (clauses.new.items ≡ clauses.old.items ++ clause ∷ []) }
    ensures len { OnOk result (vec_len clauses.new ≡ vec_len clauses.old + 1) }
    ensures err { OnErr result (clauses.new.items ≡ clauses.old.items) }
    ensures err_len { OnErr result (vec_len clauses.new ≡ vec_len clauses.old) }
{
    clauses.push(clause)?;
    Ok(())
}
