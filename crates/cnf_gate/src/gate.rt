//! The clauses of one gate.

ghost use Rattle.std.specs.Prelude.{◌≡◌, ◌++◌, ◌∷◌, [], map, OnOk, IfOk, if◌then◌else◌};
ghost use Rattle.cnf_base.specs.Clauses.{negate};
ghost use Rattle.cnf_gate.specs.Gates.{gate_clauses, flip_all};

use cnf_base::{Clause, Lit};
use std::alloc::{AllocError, Global};

/// The literal, or its negation.
fn flipped(lit: Lit, flip: bool) -> Lit
    ensures { result ≡ (if flip then negate lit else lit) }
{
    if flip { lit.negated() } else { lit }
}

/// The clause that makes `output` true where each literal is.
fn long_clause(alloc: Global, output: Lit, lits: &[Lit], flip: bool) -> Result<Clause, AllocError>
    ensures { IfOk result (λ c. c ≡ output ∷ map negate (flip_all flip lits.now)) }
{
    let mut clause = Clause::new(alloc);
    clause.push(output)?;
    for lit in lits {
        clause.push(flipped(*lit, flip).negated())?;
    }
    Ok(clause)
}

pub fn pair(alloc: Global, first: Lit, second: Lit) -> Result<Clause, AllocError>
    ensures { IfOk result (λ c. c ≡ first ∷ second ∷ []) }
{
    let mut clause = Clause::new(alloc);
    clause.push(first)?;
    clause.push(second)?;
    Ok(clause)
}

pub fn push_clause(clauses: &mut Vec<Clause>, clause: Clause) -> Result<(), AllocError>
    ensures { OnOk result (clauses.new.items ≡ clauses.old.items ++ clause ∷ []) }
{
    clauses.push(clause)?;
    Ok(())
}

/// Adds the clauses by which `output` is true exactly where each literal, or its negation, is.
pub fn push_gate(
    clauses: &mut Vec<Clause>,
    alloc: Global,
    output: Lit,
    lits: &[Lit],
    flip: bool,
) -> Result<(), AllocError>
    ensures { OnOk result (clauses.new.items ≡ clauses.old.items ++ gate_clauses output (flip_all flip lits.now)) }
{
    push_clause(clauses, long_clause(alloc, output, lits, flip)?)?;
    for lit in lits {
        push_clause(clauses, pair(alloc, output.negated(), flipped(*lit, flip))?)?;
    }
    Ok(())
}
