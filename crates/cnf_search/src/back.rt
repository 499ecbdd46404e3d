//! One pass back over the trail, which makes the learned clause.

ghost use Rattle.std.specs.Prelude.{◌≡◌, ℕ, ◌+◌, ◌<◌, ◌≤◌, ◌&&◌, length, OnOk, IfOk, Some, None, is_some, slice_get, true, false, nat_lt, slice_index_or};
ghost use Rattle.cnf_base.specs.Clauses.{clause_variables, variables};
ghost use Rattle.cnf_search.specs.Lines.{known};
ghost use Rattle.cnf_search.specs.Trails.{entries_of};
ghost use Rattle.cnf_search.specs.Passes.{with_clause, step, pass, begun};
ghost use Rattle.cnf_search.specs.Backs.{marked, told, late_at};

use cnf_base::{Clause, Lit};
use cnf_check::Checker;
use std::alloc::{AllocError, Global};

/// The marked variables, the place of the last marked decision, and the clause and its hints so far, from the last on.
#[derive(Drop, Debug)]
pub struct Learning {
    pub seen: Vec<bool>,
    pub found: Option<usize>,
    pub clause: Vec<Lit>,
    pub hints: Vec<u64>,
}

/// Marks the variables of a clause.
#[tactic(auto, using(cnf_base::proofs::VariableBounds::var_read))]
pub fn mark(seen: &mut Vec<bool>, clause: &Clause)
    requires { clause_variables clause.now ≤ length seen.old.items }
    ensures len { length seen.new.items ≡ length seen.old.items }
    ensures marked { (n : ℕ) → marked seen.new.items n ≡ with_clause (Some clause.now) (marked seen.old.items) n }
{
    for lit in clause.slice() {
        seen[lit.var as usize] = true;
    }
}

/// Marks the variables of the clause of this number.
pub fn mark_known(seen: &mut Vec<bool>, checker: &Checker, number: u64)
    requires { variables (known checker.now) ≤ length seen.old.items }
    ensures len { length seen.new.items ≡ length seen.old.items }
    ensures marked { (n : ℕ) → marked seen.new.items n ≡ with_clause (slice_get (known checker.now) number) (marked seen.old.items) n }
{
    match checker.clause(number) {
        Some(clause) => mark(seen, clause),
        None => {}
    }
}

/// Takes one entry of the trail into the clause.
pub fn take_entry(
    checker: &Checker,
    learning: &mut Learning,
    place: usize,
    lit: Lit,
    reason: Option<u64>,
    late: bool,
) -> Result<(), AllocError>
    requires room { variables (known checker.now) ≤ length learning.old.seen.items }
    requires within { lit.var < length learning.old.seen.items }
    ensures len { length learning.new.seen.items ≡ length learning.old.seen.items }
    ensures step { OnOk result (told learning.new ≡ step (known checker.now) place reason lit (told learning.old) (marked learning.old.seen.items lit.var) (late && is_some learning.old.found)) }
{
    if !learning.seen[lit.var as usize] {
        return Ok(());
    }
    let Some(number) = reason else {
        if learning.found.is_none() {
            learning.found = Some(place);
        }
        learning.clause.push(lit.negated())?;
        return Ok(());
    };
    if late && learning.found.is_some() {
        learning.clause.push(lit.negated())?;
        return Ok(());
    }
    mark_known(&mut learning.seen, checker, number);
    learning.hints.push(number)?;
    Ok(())
}

fn unmarked(alloc: Global, count: usize) -> Result<Vec<bool>, AllocError>
    ensures long { IfOk result (λ marks. length marks.items ≡ count) }
    ensures none { IfOk result (λ marks. (n : ℕ) → marked marks.items n ≡ false) }
{
    let mut marks = Vec::new(alloc);
    for _ in 0..count {
        marks.push(false)?;
    }
    Ok(marks)
}

pub fn reason_at(reasons: &[Option<u64>], place: usize) -> Option<u64>
    requires { place < length reasons.now }
    ensures { result ≡ slice_index_or reasons.now place result }
{
    reasons[place]
}

/// Goes back over the trail, whose first decision stands at `base`, from a clause that is false under it.
pub fn look_back(
    alloc: Global,
    checker: &Checker,
    lits: &[Lit],
    reasons: &[Option<u64>],
    base: usize,
    conflict: &Clause,
    count: usize,
) -> Result<Learning, AllocError>
    requires room { variables (known checker.now) ≤ count }
    requires new_room { clause_variables conflict.now ≤ count }
    requires within { clause_variables lits.now ≤ count }
    requires paired { length reasons.now ≡ length lits.now }
    requires base { (i : ℕ) → i < length lits.now → nat_lt base i ≡ late_at (entries_of lits.now reasons.now) i }
    ensures { IfOk result (λ l. told l ≡ pass (known checker.now) false 0 (entries_of lits.now reasons.now) (begun conflict.now)) }
{
    let mut learning = Learning {
        seen: unmarked(alloc, count)?,
        found: None,
        clause: Vec::new(alloc),
        hints: Vec::new(alloc),
    };
    mark(&mut learning.seen, conflict);
    let mut place = lits.len();
    while place > 0 {
        place -= 1;
        let lit = lits[place];
        let reason = reason_at(reasons, place);
        take_entry(checker, &mut learning, place, lit, reason, base < place)?;
    }
    Ok(learning)
}
