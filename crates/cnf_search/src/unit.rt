//! Unit propagation: literals that a clause leaves alone become true, and only the clauses of a literal that became
//! false are looked at.

ghost use Rattle.std.specs.Prelude.{◌≡◌, ℕ, ◌<◌, ◌≤◌, ◌++◌, ◌∷◌, [], length, drop, IfOk, IfSome, IfNone, true, nat_eq};
ghost use Rattle.std.specs.List.{list_any};
ghost use Rattle.cnf_base.specs.Clauses.{variables};
ghost use Rattle.cnf_gate.specs.Built.{is_quiet};
ghost use Rattle.cnf_search.specs.Trails.{Explained, nothing, values, Grows, IsConflict};
ghost use Rattle.cnf_search.specs.Lines.{known};
ghost use Rattle.cnf_search.specs.Queue.{AsksAt, AreSettled, IsIndex};

use crate::index::{Index, clauses_with};
use crate::trace::Trace;
use cnf_base::Lit;
use cnf_check::Checker;
use std::alloc::{AllocError, Global};

/// What a clause asks for.
#[derive(Drop)]
pub enum Task {
    /// The clause is false.
    Conflict,
    /// The clause leaves this literal alone.
    Forced(Lit),
    /// Nothing.
    Quiet,
}

/// Looks at the clause of this number.
fn task_at(checker: &Checker, trace: &Trace, number: u64) -> Task
    requires { variables (known checker.now) ≤ trace.now.size }
    ensures { AsksAt (known checker.now) (values trace.now.entries) number result }
{
    let Some(clause) = checker.clause(number) else {
        return Task::Quiet;
    };
    if trace.is_false(clause) {
        return Task::Conflict;
    }
    match trace.lone(clause) {
        Some(lit) => Task::Forced(lit),
        None => Task::Quiet,
    }
}

/// Looks at the clauses of these numbers, and makes the literals true that they leave. It answers the number of a clause
/// that is false, where it meets one.
pub fn visit(
    checker: &Checker,
    trace: &mut Trace,
    numbers: &[u64],
) -> Result<Option<u64>, AllocError>
    requires room { variables (known checker.now) ≤ trace.old.size }
    requires explained { Explained (known checker.now) nothing trace.old.entries }
    ensures explained { Explained (known checker.now) nothing trace.new.entries }
    ensures grows { Grows trace.old.entries trace.new.entries }
    ensures size { trace.new.size ≡ trace.old.size }
    ensures conflict { IfOk result (λ o. IfSome o (λ n. IsConflict (known checker.now) (values trace.new.entries) n)) }
    ensures settled { IfOk result (λ o. IfNone o ((k : ℕ) → k ≤ length trace.old.entries → AreSettled (known checker.now) (values trace.old.entries) (drop k trace.old.entries) numbers.now → AreSettled (known checker.now) (values trace.new.entries) (drop k trace.new.entries) [])) }
{
    for number in numbers {
        match task_at(checker, trace, *number) {
            Task::Conflict => return Ok(Some(*number)),
            Task::Quiet => {}
            Task::Forced(lit) => trace.push(lit, Some(*number))?,
        }
    }
    Ok(None)
}

/// The numbers from `first` on and below `count`.
pub fn numbers_from(alloc: Global, first: u64, count: u64) -> Result<Vec<u64>, AllocError>
    ensures { IfOk result (λ numbers. (n : ℕ) → first ≤ n → n < count → list_any (nat_eq n) numbers.items ≡ true) }
{
    let mut numbers = Vec::new(alloc);
    for number in first..count {
        numbers.push(number)?;
    }
    Ok(numbers)
}

/// Makes literals true until a clause is false, whose number it answers, or no clause asks for anything. The clauses that
/// are not settled have a literal that an entry from place `from` on made false.
pub fn propagate(
    checker: &Checker,
    index: &Index,
    trace: &mut Trace,
    from: usize,
) -> Result<Option<u64>, AllocError>
    requires room { variables (known checker.now) ≤ trace.old.size }
    requires explained { Explained (known checker.now) nothing trace.old.entries }
    requires indexed { IsIndex (known checker.now) index.now.items }
    requires settled { AreSettled (known checker.now) (values trace.old.entries) (drop from trace.old.entries) [] }
    ensures explained { Explained (known checker.now) nothing trace.new.entries }
    ensures grows { Grows trace.old.entries trace.new.entries }
    ensures size { trace.new.size ≡ trace.old.size }
    ensures conflict { IfOk result (λ o. IfSome o (λ n. IsConflict (known checker.now) (values trace.new.entries) n)) }
    ensures quiet { IfOk result (λ o. IfNone o (is_quiet (values trace.new.entries) (known checker.now) ≡ true)) }
{
    let mut head = from;
    while head < trace.len() {
        let lit = trace.lit(head);
        let numbers = clauses_with(index, lit.negated());
        if let Some(conflict) = visit(checker, trace, numbers)? {
            return Ok(Some(conflict));
        }
        head += 1;
    }
    Ok(None)
}
