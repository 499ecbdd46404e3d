//! One question with all answers, and the rival of the case that it gives.
ghost use Rattle.std.specs.Prelude.{◌≡◌, IfOk, IfErr};
ghost use Rattle.cnf_base.specs.Clauses.{IsSatisfied};
ghost use Rattle.two_level.specs.Asking.{below, Refuses};
ghost use Rattle.two_level.specs.Deciding.{Decides, IsUnmet};

use crate::problem::{EncError, Problem};
use asm_list::Listed;
use cnf_base::Assignment;
use cnf_check::{Effort, Refutation};
use cnf_search::{Found, search};
use std::alloc::{AllocError, Global};

/// What was decided: every case is met by some answer, the case of an assignment by none, or the budget was used up.
#[derive(Drop, Debug)]
pub enum Verdict {
    /// The circuit that asks for all answers is refuted.
    Holds(Refutation),
    /// A solution of that circuit, and the refutation of its rival.
    Fails(Assignment, Refutation),
    /// The lines of a search that used up the budget.
    Spent(Effort),
}

/// All numbers below one.
fn numbers(alloc: Global, count: u32) -> Result<Listed<u32>, AllocError>
    ensures { IfOk result (λ v. v ≡ below count) }
{
    let mut list = Listed::new(alloc);
    for n in 0..count {
        list.push(n)?;
    }
    Ok(list)
}

/// Refutes the rival of a case that no answer meets.
fn fail<P: Problem>(
    alloc: Global,
    problem: &mut P,
    candidate: Assignment,
    budget: u64,
) -> Result<Verdict, EncError>
    requires solves { IsSatisfied (P.posed problem.old).formula candidate }
    requires is_one { P.is_case (P.made problem.old) ((P.posed problem.old).case_of candidate) }
    requires unmet { let m = P.made problem.old in IsUnmet (P.count m) (P.meets m) ((P.posed problem.old).case_of candidate) }
    ensures made { P.made problem.new ≡ P.made problem.old }
    ensures refuses { IfErr result (Refuses (P.may_refuse (P.made problem.old))) }
    ensures decides { let m = P.made problem.old in IfOk result (Decides (P.is_case m) (P.count m) (P.meets m) (P.asks m) (P.most m) budget (P.posed problem.new) (P.tried problem.new)) }
{
    let rival = problem.rival(alloc, &candidate)?;
    match search(alloc, &rival, budget)? {
        Found::Refuted(refutation) => Ok(Verdict::Fails(candidate, refutation)),
        Found::Spent(effort) => Ok(Verdict::Spent(effort)),
        Found::Solved(solution) => {
            let _answer = problem.answer_of(&solution);
            unreachable!()
        }
    }
}

/// Decides whether every case is met by some answer.
pub fn decide<P: Problem>(alloc: Global, problem: &mut P, budget: u64) -> Result<Verdict, EncError>
    ensures made { P.made problem.new ≡ P.made problem.old }
    ensures refuses { IfErr result (Refuses (P.may_refuse (P.made problem.old))) }
    ensures decides { let m = P.made problem.old in IfOk result (Decides (P.is_case m) (P.count m) (P.meets m) (P.asks m) (P.most m) budget (P.posed problem.new) (P.tried problem.new)) }
{
    let all = numbers(alloc, problem.answers())?;
    let question = problem.question(alloc, all.slice())?;
    match search(alloc, &question, budget)? {
        Found::Refuted(refutation) => {
            let _formula = refutation.formula();
            Ok(Verdict::Holds(refutation))
        }
        Found::Spent(effort) => Ok(Verdict::Spent(effort)),
        Found::Solved(candidate) => Ok(fail(alloc, problem, candidate, budget)?),
    }
}
