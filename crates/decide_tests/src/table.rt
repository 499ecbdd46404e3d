//! A problem of two cases and two answers.
ghost use Rattle.std.specs.Prelude.{◌≡◌};
ghost use Rattle.decide_tests.specs.Tables.{Stands};

use crate::choice::{choice, is_true};
use crate::rows::{Rows, is_met, meets};
use cnf_base::{Assignment, Clause, Formula, Lit, copied};
use cnf_gate::Circuit;
use std::alloc::{AllocError, Global};
use two_level::{EncError, Problem};

/// The rows, with the question and the rival given last: their clauses, and the literal of the first case and of answer 0.
#[derive(Drop, Debug)]
pub struct Table {
    pub rows: Rows,
    pub asked: Formula,
    pub case_lit: Lit,
    pub tried: Formula,
    pub answer_lit: Lit,
    pub case: bool,
    ghost stands: { Stands rows tried answer_lit case },
}

impl Table {
    /// A table that has given nothing.
    pub fn new(alloc: Global, rows: Rows) -> Result<Table, AllocError> {
        let mut none = Formula::new(alloc);
        none.push(Clause::new(alloc))?;
        Ok(Table {
            rows,
            asked: Formula::new(alloc),
            case_lit: Lit::new(0, true),
            tried: none,
            answer_lit: Lit::new(0, true),
            case: true,
        })
    }
}

impl Problem for Table {
    ghost use Rattle.std.specs.Prelude.{⊤, Bool};
    ghost use Rattle.decide_tests.specs.declared.rows.Rows.{Rows as Asked};
    ghost use Rattle.decide_tests.specs.Tables.{Meets, Asks, MayRefuse, is_first};
    ghost use Rattle.decide_tests.specs.Answered.{refuted_gives};

    ghost Made = { Asked };

    ghost Case = { Bool };

    ghost made = { λ t. t.rows };

    ghost is_case = { λ m k. ⊤ };

    ghost count = { λ m. 2 };

    ghost meets = { Meets };

    ghost asks = { Asks };

    ghost most = { λ m. 2 };

    ghost may_refuse = { MayRefuse };

    ghost posed = { λ t. record { formula = t.asked; case_of = is_first t.case_lit } };

    ghost tried = { λ t. record { formula = t.tried; case = t.case } };

    fn answers(&self) -> u32 {
        2
    }

    fn question(&mut self, alloc: Global, answers: &[u32]) -> Result<Circuit, EncError> {
        if self.rows.refuses_questions {
            return Err(EncError::TooManyAnswers);
        }
        let first = is_met(self.rows, answers, true);
        let second = is_met(self.rows, answers, false);
        let (circuit, lit) = choice(alloc, !first, !second)?;
        self.asked = copied(alloc, circuit.formula())?;
        self.case_lit = lit;
        Ok(circuit)
    }

    fn rival(&mut self, alloc: Global, candidate: &Assignment) -> Result<Circuit, EncError> {
        if self.rows.refuses_rivals {
            return Err(EncError::TooWide);
        }
        let case = is_true(candidate, self.case_lit);
        let zero = meets(self.rows, 0, case);
        let one = meets(self.rows, 1, case);
        let (circuit, lit) = choice(alloc, zero, one)?;
        let tried = copied(alloc, circuit.formula())?;
        self.tried = tried;
        self.answer_lit = lit;
        self.case = case;
        Ok(circuit)
    }

    fn answer_of(&self, solution: &Assignment) -> u32 {
        if is_true(solution, self.answer_lit) {
            0
        } else {
            1
        }
    }

    ghost refuted_meets = { λ m ns c asks none k is. refuted_gives m ns c asks none k };
}
