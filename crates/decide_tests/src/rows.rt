//! Which of two answers meets which of two cases.
ghost use Rattle.std.specs.Prelude.{◌≡◌};
ghost use Rattle.decide_tests.specs.Tables.{meets_at, is_met};

/// The cases that one answer meets.
#[derive(Clone, Copy, Debug)]
pub struct Row {
    pub first: bool,
    pub second: bool,
}

/// A row for each answer, and what the table refuses.
#[derive(Clone, Copy, Debug)]
pub struct Rows {
    pub zero: Row,
    pub one: Row,
    pub refuses_questions: bool,
    pub refuses_rivals: bool,
}

/// Whether the answer meets the case, where the first case is `true`.
pub fn meets(rows: Rows, answer: u32, case: bool) -> bool
    ensures { result ≡ meets_at rows answer case }
{
    let row = if answer == 0 { rows.zero } else { rows.one };
    if case { row.first } else { row.second }
}

/// Whether one of the answers meets the case.
pub fn is_met(rows: Rows, answers: &[u32], case: bool) -> bool
    ensures { result ≡ is_met rows answers.now case }
{
    for answer in answers {
        if meets(rows, *answer, case) {
            return true;
        }
    }
    false
}
