use crate::choice::is_true;
use crate::rows::{Row, Rows};
use crate::table::Table;
use std::alloc::Global;
use std::test::Fail;
use two_level::{EncError, Verdict, decide};

const NONE: Row = Row {
    first: false,
    second: false,
};

const FIRST: Row = Row {
    first: true,
    second: false,
};

const SECOND: Row = Row {
    first: false,
    second: true,
};

const BOTH: Row = Row {
    first: true,
    second: true,
};

fn rows(zero: Row, one: Row) -> Rows {
    Rows {
        zero,
        one,
        refuses_questions: false,
        refuses_rivals: false,
    }
}

/// The verdict in a word, with the case that no answer meets.
fn word_of(alloc: Global, rows: Rows, budget: u64) -> Result<&'static str, Fail> {
    let mut table = Table::new(alloc, rows)?;
    Ok(match decide(alloc, &mut table, budget) {
        Ok(Verdict::Holds(_refutation)) => "holds",
        Ok(Verdict::Fails(candidate, _refutation)) => if is_true(&candidate, table.case_lit) {
            "first"
        } else {
            "second"
        },
        Ok(Verdict::Spent(_effort)) => "spent",
        Err(EncError::TooManyAnswers) => "too many answers",
        Err(EncError::TooWide) => "too wide",
        Err(_) => "another refusal",
    })
}

#[test]
fn holds_where_each_case_is_met(rt: HostRuntime) -> Result<(), Fail> {
    for (zero, one) in [
        (FIRST, SECOND),
        (SECOND, FIRST),
        (BOTH, NONE),
        (NONE, BOTH),
        (BOTH, BOTH),
    ] {
        assert_eq!(rt; word_of(rt.alloc(), rows(zero, one), 2)?, "holds");
    }
    Ok(())
}

#[test]
fn fails_by_a_case_that_none_meets(rt: HostRuntime) -> Result<(), Fail> {
    for (zero, one, case) in [
        (FIRST, FIRST, "second"),
        (SECOND, NONE, "first"),
        (NONE, SECOND, "first"),
        (FIRST, NONE, "second"),
    ] {
        assert_eq!(rt; word_of(rt.alloc(), rows(zero, one), 2)?, case);
    }
    Ok(())
}

/// The question is refuted by the line of one conflict, and so is the rival.
#[test]
fn spends_a_budget_of_none(rt: HostRuntime) -> Result<(), Fail> {
    assert_eq!(rt; word_of(rt.alloc(), rows(FIRST, SECOND), 0)?, "spent");
    assert_eq!(rt; word_of(rt.alloc(), rows(FIRST, FIRST), 0)?, "spent");
    Ok(())
}

#[test]
fn refuses_what_the_problem_refuses(rt: HostRuntime) -> Result<(), Fail> {
    let refusing = Rows {
        refuses_questions: true,
        ..rows(FIRST, SECOND)
    };
    assert_eq!(rt; word_of(rt.alloc(), refusing, 2)?, "too many answers");
    let late = Rows {
        refuses_rivals: true,
        ..rows(FIRST, FIRST)
    };
    assert_eq!(rt; word_of(rt.alloc(), late, 2)?, "too wide");
    let unasked = Rows {
        refuses_rivals: true,
        ..rows(FIRST, SECOND)
    };
    assert_eq!(rt; word_of(rt.alloc(), unasked, 2)?, "holds");
    Ok(())
}
