ghost use Rattle.std.specs.Prelude.{◌≡◌};
ghost use Rattle.asm_faults.specs.Ranges as bounds;
ghost use Rattle.asm_faults.specs.Ranges.{of_one, of_two, of_both, opposite, absolute, sizes, either};
ghost use Rattle.asm_ranges.specs.Spreads.{bounds_of, Answers, HasEnds, IsWhole, ends};

use asm_domain::{Interval, RangeTooWide};
use asm_tree::{Op, UnaryOp};

/// The interval of a term.
#[derive(Clone, Copy, Debug, PartialEq, Eq)]
pub enum Spread {
    /// The term gives no number.
    NoNumber,
    Between(Interval),
    /// An interval from which it is taken is refused.
    Missing,
}

/// An operator whose bounds are taken from those of both operands.
#[derive(Clone, Copy, Debug, PartialEq, Eq)]
enum Arithmetic {
    Plus,
    Minus,
    Times,
    Min,
    Max,
}

impl Spread {
    /// The interval of one number.
    pub fn one(number: i64) -> Spread
        ensures { IsWhole result number }
    {
        Spread::Between(Interval {
            low: number,
            high: number,
        })
    }

    /// What an operator gives of one operand.
    pub fn of_one(op: UnaryOp, operand: Spread) -> Result<Spread, RangeTooWide>
        ensures { Answers result (of_one op (bounds_of operand)) }
    {
        match op {
            UnaryOp::Negate => opposite(operand),
            UnaryOp::Abs => absolute(operand),
            UnaryOp::Not => Ok(Spread::NoNumber),
            UnaryOp::IsDefined => Ok(Spread::NoNumber),
            UnaryOp::IsUndefined => Ok(Spread::NoNumber),
        }
    }

    /// What an operator gives of two operands.
    pub fn of_two(op: Op, left: Spread, right: Spread) -> Result<Spread, RangeTooWide>
        ensures { Answers result (of_two op (bounds_of left) (bounds_of right)) }
    {
        match op {
            Op::Plus => of_both(Arithmetic::Plus, left, right),
            Op::Minus => of_both(Arithmetic::Minus, left, right),
            Op::Times => of_both(Arithmetic::Times, left, right),
            Op::Min => of_both(Arithmetic::Min, left, right),
            Op::Max => of_both(Arithmetic::Max, left, right),
            Op::Mod => sizes(left),
            Op::Idiv => sizes(left),
            Op::Iff
            | Op::Implies
            | Op::Or
            | Op::Xor
            | Op::And
            | Op::Equal
            | Op::NotEqual
            | Op::Less
            | Op::LessEqual
            | Op::Greater
            | Op::GreaterEqual => Ok(Spread::NoNumber),
        }
    }

    /// The least interval that holds both. It is never refused.
    pub fn either(self, other: Spread) -> Spread
        ensures { bounds_of result ≡ either (bounds_of self) (bounds_of other) }
    {
        match self {
            Spread::Missing => Spread::Missing,
            Spread::NoNumber => other,
            Spread::Between(left) => match other {
                Spread::Missing => Spread::Missing,
                Spread::NoNumber => self,
                Spread::Between(right) => Spread::Between(Interval {
                    low: left.low.min(right.low),
                    high: left.high.max(right.high),
                }),
            },
        }
    }
}

fn of_both(op: Arithmetic, left: Spread, right: Spread) -> Result<Spread, RangeTooWide>
    ensures { Answers result (of_both (ends op) (bounds_of left) (bounds_of right)) }
{
    match left {
        Spread::Missing => Ok(Spread::Missing),
        Spread::NoNumber => match right {
            Spread::Missing => Ok(Spread::Missing),
            Spread::NoNumber => Ok(Spread::NoNumber),
            Spread::Between(_) => Ok(Spread::NoNumber),
        },
        Spread::Between(left) => match right {
            Spread::Missing => Ok(Spread::Missing),
            Spread::NoNumber => Ok(Spread::NoNumber),
            Spread::Between(right) => between(of_intervals(op, left, right)),
        },
    }
}

fn of_intervals(op: Arithmetic, left: Interval, right: Interval) -> Result<Interval, RangeTooWide>
    ensures { HasEnds result (ends op left.low left.high right.low right.high) }
{
    match op {
        Arithmetic::Plus => left.sum(right),
        Arithmetic::Minus => left.difference(right),
        Arithmetic::Times => left.product(right),
        Arithmetic::Min => left.least(right),
        Arithmetic::Max => left.greatest(right),
    }
}

fn sizes(operand: Spread) -> Result<Spread, RangeTooWide>
    ensures { Answers result (sizes (bounds_of operand)) }
{
    match operand {
        Spread::Missing => Ok(Spread::Missing),
        Spread::NoNumber => Ok(Spread::NoNumber),
        Spread::Between(interval) => between(interval.rest(interval)),
    }
}

fn opposite(operand: Spread) -> Result<Spread, RangeTooWide>
    ensures { Answers result (opposite (bounds_of operand)) }
{
    match operand {
        Spread::Missing => Ok(Spread::Missing),
        Spread::NoNumber => Ok(Spread::NoNumber),
        Spread::Between(interval) => between(interval.negated()),
    }
}

fn absolute(operand: Spread) -> Result<Spread, RangeTooWide>
    ensures { Answers result (absolute (bounds_of operand)) }
{
    match operand {
        Spread::Missing => Ok(Spread::Missing),
        Spread::NoNumber => Ok(Spread::NoNumber),
        Spread::Between(interval) => between(interval.absolute()),
    }
}

fn between(interval: Result<Interval, RangeTooWide>) -> Result<Spread, RangeTooWide>
    ensures { (r : bounds.Spread) → HasEnds interval r → Answers result r }
{
    match interval {
        Ok(interval) => Ok(Spread::Between(interval)),
        Err(refusal) => Err(refusal),
    }
}
