ghost use Rattle.std.specs.Prelude.{◌≡◌, ◌≤ℤ◌, ◌+ℤ◌, ◌-ℤ◌, ◌*ℤ◌, ◌⊎◌, neg_ℤ, pos, unsigned_abs, int_div, int_rem, ◌↔◌, IfOk, IsErr, IsNone};
ghost use Rattle.std.specs.Int.{int_min, int_max};
ghost use Rattle.std.specs.Option.{ForSome};
ghost use Rattle.asm_domain.specs.Narrow.{IsNarrowed};

/// The greatest absolute value of a bound, 2^62.
const LIMIT: u64 = 1 << 62;

/// A bound that is over 2^62 in absolute value.
#[derive(Clone, Copy, Debug, PartialEq, Eq)]
pub struct RangeTooWide;

/// The whole numbers from `low` to `high`, of which there is at least one.
#[derive(Clone, Copy, Debug, PartialEq, Eq)]
pub struct Interval {
    pub low: i64,
    pub high: i64,
    ghost ordered: { low ≤ℤ high },
}

impl Interval {
    ghost use Rattle.asm_domain.specs.Interval.{Spans, HasWide, IsResult, IsResultOfOne, IsInEither, HasSizeIn, HoldsResults};

    /// The interval of the sums.
    pub fn sum(self, other: Interval) -> Result<Interval, RangeTooWide>
        ensures spans { IfOk result (Spans (IsResult ◌+ℤ◌ self other)) }
        ensures refused { IsErr result ↔ HasWide (IsResult ◌+ℤ◌ self other) }
    {
        Interval::bounded(sum(self.low, other.low), sum(self.high, other.high))
    }

    /// The interval of the differences.
    pub fn difference(self, other: Interval) -> Result<Interval, RangeTooWide>
        ensures spans { IfOk result (Spans (IsResult ◌-ℤ◌ self other)) }
        ensures refused { IsErr result ↔ HasWide (IsResult ◌-ℤ◌ self other) }
    {
        Interval::bounded(
            difference(self.low, other.high),
            difference(self.high, other.low),
        )
    }

    /// The interval of the products.
    pub fn product(self, other: Interval) -> Result<Interval, RangeTooWide>
        ensures spans { IfOk result (Spans (IsResult ◌*ℤ◌ self other)) }
        ensures refused { IsErr result ↔ HasWide (IsResult ◌*ℤ◌ self other) }
    {
        let at_low = other.times(self.low)?;
        let at_high = other.times(self.high)?;
        at_low.hull(at_high)
    }

    /// From -m to m, where m is the greatest absolute value in the first interval. It holds the quotients, which
    /// truncate towards zero, of all divisors but 0.
    pub fn quotient(self, other: Interval) -> Result<Interval, RangeTooWide>
        ensures spans { IfOk result (Spans (HasSizeIn self)) }
        ensures refused { IsErr result ↔ HasWide (HasSizeIn self) }
        ensures holds_quotients { IfOk result (HoldsResults int_div self other) }
    {
        self.sizes()
    }

    /// From -m to m, where m is the greatest absolute value in the first interval. It holds the remainders, which have
    /// the dividend's sign, of all divisors but 0.
    pub fn rest(self, other: Interval) -> Result<Interval, RangeTooWide>
        ensures spans { IfOk result (Spans (HasSizeIn self)) }
        ensures refused { IsErr result ↔ HasWide (HasSizeIn self) }
        ensures holds_rests { IfOk result (HoldsResults int_rem self other) }
    {
        self.sizes()
    }

    /// The interval of the lesser one of two numbers.
    pub fn least(self, other: Interval) -> Result<Interval, RangeTooWide>
        ensures spans { IfOk result (Spans (IsResult int_min self other)) }
        ensures refused { IsErr result ↔ HasWide (IsResult int_min self other) }
    {
        Interval::bounded(
            narrow(self.low.min(other.low)),
            narrow(self.high.min(other.high)),
        )
    }

    /// The interval of the greater one of two numbers.
    pub fn greatest(self, other: Interval) -> Result<Interval, RangeTooWide>
        ensures spans { IfOk result (Spans (IsResult int_max self other)) }
        ensures refused { IsErr result ↔ HasWide (IsResult int_max self other) }
    {
        Interval::bounded(
            narrow(self.low.max(other.low)),
            narrow(self.high.max(other.high)),
        )
    }

    /// The least interval that holds both.
    pub fn hull(self, other: Interval) -> Result<Interval, RangeTooWide>
        ensures spans { IfOk result (Spans (IsInEither self other)) }
        ensures refused { IsErr result ↔ HasWide (IsInEither self other) }
    {
        Interval::bounded(
            narrow(self.low.min(other.low)),
            narrow(self.high.max(other.high)),
        )
    }

    /// The interval of the opposite numbers.
    pub fn negated(self) -> Result<Interval, RangeTooWide>
        ensures spans { IfOk result (Spans (IsResultOfOne neg_ℤ self)) }
        ensures refused { IsErr result ↔ HasWide (IsResultOfOne neg_ℤ self) }
    {
        Interval::bounded(difference(0, self.high), difference(0, self.low))
    }

    /// The interval of the absolute values.
    pub fn absolute(self) -> Result<Interval, RangeTooWide>
        ensures spans { IfOk result (Spans (IsResultOfOne (λ x. pos (unsigned_abs x)) self)) }
        ensures refused { IsErr result ↔ HasWide (IsResultOfOne (λ x. pos (unsigned_abs x)) self) }
    {
        if 0 <= self.low {
            Interval::bounded(narrow(self.low), narrow(self.high))
        } else if self.high <= 0 {
            Interval::bounded(difference(0, self.high), difference(0, self.low))
        } else {
            let most = self.low.unsigned_abs().max(self.high.unsigned_abs());
            Interval::bounded(Some(0), size(most))
        }
    }

    /// The interval of the numbers whose absolute value is that of a number of this one.
    fn sizes(self) -> Result<Interval, RangeTooWide>
        ensures spans { IfOk result (Spans (HasSizeIn self)) }
        ensures refused { IsErr result ↔ HasWide (HasSizeIn self) }
    {
        let most = self.low.unsigned_abs().max(self.high.unsigned_abs());
        match size(most) {
            Some(high) => Ok(Interval { low: -high, high }),
            None => Err(RangeTooWide),
        }
    }

    /// The interval of the products with one number.
    fn times(self, factor: i64) -> Result<Interval, RangeTooWide>
        ensures spans { IfOk result (Spans (IsResultOfOne (λ y. factor *ℤ y) self)) }
        ensures refused { IsErr result ↔ HasWide (IsResultOfOne (λ y. factor *ℤ y) self) }
    {
        let at_low = product(factor, self.low);
        let at_high = product(factor, self.high);
        if 0 <= factor {
            Interval::bounded(at_low, at_high)
        } else {
            Interval::bounded(at_high, at_low)
        }
    }

    /// The interval with these bounds, where there are both.
    fn bounded(low: Option<i64>, high: Option<i64>) -> Result<Interval, RangeTooWide>
        requires { ForSome low (λ l. ForSome high (λ h. l ≤ℤ h)) }
        ensures ok { IfOk result (λ i. (low ≡ Some i.low) × (high ≡ Some i.high)) }
        ensures err { IsErr result → IsNone low ⊎ IsNone high }
    {
        match (low, high) {
            (Some(low), Some(high)) => Ok(Interval { low, high }),
            _ => Err(RangeTooWide),
        }
    }
}

fn narrow(number: i64) -> Option<i64>
    ensures { IsNarrowed result number }
{
    if number.unsigned_abs() <= LIMIT {
        Some(number)
    } else {
        None
    }
}

fn size(number: u64) -> Option<i64>
    ensures { IsNarrowed result (pos number) }
{
    if number <= LIMIT {
        Some(number as i64)
    } else {
        None
    }
}

fn sum(x: i64, y: i64) -> Option<i64>
    ensures { IsNarrowed result (x +ℤ y) }
{
    match x.checked_add(y) {
        Some(sum) => narrow(sum),
        None => None,
    }
}

fn difference(x: i64, y: i64) -> Option<i64>
    ensures { IsNarrowed result (x -ℤ y) }
{
    match x.checked_sub(y) {
        Some(difference) => narrow(difference),
        None => None,
    }
}

fn product(x: i64, y: i64) -> Option<i64>
    ensures { IsNarrowed result (x *ℤ y) }
{
    match x.checked_mul(y) {
        Some(product) => narrow(product),
        None => None,
    }
}
