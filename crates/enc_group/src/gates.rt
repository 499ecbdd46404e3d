//! Gates of two literals, and of none.
ghost use Rattle.std.specs.Prelude.{◌≡◌, ℕ, ◌+◌, ◌<◌, ◌≤◌, [], IfOk, Bool, true, false, ◌&&◌, ◌||◌};
ghost use Rattle.cnf_base.specs.Clauses.{lit_true};
ghost use Rattle.cnf_gate.specs.Built.{Grows, size_of};
ghost use Rattle.cnf_gate.specs.Limits.{IsOverLimit, OnTooLarge};
ghost use Rattle.enc_group.specs.Group.{Holds};

use cnf_base::Lit;
use cnf_gate::{Builder, GateError};

/// A literal that is true exactly where both are. It adds one variable and seven literals.
pub fn both(builder: &mut Builder, first: Lit, second: Lit) -> Result<Lit, GateError>
    requires first { first.var < builder.old.count }
    requires second { second.var < builder.old.count }
    ensures means { IfOk result (λ l. (v : ℕ → Bool) → Holds v builder.new → lit_true v l ≡ (lit_true v first && lit_true v second)) }
    ensures within { IfOk result (λ l. l.var < builder.new.count) }
    ensures grows { Grows builder.old builder.new [] [] }
    ensures count { builder.new.count ≤ builder.old.count + 1 }
    ensures size { size_of builder.new ≤ size_of builder.old + 7 }
    ensures too_large { OnTooLarge result (IsOverLimit (builder.old.count + 1) (size_of builder.old + 7)) }
{
    builder.and(&[first, second])
}

/// A literal that is true exactly where at least one of the two is. It adds one variable and seven literals.
pub fn either(builder: &mut Builder, first: Lit, second: Lit) -> Result<Lit, GateError>
    requires first { first.var < builder.old.count }
    requires second { second.var < builder.old.count }
    ensures means { IfOk result (λ l. (v : ℕ → Bool) → Holds v builder.new → lit_true v l ≡ (lit_true v first || lit_true v second)) }
    ensures within { IfOk result (λ l. l.var < builder.new.count) }
    ensures grows { Grows builder.old builder.new [] [] }
    ensures count { builder.new.count ≤ builder.old.count + 1 }
    ensures size { size_of builder.new ≤ size_of builder.old + 7 }
    ensures too_large { OnTooLarge result (IsOverLimit (builder.old.count + 1) (size_of builder.old + 7)) }
{
    builder.or(&[first, second])
}

/// A literal that is true in every assignment. It adds one variable and one literal.
pub fn always(builder: &mut Builder) -> Result<Lit, GateError>
    ensures means { IfOk result (λ l. (v : ℕ → Bool) → Holds v builder.new → lit_true v l ≡ true) }
    ensures within { IfOk result (λ l. l.var < builder.new.count) }
    ensures grows { Grows builder.old builder.new [] [] }
    ensures count { builder.new.count ≤ builder.old.count + 1 }
    ensures size { size_of builder.new ≤ size_of builder.old + 1 }
    ensures too_large { OnTooLarge result (IsOverLimit (builder.old.count + 1) (size_of builder.old + 1)) }
{
    builder.and(&[])
}

/// A literal that is true in no assignment. It adds one variable and one literal.
pub fn never(builder: &mut Builder) -> Result<Lit, GateError>
    ensures means { IfOk result (λ l. (v : ℕ → Bool) → Holds v builder.new → lit_true v l ≡ false) }
    ensures within { IfOk result (λ l. l.var < builder.new.count) }
    ensures grows { Grows builder.old builder.new [] [] }
    ensures count { builder.new.count ≤ builder.old.count + 1 }
    ensures size { size_of builder.new ≤ size_of builder.old + 1 }
    ensures too_large { OnTooLarge result (IsOverLimit (builder.old.count + 1) (size_of builder.old + 1)) }
{
    builder.or(&[])
}
