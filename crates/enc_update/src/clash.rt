//! Whether two literals of a list are true, in a number of gates that is linear in the list.
ghost use Rattle.std.specs.Prelude.{◌≡◌, ℕ, ◌+◌, ◌*◌, ◌<◌, ◌≤◌, [], length, IfOk, Bool};
ghost use Rattle.cnf_base.specs.Clauses.{lit_true, clause_variables};
ghost use Rattle.cnf_gate.specs.Built.{Grows, size_of};
ghost use Rattle.cnf_gate.specs.Limits.{IsOverLimit, OnTooLarge};
ghost use Rattle.enc_group.specs.Group.{Holds};
ghost use Rattle.enc_update.specs.Updates.{two_true};

use cnf_base::Lit;
use cnf_gate::{Builder, GateError};
use enc_group::{both, either, never};

/// A literal that is true exactly where at least two of the given ones are: a running literal says whether one was true so far.
/// It adds three gates of two literals for each of them, and two gates of none.
pub fn two_of(builder: &mut Builder, lits: &[Lit]) -> Result<Lit, GateError>
    requires { clause_variables lits.now ≤ builder.old.count }
    ensures means { IfOk result (λ l. (v : ℕ → Bool) → Holds v builder.new → lit_true v l ≡ two_true v lits.now) }
    ensures within { IfOk result (λ l. l.var < builder.new.count) }
    ensures grows { Grows builder.old builder.new [] [] }
    ensures count { builder.new.count ≤ builder.old.count + 3 * length lits.now + 2 }
    ensures size { size_of builder.new ≤ size_of builder.old + 21 * length lits.now + 2 }
    ensures too_large { OnTooLarge result (IsOverLimit (builder.old.count + 3 * length lits.now + 2) (size_of builder.old + 21 * length lits.now + 2)) }
{
    let mut seen = never(builder)?;
    let mut twice = never(builder)?;
    for lit in lits {
        let again = both(builder, *lit, seen)?;
        twice = either(builder, twice, again)?;
        seen = either(builder, seen, *lit)?;
    }
    Ok(twice)
}
