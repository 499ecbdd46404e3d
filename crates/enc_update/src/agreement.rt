//! Whether a set has one value at most at each slot.
ghost use Rattle.std.specs.Prelude.{◌≡◌, ℕ, ◌+◌, ◌*◌, ◌<◌, ◌≤◌, [], length, IfOk, Bool, not, map};
ghost use Rattle.std.specs.List.{list_any};
ghost use Rattle.cnf_base.specs.Clauses.{lit_true};
ghost use Rattle.cnf_gate.specs.Built.{Grows, size_of};
ghost use Rattle.cnf_gate.specs.Limits.{IsOverLimit, OnTooLarge};
ghost use Rattle.enc_group.specs.Binding.{entries_before, group_at};
ghost use Rattle.enc_group.specs.Group.{Holds, group_variables};
ghost use Rattle.enc_update.specs.Updates.{two_true};

use crate::clash::two_of;
use crate::slots::{lits_of, push_lit};
use cnf_base::Lit;
use cnf_gate::{Builder, GateError};
use enc_group::{Entry, ValueGroup};
use std::alloc::Global;

/// A literal that is true exactly where two of a group's are.
fn clash_at(alloc: Global, builder: &mut Builder, group: &[Entry]) -> Result<Lit, GateError>
    requires { group_variables group.now ≤ builder.old.count }
    ensures means { IfOk result (λ l. (v : ℕ → Bool) → Holds v builder.new → lit_true v l ≡ two_true v (map (λ e. e.lit) group.now)) }
    ensures within { IfOk result (λ l. l.var < builder.new.count) }
    ensures grows { Grows builder.old builder.new [] [] }
    ensures count { builder.new.count ≤ builder.old.count + 3 * length group.now + 2 }
    ensures size { size_of builder.new ≤ size_of builder.old + 21 * length group.now + 2 }
    ensures too_large { OnTooLarge result (IsOverLimit (builder.old.count + 3 * length group.now + 2) (size_of builder.old + 21 * length group.now + 2)) }
{
    let lits = lits_of(alloc, group)?;
    let lit = two_of(builder, lits.as_slice())?;
    Ok(lit)
}

/// A literal that is true exactly where in none of the groups two literals are. Of groups with one literal for each value of a
/// slot it says that the set is consistent. It adds three gates for each entry, two for each group, and one.
pub fn no_clash(
    alloc: Global,
    builder: &mut Builder,
    groups: &[ValueGroup],
) -> Result<Lit, GateError>
    requires { (j : ℕ) → group_variables (group_at groups.now j) ≤ builder.old.count }
    ensures means { IfOk result (λ l. (v : ℕ → Bool) → Holds v builder.new → lit_true v l ≡ not (list_any (λ g. two_true v (map (λ e. e.lit) g)) groups.now)) }
    ensures within { IfOk result (λ l. l.var < builder.new.count) }
    ensures grows { Grows builder.old builder.new [] [] }
    ensures count { builder.new.count ≤ builder.old.count + 3 * entries_before groups.now (length groups.now) + 2 * length groups.now + 1 }
    ensures size { size_of builder.new ≤ size_of builder.old + 21 * entries_before groups.now (length groups.now) + 5 * length groups.now + 1 }
    ensures too_large { OnTooLarge result (IsOverLimit (builder.old.count + 3 * entries_before groups.now (length groups.now) + 2 * length groups.now + 1) (size_of builder.old + 21 * entries_before groups.now (length groups.now) + 5 * length groups.now + 1)) }
{
    let mut clashes = Vec::new(alloc);
    for group in groups {
        let clash = clash_at(alloc, builder, group.slice())?;
        push_lit(&mut clashes, clash)?;
    }
    let some = builder.or(clashes.as_slice())?;
    Ok(Builder::not(some))
}
