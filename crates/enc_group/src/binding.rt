//! What follows from each value of a group, or from each tuple.
ghost use Rattle.std.specs.Prelude.{◌≡◌, ℕ, ◌+◌, ◌*◌, ◌<◌, ◌≤◌, [], length, IfOk, Bool, List, get_or};
ghost use Rattle.cnf_gate.specs.Built.{Grows, size_of};
ghost use Rattle.cnf_gate.specs.Limits.{IsOverLimit, OnTooLarge};
ghost use Rattle.asm_domain.specs.declared.value.Value.{Value};
ghost use Rattle.asm_node.specs.Term.{Outcome, and_then};
ghost use Rattle.enc_group.specs.declared.group.Entry as entry;
ghost use Rattle.enc_group.specs.declared.tuple.Tuple as tuple;
ghost use Rattle.enc_group.specs.Group.{Holds, Means, values_in, group_variables};
ghost use Rattle.enc_group.specs.Tuple.{MeansAll, tuple_variables};
ghost use Rattle.enc_group.specs.Binding.{group_at, entries_before, values_before};

use crate::group::{Entry, ValueGroup, extend};
use crate::tuple::Tuple;
use cnf_gate::{Builder, GateError};
use std::alloc::Global;

/// The entries of the group at a place.
fn entries_at(groups: &[ValueGroup], place: usize) -> &[Entry]
    requires { place < length groups.now }
    ensures { result.now ≡ group_at groups.now place }
{
    groups[place].slice()
}

/// What follows from each value of a group: there is a group of results for each of its entries, at the same place.
/// It adds one gate for each entry of the results.
pub fn bind(
    alloc: Global,
    builder: &mut Builder,
    keys: &[Entry],
    groups: &[ValueGroup],
) -> Result<ValueGroup, GateError>
    requires keys { group_variables keys.now ≤ builder.old.count }
    requires long { length keys.now ≤ length groups.now }
    requires groups { (j : ℕ) → group_variables (group_at groups.now j) ≤ builder.old.count }
    ensures means { IfOk result (λ g. (v : ℕ → Bool) → Holds v builder.new → (f : Value → Outcome Value) (o : Outcome Value) → Means v keys.now o → ((j : ℕ) (e : entry.Entry) → j < length keys.now → e ≡ get_or keys.now j e → Means v (group_at groups.now j) (f e.value)) → Means v g (and_then o f)) }
    ensures values { IfOk result (λ g. values_in g ≡ values_before groups.now (length keys.now)) }
    ensures within { IfOk result (λ g. group_variables g ≤ builder.new.count) }
    ensures grows { Grows builder.old builder.new [] [] }
    ensures count { builder.new.count ≤ builder.old.count + entries_before groups.now (length keys.now) }
    ensures size { size_of builder.new ≤ size_of builder.old + 7 * entries_before groups.now (length keys.now) }
    ensures too_large { OnTooLarge result (IsOverLimit (builder.old.count + entries_before groups.now (length keys.now)) (size_of builder.old + 7 * entries_before groups.now (length keys.now))) }
{
    let mut bag = ValueGroup::new(alloc);
    let mut place = 0;
    for key in keys {
        extend(builder, &mut bag, key.lit, entries_at(groups, place))?;
        place += 1;
    }
    Ok(bag)
}

/// What follows from each tuple: there is a group of results for each of them, at the same place. It adds one gate for
/// each entry of the results.
pub fn bind_tuples(
    alloc: Global,
    builder: &mut Builder,
    keys: &[Tuple],
    groups: &[ValueGroup],
) -> Result<ValueGroup, GateError>
    requires keys { tuple_variables keys.now ≤ builder.old.count }
    requires long { length keys.now ≤ length groups.now }
    requires groups { (j : ℕ) → group_variables (group_at groups.now j) ≤ builder.old.count }
    ensures means { IfOk result (λ g. (v : ℕ → Bool) → Holds v builder.new → (f : List Value → Outcome Value) (o : Outcome (List Value)) → MeansAll v keys.now o → ((j : ℕ) (t : tuple.Tuple) → j < length keys.now → t ≡ get_or keys.now j t → Means v (group_at groups.now j) (f t.values)) → Means v g (and_then o f)) }
    ensures values { IfOk result (λ g. values_in g ≡ values_before groups.now (length keys.now)) }
    ensures within { IfOk result (λ g. group_variables g ≤ builder.new.count) }
    ensures grows { Grows builder.old builder.new [] [] }
    ensures count { builder.new.count ≤ builder.old.count + entries_before groups.now (length keys.now) }
    ensures size { size_of builder.new ≤ size_of builder.old + 7 * entries_before groups.now (length keys.now) }
    ensures too_large { OnTooLarge result (IsOverLimit (builder.old.count + entries_before groups.now (length keys.now)) (size_of builder.old + 7 * entries_before groups.now (length keys.now))) }
{
    let mut bag = ValueGroup::new(alloc);
    let mut place = 0;
    for key in keys {
        extend(builder, &mut bag, key.lit, entries_at(groups, place))?;
        place += 1;
    }
    Ok(bag)
}
