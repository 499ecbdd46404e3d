//! What an update set does to each slot.
ghost use Rattle.std.specs.Prelude.{◌≡◌, ℕ, ◌+◌, ◌*◌, ◌<◌, ◌≤◌, ◌++◌, ◌∷◌, [], length, IfOk, OnOk, Bool, true, List, Option, map, get_or, slice_set, slice_index_or};
ghost use Rattle.std.specs.List.{list_any};
ghost use Rattle.std.specs.Option.{unwrap_or};
ghost use Rattle.cnf_base.specs.Clauses.{lit_true};
ghost use Rattle.cnf_gate.specs.Built.{Grows, size_of};
ghost use Rattle.cnf_gate.specs.Limits.{IsOverLimit, OnTooLarge};
ghost use Rattle.asm_domain.specs.declared.value.Value as datum;
ghost use Rattle.asm_node.specs.Term.{Gives};
ghost use Rattle.enc_group.specs.declared.group.Entry as entry;
ghost use Rattle.enc_group.specs.Binding.{group_at};
ghost use Rattle.enc_group.specs.Group.{Holds, Means, are_distinct, group_variables, once, values_in};
ghost use Rattle.enc_update.specs.declared.pair.Pair as pair;
ghost use Rattle.enc_update.specs.Slots.{Writes, entries_at};

use crate::pair::Pair;
use asm_domain::Value;
use cnf_base::Lit;
use cnf_gate::{Builder, GateError};
use enc_group::{Entry, ValueGroup, extend, merged};
use std::alloc::{AllocError, Global};

/// So many empty groups.
fn empty_groups(alloc: Global, count: usize) -> Result<Vec<ValueGroup>, AllocError>
    ensures long { IfOk result (λ groups. length groups.items ≡ count) }
    ensures empty { IfOk result (λ groups. (l : ℕ) → group_at groups.items l ≡ []) }
{
    let mut groups = Vec::new(alloc);
    for _ in 0..count {
        groups.push(ValueGroup::new(alloc))?;
    }
    Ok(groups)
}

/// Adds an entry to the group at a place.
fn add_at(
    groups: &mut Vec<ValueGroup>,
    place: usize,
    value: Value,
    lit: Lit,
) -> Result<(), AllocError>
    requires { place < length groups.old.items }
    ensures len { length groups.new.items ≡ length groups.old.items }
    ensures added { OnOk result (groups.new.items ≡ slice_set groups.old.items place (slice_index_or groups.old.items place [] ++ (record { value = value; lit = lit }) ∷ [])) }
{
    groups[place].push(Entry { value, lit })
}

/// The values of each slot with their literals, in one pass over the pairs.
pub fn by_slot(alloc: Global, count: usize, pairs: &[Pair]) -> Result<Vec<ValueGroup>, AllocError>
    requires { (j : ℕ) (p : pair.Pair) → j < length pairs.now → p ≡ get_or pairs.now j p → p.slot < count }
    ensures long { IfOk result (λ groups. length groups.items ≡ count) }
    ensures entries { IfOk result (λ groups. (l : ℕ) → l < count → group_at groups.items l ≡ entries_at pairs.now l) }
{
    let mut groups = empty_groups(alloc, count)?;
    for pair in pairs {
        add_at(&mut groups, pair.slot as usize, pair.value, pair.lit)?;
    }
    Ok(groups)
}

/// Adds a literal at the end.
pub fn push_lit(lits: &mut Vec<Lit>, lit: Lit) -> Result<(), AllocError>
    ensures { OnOk result (lits.new.items ≡ lits.old.items ++ lit ∷ []) }
{
    lits.push(lit)?;
    Ok(())
}

/// The literals of a group, in their order.
pub fn lits_of(alloc: Global, group: &[Entry]) -> Result<Vec<Lit>, AllocError>
    ensures { IfOk result (λ ls. ls.items ≡ map (λ e. e.lit) group.now) }
{
    let mut lits = Vec::new(alloc);
    for entry in group {
        push_lit(&mut lits, entry.lit)?;
    }
    Ok(lits)
}

/// A literal that is true exactly where one of the group's is. It adds one gate.
fn some_of(alloc: Global, builder: &mut Builder, group: &[Entry]) -> Result<Lit, GateError>
    requires { group_variables group.now ≤ builder.old.count }
    ensures means { IfOk result (λ l. (v : ℕ → Bool) → Holds v builder.new → lit_true v l ≡ list_any (λ e. lit_true v e.lit) group.now) }
    ensures within { IfOk result (λ l. l.var < builder.new.count) }
    ensures grows { Grows builder.old builder.new [] [] }
    ensures count { builder.new.count ≤ builder.old.count + 1 }
    ensures size { size_of builder.new ≤ size_of builder.old + 3 * length group.now + 1 }
    ensures too_large { OnTooLarge result (IsOverLimit (builder.old.count + 1) (size_of builder.old + 3 * length group.now + 1)) }
{
    let lits = lits_of(alloc, group)?;
    let lit = builder.or(lits.as_slice())?;
    Ok(lit)
}

/// The group of a slot after the entries of a set at this slot are fired: the set's value where it has one, else the old value.
pub fn next_group(
    alloc: Global,
    builder: &mut Builder,
    old: &[Entry],
    set: &[Entry],
) -> Result<ValueGroup, GateError>
    requires old { group_variables old.now ≤ builder.old.count }
    requires set { group_variables set.now ≤ builder.old.count }
    ensures means { IfOk result (λ g. (v : ℕ → Bool) → Holds v builder.new → (written : Option datum.Value) (x : datum.Value) → Writes v set.now written → Means v old.now (Gives x) → Means v g (Gives (unwrap_or written x))) }
    ensures distinct { IfOk result (λ g. are_distinct (values_in g) ≡ true) }
    ensures values { IfOk result (λ g. values_in g ≡ once (values_in set.now ++ values_in old.now)) }
    ensures within { IfOk result (λ g. group_variables g ≤ builder.new.count) }
    ensures grows { Grows builder.old builder.new [] [] }
    ensures count { builder.new.count ≤ builder.old.count + 1 + length old.now + length (once (values_in set.now ++ values_in old.now)) }
    ensures size { size_of builder.new ≤ size_of builder.old + 6 * length set.now + 10 * length old.now + length (once (values_in set.now ++ values_in old.now)) + 1 }
    ensures too_large { OnTooLarge result (IsOverLimit (builder.old.count + 1 + length old.now + length (once (values_in set.now ++ values_in old.now))) (size_of builder.old + 6 * length set.now + 10 * length old.now + length (once (values_in set.now ++ values_in old.now)) + 1)) }
{
    let touched = some_of(alloc, builder, set)?;
    let mut bag = ValueGroup::from_slice(alloc, set)?;
    extend(builder, &mut bag, Builder::not(touched), old)?;
    merged(alloc, builder, bag.slice())
}
