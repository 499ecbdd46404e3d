//! Groups of values with their literals.
ghost use Rattle.std.specs.Prelude.{◌≡◌, ℕ, ◌+◌, ◌*◌, ◌<◌, ◌≤◌, ◌++◌, ◌∷◌, [], length, OnOk, IfOk, Bool, true, ◌&&◌, ◌||◌, if◌then◌else◌};
ghost use Rattle.std.specs.List.{list_any};
ghost use Rattle.cnf_base.specs.Clauses.{lit_true};
ghost use Rattle.cnf_gate.specs.Built.{Grows, size_of};
ghost use Rattle.cnf_gate.specs.Limits.{IsOverLimit, OnTooLarge};
ghost use Rattle.asm_domain.specs.declared.value.Value.{Value};
ghost use Rattle.asm_node.specs.Values.{same};
ghost use Rattle.asm_node.specs.Term.{Outcome, Gives};
ghost use Rattle.enc_group.specs.Group.{Holds, Means, holds, has, once, values_in, group_variables, lits_with, are_distinct};
ghost use Rattle.enc_group.specs.Merging.{Merges, fresh};

use crate::gates::both;
use asm_domain::Value;
use asm_list::Listed;
use cnf_base::Lit;
use cnf_gate::{Builder, GateError};
use std::alloc::{AllocError, Global};

/// A value, and a literal that is true where it is the group's.
#[derive(Clone, Copy, Debug)]
pub struct Entry {
    pub value: Value,
    pub lit: Lit,
}

/// Values with their literals.
pub type ValueGroup = Listed<Entry>;

/// Groups in an order, as that of the slots.
pub type ValueGroups = Listed<ValueGroup>;

/// Adds an entry at the end.
fn add_entry(entries: &mut ValueGroup, value: Value, lit: Lit) -> Result<(), AllocError>
    ensures { OnOk result (entries.new ≡ entries.old ++ (record { value = value; lit = lit }) ∷ []) }
{
    entries.push(Entry { value, lit })
}

/// Adds what a group gives where `guard` is true, with one gate of two literals for each of its entries.
pub fn extend(
    builder: &mut Builder,
    bag: &mut ValueGroup,
    guard: Lit,
    group: &[Entry],
) -> Result<(), GateError>
    requires guard { guard.var < builder.old.count }
    requires group { group_variables group.now ≤ builder.old.count }
    requires bag { group_variables bag.old ≤ builder.old.count }
    ensures means { OnOk result ((v : ℕ → Bool) → Holds v builder.new → (y : Value) → holds v bag.new y ≡ (holds v bag.old y || (lit_true v guard && holds v group.now y))) }
    ensures values { OnOk result (values_in bag.new ≡ values_in bag.old ++ values_in group.now) }
    ensures within { OnOk result (group_variables bag.new ≤ builder.new.count) }
    ensures grows { Grows builder.old builder.new [] [] }
    ensures count { builder.new.count ≤ builder.old.count + length group.now }
    ensures size { size_of builder.new ≤ size_of builder.old + 7 * length group.now }
    ensures too_large { OnTooLarge result (IsOverLimit (builder.old.count + length group.now) (size_of builder.old + 7 * length group.now)) }
{
    for entry in group {
        let lit = both(builder, guard, entry.lit)?;
        add_entry(bag, entry.value, lit)?;
    }
    Ok(())
}

/// Whether two values are the same; `undef` is the same as itself alone.
fn is_same(left: Value, right: Value) -> bool
    ensures { result ≡ same left right }
{
    match (left, right) {
        (Value::Undef, Value::Undef) => true,
        (Value::Bool(left), Value::Bool(right)) => left == right,
        (Value::Int(left), Value::Int(right)) => left == right,
        (Value::Elem(domain, rank), Value::Elem(other, place)) => domain == other && rank == place,
        _ => false,
    }
}

fn push_if(lits: &mut Vec<Lit>, wanted: bool, lit: Lit) -> Result<(), AllocError>
    ensures { OnOk result (lits.new.items ≡ lits.old.items ++ (if wanted then lit ∷ [] else [])) }
{
    if wanted {
        lits.push(lit)?;
    }
    Ok(())
}

/// The literals of one value.
fn lits_of(alloc: Global, group: &[Entry], value: Value) -> Result<Vec<Lit>, AllocError>
    ensures { IfOk result (λ ls. ls.items ≡ lits_with group.now value) }
{
    let mut lits = Vec::new(alloc);
    for entry in group {
        push_if(&mut lits, is_same(entry.value, value), entry.lit)?;
    }
    Ok(lits)
}

/// Whether a group has a value.
fn has_value(group: &[Entry], value: Value) -> bool
    ensures { result ≡ list_any (λ e. same e.value value) group.now }
{
    group.iter().any(|entry| is_same(entry.value, value))
}

/// A literal that is true exactly where the group has this value, by one gate.
pub fn literal_of(
    alloc: Global,
    builder: &mut Builder,
    group: &[Entry],
    value: Value,
) -> Result<Lit, GateError>
    requires { group_variables group.now ≤ builder.old.count }
    ensures means { IfOk result (λ l. (v : ℕ → Bool) → Holds v builder.new → lit_true v l ≡ holds v group.now value) }
    ensures within { IfOk result (λ l. l.var < builder.new.count) }
    ensures grows { Grows builder.old builder.new [] [] }
    ensures count { builder.new.count ≤ builder.old.count + 1 }
    ensures size { size_of builder.new ≤ size_of builder.old + 3 * length group.now + 1 }
    ensures too_large { OnTooLarge result (IsOverLimit (builder.old.count + 1) (size_of builder.old + 3 * length group.now + 1)) }
{
    let lits = lits_of(alloc, group, value)?;
    let lit = builder.or(lits.as_slice())?;
    Ok(lit)
}

/// One literal for all entries of this value, unless the group has the value.
fn merge_value(
    alloc: Global,
    builder: &mut Builder,
    group: &mut ValueGroup,
    bag: &[Entry],
    value: Value,
) -> Result<(), GateError>
    requires bag { group_variables bag.now ≤ builder.old.count }
    requires group { group_variables group.old ≤ builder.old.count }
    ensures merges { OnOk result (Merges builder.new group.old group.new bag.now value) }
    ensures grows { Grows builder.old builder.new [] [] }
    ensures count { builder.new.count ≤ builder.old.count + fresh (values_in group.old) value }
    ensures size { size_of builder.new ≤ size_of builder.old + fresh (values_in group.old) value * (3 * length (lits_with bag.now value) + 1) }
    ensures too_large { OnTooLarge result (IsOverLimit (builder.old.count + fresh (values_in group.old) value) (size_of builder.old + fresh (values_in group.old) value * (3 * length (lits_with bag.now value) + 1))) }
{
    if has_value(group.slice(), value) {
        return Ok(());
    }
    let lits = lits_of(alloc, bag, value)?;
    let lit = builder.or(lits.as_slice())?;
    add_entry(group, value, lit)?;
    Ok(())
}

/// The group with one literal for each value of the bag, by one gate for each value.
pub fn merged(alloc: Global, builder: &mut Builder, bag: &[Entry]) -> Result<ValueGroup, GateError>
    requires { group_variables bag.now ≤ builder.old.count }
    ensures means { IfOk result (λ g. (v : ℕ → Bool) → Holds v builder.new → (o : Outcome Value) → Means v bag.now o → Means v g o) }
    ensures values { IfOk result (λ g. values_in g ≡ once (values_in bag.now)) }
    ensures distinct { IfOk result (λ g. are_distinct (values_in g) ≡ true) }
    ensures within { IfOk result (λ g. group_variables g ≤ builder.new.count) }
    ensures grows { Grows builder.old builder.new [] [] }
    ensures count { builder.new.count ≤ builder.old.count + length (once (values_in bag.now)) }
    ensures size { size_of builder.new ≤ size_of builder.old + 3 * length bag.now + length (once (values_in bag.now)) }
    ensures too_large { OnTooLarge result (IsOverLimit (builder.old.count + length (once (values_in bag.now))) (size_of builder.old + 3 * length bag.now + length (once (values_in bag.now)))) }
{
    let mut group = ValueGroup::new(alloc);
    for entry in bag {
        merge_value(alloc, builder, &mut group, bag, entry.value)?;
    }
    Ok(group)
}

/// The group of one value, with a literal that is to be true in every assignment. It adds no gate.
#[tactic(auto, using(crate::proofs::Groups::constant_means))]
pub fn constant(alloc: Global, value: Value, always: Lit) -> Result<ValueGroup, AllocError>
    ensures means { IfOk result (λ g. (v : ℕ → Bool) → lit_true v always ≡ true → Means v g (Gives value)) }
    ensures values { IfOk result (λ g. values_in g ≡ value ∷ []) }
    ensures within { IfOk result (λ g. group_variables g ≡ always.var + 1) }
{
    let mut group = ValueGroup::new(alloc);
    add_entry(&mut group, value, always)?;
    Ok(group)
}
