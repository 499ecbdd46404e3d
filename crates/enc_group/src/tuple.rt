//! Tuples of values with their literals.
ghost use Rattle.std.specs.Prelude.{◌≡◌, ℕ, ◌+◌, ◌*◌, ◌<◌, ◌≤◌, ◌++◌, ◌∷◌, [], length, map, OnOk, IfOk, Bool, true, List, ◌&&◌, ◌||◌};
ghost use Rattle.std.specs.List.{list_any};
ghost use Rattle.cnf_base.specs.Clauses.{lit_true};
ghost use Rattle.cnf_gate.specs.Built.{Grows, size_of};
ghost use Rattle.cnf_gate.specs.Limits.{IsOverLimit, OnTooLarge};
ghost use Rattle.asm_domain.specs.declared.value.Value.{Value};
ghost use Rattle.asm_node.specs.Values.{same_all};
ghost use Rattle.asm_node.specs.Term.{Outcome, Gives, and_then};
ghost use Rattle.enc_group.specs.Group.{Holds, Means, values_in, group_variables};
ghost use Rattle.enc_group.specs.Tuple.{MeansAll, holds_all, products, tuples_in, tuple_variables};

use crate::gates::both;
use crate::group::Entry;
use asm_domain::Value;
use asm_list::Listed;
use asm_node::Values;
use cnf_base::Lit;
use cnf_gate::{Builder, GateError};
use std::alloc::{AllocError, Global};

/// Values in order, and a literal that is true where they are the group's.
#[derive(Drop, Debug)]
pub struct Tuple {
    pub values: Values,
    pub lit: Lit,
}

/// Tuples with their literals.
pub type Tuples = Listed<Tuple>;

/// Adds a tuple at the end.
fn add_tuple(tuples: &mut Tuples, values: Values, lit: Lit) -> Result<(), AllocError>
    ensures { OnOk result (tuples.new ≡ tuples.old ++ (record { values = values; lit = lit }) ∷ []) }
{
    tuples.push(Tuple { values, lit })
}

/// The values with one more behind them.
fn with_last(alloc: Global, values: &Values, value: Value) -> Result<Values, AllocError>
    ensures { IfOk result (λ all. all ≡ values.now ++ value ∷ []) }
{
    let mut all = Values::from_slice(alloc, values.slice())?;
    all.push(value)?;
    Ok(all)
}

/// One value as a tuple.
fn alone(alloc: Global, value: Value) -> Result<Values, AllocError>
    ensures { IfOk result (λ all. all ≡ value ∷ []) }
{
    let mut all = Values::new(alloc);
    all.push(value)?;
    Ok(all)
}

/// The tuple of no values, with a literal that is to be true in every assignment. It adds no gate.
#[tactic(auto, using(crate::proofs::Tuples::one_empty))]
pub fn no_values(alloc: Global, always: Lit) -> Result<Tuples, AllocError>
    ensures means { IfOk result (λ ts. (v : ℕ → Bool) → lit_true v always ≡ true → MeansAll v ts (Gives [])) }
    ensures values { IfOk result (λ ts. tuples_in ts ≡ [] ∷ []) }
    ensures within { IfOk result (λ ts. tuple_variables ts ≡ always.var + 1) }
{
    let mut tuples = Tuples::new(alloc);
    add_tuple(&mut tuples, Values::new(alloc), always)?;
    Ok(tuples)
}

/// Each value of a group alone, as a tuple of one. It adds no gate.
pub fn singles(alloc: Global, group: &[Entry]) -> Result<Tuples, AllocError>
    ensures means { IfOk result (λ ts. (v : ℕ → Bool) (o : Outcome Value) → Means v group.now o → MeansAll v ts (and_then o (λ x. Gives (x ∷ [])))) }
    ensures values { IfOk result (λ ts. tuples_in ts ≡ map (λ x. x ∷ []) (values_in group.now)) }
    ensures within { IfOk result (λ ts. tuple_variables ts ≡ group_variables group.now) }
{
    let mut tuples = Tuples::new(alloc);
    for entry in group {
        let values = alone(alloc, entry.value)?;
        add_tuple(&mut tuples, values, entry.lit)?;
    }
    Ok(tuples)
}

/// One tuple with each value of a group behind it, by one gate for each of them.
fn extend_tuples(
    alloc: Global,
    builder: &mut Builder,
    tuples: &mut Tuples,
    first: &Tuple,
    group: &[Entry],
) -> Result<(), GateError>
    requires first { first.now.lit.var < builder.old.count }
    requires group { group_variables group.now ≤ builder.old.count }
    requires tuples { tuple_variables tuples.old ≤ builder.old.count }
    ensures means { OnOk result ((v : ℕ → Bool) → Holds v builder.new → (ys : List Value) → holds_all v tuples.new ys ≡ (holds_all v tuples.old ys || (lit_true v first.now.lit && list_any (λ e. same_all (first.now.values ++ e.value ∷ []) ys && lit_true v e.lit) group.now))) }
    ensures values { OnOk result (tuples_in tuples.new ≡ tuples_in tuples.old ++ map (λ x. first.now.values ++ x ∷ []) (values_in group.now)) }
    ensures within { OnOk result (tuple_variables tuples.new ≤ builder.new.count) }
    ensures grows { Grows builder.old builder.new [] [] }
    ensures count { builder.new.count ≤ builder.old.count + length group.now }
    ensures size { size_of builder.new ≤ size_of builder.old + 7 * length group.now }
    ensures too_large { OnTooLarge result (IsOverLimit (builder.old.count + length group.now) (size_of builder.old + 7 * length group.now)) }
{
    for entry in group {
        let lit = both(builder, first.lit, entry.lit)?;
        let values = with_last(alloc, &first.values, entry.value)?;
        add_tuple(tuples, values, lit)?;
    }
    Ok(())
}

/// Each tuple with each value of a group behind it, by one gate for each pair of them.
pub fn times(
    alloc: Global,
    builder: &mut Builder,
    tuples: &[Tuple],
    group: &[Entry],
) -> Result<Tuples, GateError>
    requires tuples { tuple_variables tuples.now ≤ builder.old.count }
    requires group { group_variables group.now ≤ builder.old.count }
    ensures means { IfOk result (λ ts. (v : ℕ → Bool) → Holds v builder.new → (os : Outcome (List Value)) (o : Outcome Value) → MeansAll v tuples.now os → Means v group.now o → MeansAll v ts (and_then os (λ vs. and_then o (λ x. Gives (vs ++ x ∷ []))))) }
    ensures values { IfOk result (λ ts. tuples_in ts ≡ products (tuples_in tuples.now) (values_in group.now)) }
    ensures within { IfOk result (λ ts. tuple_variables ts ≤ builder.new.count) }
    ensures grows { Grows builder.old builder.new [] [] }
    ensures count { builder.new.count ≤ builder.old.count + length tuples.now * length group.now }
    ensures size { size_of builder.new ≤ size_of builder.old + 7 * (length tuples.now * length group.now) }
    ensures too_large { OnTooLarge result (IsOverLimit (builder.old.count + length tuples.now * length group.now) (size_of builder.old + 7 * (length tuples.now * length group.now))) }
{
    let mut all = Tuples::new(alloc);
    for tuple in tuples {
        extend_tuples(alloc, builder, &mut all, tuple, group)?;
    }
    Ok(all)
}
