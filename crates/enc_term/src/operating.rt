//! What an operator gives of its arguments' groups.
ghost use Rattle.std.specs.Prelude.{◌≡◌, ℕ, ◌+◌, ◌*◌, ◌<◌, ◌≤◌, ◌++◌, ◌∷◌, [], length, map, OnOk, IfOk, Bool, List, get_or};
ghost use Rattle.cnf_gate.specs.Built.{Grows, size_of};
ghost use Rattle.asm_domain.specs.declared.value.Value.{Value};
ghost use Rattle.asm_node.specs.Values.{result_of};
ghost use Rattle.asm_node.specs.Exact.{IsSmall};
ghost use Rattle.asm_node.specs.Term.{Outcome, Gives, and_then};
ghost use Rattle.enc_group.specs.declared.tuple.Tuple as tuple;
ghost use Rattle.enc_group.specs.Group.{Holds, Means, values_in, once, group_variables};
ghost use Rattle.enc_group.specs.Tuple.{MeansAll, tuples_in, tuple_variables};

use asm_eval::apply;
use asm_node::Op;
use cnf_gate::{Builder, GateError};
use enc_group::{Entry, Tuple, ValueGroup, merged};
use std::alloc::{AllocError, Global};

fn push(entries: &mut ValueGroup, entry: Entry) -> Result<(), AllocError>
    ensures { OnOk result (entries.new ≡ entries.old ++ entry ∷ []) }
{
    entries.push(entry)
}

/// The results of an operator at tuples, with the tuples' literals.
fn apply_all(alloc: Global, op: Op, tuples: &[Tuple]) -> Result<ValueGroup, AllocError>
    requires small { (j : ℕ) (t : tuple.Tuple) → j < length tuples.now → t ≡ get_or tuples.now j t → IsSmall (result_of op t.values) }
    ensures means { IfOk result (λ g. (v : ℕ → Bool) (o : Outcome (List Value)) → MeansAll v tuples.now o → Means v g (and_then o (λ vs. Gives (result_of op vs)))) }
    ensures values { IfOk result (λ g. values_in g ≡ map (result_of op) (tuples_in tuples.now)) }
    ensures within { IfOk result (λ g. group_variables g ≡ tuple_variables tuples.now) }
    ensures long { IfOk result (λ g. length g ≡ length tuples.now) }
{
    let mut bag = ValueGroup::new(alloc);
    for tuple in tuples {
        let value = apply(op, tuple.values.slice());
        push(
            &mut bag,
            Entry {
                value,
                lit: tuple.lit,
            },
        )?;
    }
    Ok(bag)
}

/// What an operator gives, over the tuples of its arguments' values.
pub fn operate(
    alloc: Global,
    builder: &mut Builder,
    op: Op,
    tuples: &[Tuple],
) -> Result<ValueGroup, GateError>
    requires tuples { tuple_variables tuples.now ≤ builder.old.count }
    requires small { (j : ℕ) (t : tuple.Tuple) → j < length tuples.now → t ≡ get_or tuples.now j t → IsSmall (result_of op t.values) }
    ensures means { IfOk result (λ g. (v : ℕ → Bool) → Holds v builder.new → (o : Outcome (List Value)) → MeansAll v tuples.now o → Means v g (and_then o (λ vs. Gives (result_of op vs)))) }
    ensures values { IfOk result (λ g. values_in g ≡ once (map (result_of op) (tuples_in tuples.now))) }
    ensures within { IfOk result (λ g. group_variables g ≤ builder.new.count) }
    ensures grows { Grows builder.old builder.new [] [] }
    ensures count { builder.new.count ≤ builder.old.count + length (once (map (result_of op) (tuples_in tuples.now))) }
    ensures size { size_of builder.new ≤ size_of builder.old + 3 * length tuples.now + length (once (map (result_of op) (tuples_in tuples.now))) }
{
    let bag = apply_all(alloc, op, tuples)?;
    let group = merged(alloc, builder, bag.slice())?;
    Ok(group)
}
