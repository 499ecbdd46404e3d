//! Bindings, reads and conditionals over the groups of their parts.
ghost use Rattle.std.specs.Prelude.{◌≡◌, ℕ, ◌+◌, ◌*◌, ◌<◌, ◌≤◌, [], length, IfOk, Bool, List, get_or};
ghost use Rattle.std.specs.List.{flat_map};
ghost use Rattle.cnf_gate.specs.Built.{Grows, size_of};
ghost use Rattle.asm_domain.specs.declared.value.Value as datum;
ghost use Rattle.asm_node.specs.Tree as tree;
ghost use Rattle.asm_node.specs.Term.{World, Outcome, Places, and_then, branch};
ghost use Rattle.asm_eval.specs.World.{value_by, values_by};
ghost use Rattle.enc_group.specs.Group.{Holds, Means, values_in, once, group_variables};
ghost use Rattle.enc_group.specs.Tuple.{MeansAll, tuple_variables};
ghost use Rattle.enc_group.specs.Binding.{group_at, entries_before, values_before};
ghost use Rattle.enc_term.specs.Forms.{LetParts, CallParts};

use asm_domain::Value;
use cnf_gate::{Builder, GateError};
use enc_group::{Entry, Tuple, ValueGroup, bind, bind_tuples, extend, merged};
use std::alloc::Global;

/// A `let`: the body was encoded once for each value of the bound term.
pub fn let_group(
    alloc: Global,
    builder: &mut Builder,
    bound: &[Entry],
    bodies: &[ValueGroup],
) -> Result<ValueGroup, GateError>
    requires bound { group_variables bound.now ≤ builder.old.count }
    requires long { length bound.now ≤ length bodies.now }
    requires bodies { (j : ℕ) → group_variables (group_at bodies.now j) ≤ builder.old.count }
    ensures means { IfOk result (λ g. (v : ℕ → Bool) → Holds v builder.new → (w : World) (n x : ℕ) (e : Places) (t u : tree.Tree) → Means v bound.now (value_by w n e t) → LetParts v w n x e u bound.now bodies.now → Means v g (value_by w n e (tree.Let x t u))) }
    ensures values { IfOk result (λ g. values_in g ≡ once (values_before bodies.now (length bound.now))) }
    ensures within { IfOk result (λ g. group_variables g ≤ builder.new.count) }
    ensures grows { Grows builder.old builder.new [] [] }
    ensures count { builder.new.count ≤ builder.old.count + entries_before bodies.now (length bound.now) + length (once (values_before bodies.now (length bound.now))) }
    ensures size { size_of builder.new ≤ size_of builder.old + 10 * entries_before bodies.now (length bound.now) + length (once (values_before bodies.now (length bound.now))) }
{
    let bag = bind(alloc, builder, bound, bodies)?;
    let group = merged(alloc, builder, bag.slice())?;
    Ok(group)
}

/// A read of a function: its value was encoded once for each tuple of argument values.
pub fn get_group(
    alloc: Global,
    builder: &mut Builder,
    arguments: &[Tuple],
    results: &[ValueGroup],
) -> Result<ValueGroup, GateError>
    requires arguments { tuple_variables arguments.now ≤ builder.old.count }
    requires long { length arguments.now ≤ length results.now }
    requires results { (j : ℕ) → group_variables (group_at results.now j) ≤ builder.old.count }
    ensures means { IfOk result (λ g. (v : ℕ → Bool) → Holds v builder.new → (w : World) (n f : ℕ) (e : Places) (ts : tree.Trees) → MeansAll v arguments.now (values_by w n e ts) → CallParts v w n f arguments.now results.now → Means v g (value_by w n e (tree.Get f ts))) }
    ensures values { IfOk result (λ g. values_in g ≡ once (values_before results.now (length arguments.now))) }
    ensures within { IfOk result (λ g. group_variables g ≤ builder.new.count) }
    ensures grows { Grows builder.old builder.new [] [] }
    ensures count { builder.new.count ≤ builder.old.count + entries_before results.now (length arguments.now) + length (once (values_before results.now (length arguments.now))) }
    ensures size { size_of builder.new ≤ size_of builder.old + 10 * entries_before results.now (length arguments.now) + length (once (values_before results.now (length arguments.now))) }
{
    let bag = bind_tuples(alloc, builder, arguments, results)?;
    let group = merged(alloc, builder, bag.slice())?;
    Ok(group)
}

/// The group that a value takes: the first where it is true, the second where it is false, else the last.
fn part<'a>(
    value: Value,
    first: &'a [Entry],
    second: &'a [Entry],
    other: &'a [Entry],
) -> &'a [Entry]
    ensures { result.now ≡ branch value first.now second.now other.now }
{
    match value {
        Value::Bool(true) => first,
        Value::Bool(false) => second,
        _ => other,
    }
}

/// What the parts of a conditional give where the guard takes them, one gate for each of their entries and each of the
/// guard's values.
fn branches(
    alloc: Global,
    builder: &mut Builder,
    keys: &[Entry],
    first: &[Entry],
    second: &[Entry],
    other: &[Entry],
) -> Result<ValueGroup, GateError>
    requires keys { group_variables keys.now ≤ builder.old.count }
    requires first { group_variables first.now ≤ builder.old.count }
    requires second { group_variables second.now ≤ builder.old.count }
    requires other { group_variables other.now ≤ builder.old.count }
    ensures means { IfOk result (λ g. (v : ℕ → Bool) → Holds v builder.new → (o p q r : Outcome datum.Value) → Means v keys.now o → Means v first.now p → Means v second.now q → Means v other.now r → Means v g (and_then o (λ x. branch x p q r))) }
    ensures values { IfOk result (λ g. values_in g ≡ flat_map (λ x. branch x (values_in first.now) (values_in second.now) (values_in other.now)) (values_in keys.now)) }
    ensures within { IfOk result (λ g. group_variables g ≤ builder.new.count) }
    ensures grows { Grows builder.old builder.new [] [] }
{
    let mut bag = ValueGroup::new(alloc);
    for key in keys {
        extend(
            builder,
            &mut bag,
            key.lit,
            part(key.value, first, second, other),
        )?;
    }
    Ok(bag)
}

/// A conditional: the first group where the guard is true, the second where it is false, else the last.
pub fn choice(
    alloc: Global,
    builder: &mut Builder,
    keys: &[Entry],
    first: &[Entry],
    second: &[Entry],
    other: &[Entry],
) -> Result<ValueGroup, GateError>
    requires keys { group_variables keys.now ≤ builder.old.count }
    requires first { group_variables first.now ≤ builder.old.count }
    requires second { group_variables second.now ≤ builder.old.count }
    requires other { group_variables other.now ≤ builder.old.count }
    ensures means { IfOk result (λ g. (v : ℕ → Bool) → Holds v builder.new → (o p q r : Outcome datum.Value) → Means v keys.now o → Means v first.now p → Means v second.now q → Means v other.now r → Means v g (and_then o (λ x. branch x p q r))) }
    ensures values { IfOk result (λ g. values_in g ≡ once (flat_map (λ x. branch x (values_in first.now) (values_in second.now) (values_in other.now)) (values_in keys.now))) }
    ensures within { IfOk result (λ g. group_variables g ≤ builder.new.count) }
    ensures grows { Grows builder.old builder.new [] [] }
{
    let bag = branches(alloc, builder, keys, first, second, other)?;
    let group = merged(alloc, builder, bag.slice())?;
    Ok(group)
}
