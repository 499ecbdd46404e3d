//! Updates of locations.
ghost use Rattle.std.specs.Prelude.{◌≡◌, ℕ, ◌+◌, ◌*◌, ◌<◌, ◌≤◌, ◌++◌, ◌∷◌, [], length, OnOk, IfOk, Bool, not, ◌&&◌, ◌||◌, if◌then◌else◌, map, Some, slice_get};
ghost use Rattle.std.specs.List.{list_any};
ghost use Rattle.asm_source.specs.declared.sources.Place.{Place};
ghost use Rattle.asm_domain.specs.declared.value.Value as datum;
ghost use Rattle.asm_node.specs.RuleTree as tree;
ghost use Rattle.asm_node.specs.Tree.{Tree, Trees};
ghost use Rattle.asm_node.specs.Term.{val, vals};
ghost use Rattle.cnf_base.specs.Clauses.{lit_true};
ghost use Rattle.cnf_gate.specs.Built.{Grows, size_of};
ghost use Rattle.enc_group.specs.Group.{Holds, Means, group_variables};
ghost use Rattle.enc_group.specs.Tuple.{MeansAll, tuple_variables};
ghost use Rattle.enc_rule.specs.Rules.{Setting, MeansRule};
ghost use Rattle.enc_rule.specs.Written.{may_write, some_pair, some_value, some_written, writable, writable_at};
ghost use Rattle.enc_update.specs.Updates.{pair_variables};

use asm_domain::Value;
use asm_node::is_element;
use asm_sign::{Domains, Signature};
use cnf_base::Lit;
use cnf_gate::{Builder, GateError};
use enc_group::{Entry, Tuple, ValueGroup, both};
use enc_update::{Pair, Pairs, UpdateBits};
use std::alloc::{AllocError, Global};

fn allowed(domains: &Domains, codomain: u32, value: Value) -> bool
    ensures { result ≡ may_write domains.now codomain value }
{
    match value {
        Value::Undef => true,
        _ => is_element(domains, codomain, value),
    }
}

fn push_if(entries: &mut ValueGroup, wanted: bool, entry: Entry) -> Result<(), AllocError>
    ensures { OnOk result (entries.new ≡ entries.old ++ (if wanted then entry ∷ [] else [])) }
{
    if wanted {
        entries.push(entry)?;
    }
    Ok(())
}

/// The entries whose values may be written: `undef`, and the elements of the codomain.
fn kept(
    alloc: Global,
    domains: &Domains,
    codomain: u32,
    value: &[Entry],
) -> Result<ValueGroup, AllocError>
    ensures { IfOk result (λ g. g ≡ writable domains.now codomain value.now) }
{
    let mut entries = ValueGroup::new(alloc);
    for entry in value {
        push_if(
            &mut entries,
            allowed(domains, codomain, entry.value),
            *entry,
        )?;
    }
    Ok(entries)
}

/// The entries whose values may be written to locations of a function; none without the function.
fn kept_at(
    alloc: Global,
    signature: &Signature,
    function: u32,
    value: &[Entry],
) -> Result<ValueGroup, AllocError>
    ensures { IfOk result (λ g. g ≡ writable_at signature.now.domains (slice_get signature.now.functions function) value.now) }
{
    match signature.functions().item(function as usize) {
        Some(declared) => kept(alloc, signature.domains(), declared.codomain, value),
        None => Ok(ValueGroup::new(alloc)),
    }
}

fn push_pair(pairs: &mut Pairs, pair: Pair) -> Result<(), AllocError>
    ensures { OnOk result (pairs.new ≡ pairs.old ++ pair ∷ []) }
{
    pairs.push(pair)
}

/// Adds a pair of the slot for each value, where `guard` and the value's literal are true.
fn add_values(
    builder: &mut Builder,
    pairs: &mut Pairs,
    slot: u32,
    guard: Lit,
    values: &[Entry],
) -> Result<(), GateError>
    requires guard { guard.var < builder.old.count }
    requires values { group_variables values.now ≤ builder.old.count }
    requires pairs { pair_variables pairs.old ≤ builder.old.count }
    ensures means { OnOk result ((v : ℕ → Bool) → Holds v builder.new → (q : ℕ → datum.Value → Bool) → some_pair v pairs.new q ≡ (some_pair v pairs.old q || (some_value v q values.now (Some slot) && lit_true v guard))) }
    ensures within { OnOk result (pair_variables pairs.new ≤ builder.new.count) }
    ensures grows { Grows builder.old builder.new [] [] }
{
    for entry in values {
        let lit = both(builder, guard, entry.lit)?;
        push_pair(
            pairs,
            Pair {
                slot,
                value: entry.value,
                lit,
            },
        )?;
    }
    Ok(())
}

/// Adds the pairs of a location, if it has a slot.
fn add_at(
    builder: &mut Builder,
    pairs: &mut Pairs,
    slot: Option<u32>,
    guard: Lit,
    values: &[Entry],
) -> Result<(), GateError>
    requires guard { guard.var < builder.old.count }
    requires values { group_variables values.now ≤ builder.old.count }
    requires pairs { pair_variables pairs.old ≤ builder.old.count }
    ensures means { OnOk result ((v : ℕ → Bool) → Holds v builder.new → (q : ℕ → datum.Value → Bool) → some_pair v pairs.new q ≡ (some_pair v pairs.old q || (some_value v q values.now slot && lit_true v guard))) }
    ensures within { OnOk result (pair_variables pairs.new ≤ builder.new.count) }
    ensures grows { Grows builder.old builder.new [] [] }
{
    match slot {
        Some(found) => add_values(builder, pairs, found, guard, values),
        None => Ok(()),
    }
}

/// The pairs of all locations and values that can come.
fn written_pairs(
    alloc: Global,
    builder: &mut Builder,
    signature: &Signature,
    function: u32,
    arguments: &[Tuple],
    values: &[Entry],
) -> Result<Pairs, GateError>
    requires arguments { tuple_variables arguments.now ≤ builder.old.count }
    requires values { group_variables values.now ≤ builder.old.count }
    ensures means { IfOk result (λ ps. (v : ℕ → Bool) → Holds v builder.new → (q : ℕ → datum.Value → Bool) → some_pair v ps q ≡ some_written v q signature.now function values.now arguments.now) }
    ensures within { IfOk result (λ ps. pair_variables ps ≤ builder.new.count) }
    ensures grows { Grows builder.old builder.new [] [] }
{
    let mut pairs = Pairs::new(alloc);
    for tuple in arguments {
        let slot = signature.slot_of(function, tuple.values.slice());
        add_at(builder, &mut pairs, slot, tuple.lit, values)?;
    }
    Ok(pairs)
}

fn push_lit(lits: &mut Vec<Lit>, lit: Lit) -> Result<(), AllocError>
    ensures { OnOk result (lits.new.items ≡ lits.old.items ++ lit ∷ []) }
{
    lits.push(lit)?;
    Ok(())
}

/// The literals of pairs, in their order.
fn lits_of(alloc: Global, pairs: &[Pair]) -> Result<Vec<Lit>, AllocError>
    ensures { IfOk result (λ ls. ls.items ≡ map (λ p. p.lit) pairs.now) }
{
    let mut lits = Vec::new(alloc);
    for pair in pairs {
        push_lit(&mut lits, pair.lit)?;
    }
    Ok(lits)
}

/// A literal that is true where no pair is.
fn nothing_of(alloc: Global, builder: &mut Builder, pairs: &[Pair]) -> Result<Lit, GateError>
    requires { pair_variables pairs.now ≤ builder.old.count }
    ensures means { IfOk result (λ l. (v : ℕ → Bool) → Holds v builder.new → lit_true v l ≡ not (list_any (λ p. lit_true v p.lit) pairs.now)) }
    ensures within { IfOk result (λ l. l.var < builder.new.count) }
    ensures grows { Grows builder.old builder.new [] [] }
{
    let lits = lits_of(alloc, pairs)?;
    let some = builder.or(lits.as_slice())?;
    Ok(Builder::not(some))
}

/// An update of a function at arguments: the pair of the location and the value. Where there is none, as of a bad argument or value,
/// that is a fault. It adds a gate for each pair of a tuple and a value, and one.
pub fn write_updates(
    alloc: Global,
    builder: &mut Builder,
    signature: &Signature,
    function: u32,
    arguments: &[Tuple],
    value: &[Entry],
) -> Result<UpdateBits, GateError>
    requires arguments { tuple_variables arguments.now ≤ builder.old.count }
    requires value { group_variables value.now ≤ builder.old.count }
    ensures means { IfOk result (λ r. (v : ℕ → Bool) → Holds v builder.new → (s : Setting) (place : Place) (ts : Trees) (t : Tree) → s.world.machine.signature ≡ signature.now → MeansAll v arguments.now (vals s.world s.places ts) → Means v value.now (val s.world s.places t) → MeansRule v r s (tree.Update place function ts t)) }
    ensures within { IfOk result (λ r. pair_variables r.pairs ≤ builder.new.count) }
    ensures fault { IfOk result (λ r. r.fault.var < builder.new.count) }
    ensures grows { Grows builder.old builder.new [] [] }
{
    let values = kept_at(alloc, signature, function, value)?;
    let pairs = written_pairs(
        alloc,
        builder,
        signature,
        function,
        arguments,
        values.slice(),
    )?;
    let fault = nothing_of(alloc, builder, pairs.slice())?;
    Ok(UpdateBits { pairs, fault })
}
