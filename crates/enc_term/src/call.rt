//! Values inside a domain, and the values of a definition.
ghost use Rattle.std.specs.Prelude.{◌≡◌, ℕ, ◌+◌, ◌-◌, ◌*◌, ◌<◌, ◌≤◌, [], length, map, ◌++◌, ◌∷◌, OnOk, IfOk, Bool, List, Some, slice_get};
ghost use Rattle.cnf_gate.specs.Built.{Grows, size_of};
ghost use Rattle.asm_domain.specs.declared.value.Value as datum;
ghost use Rattle.asm_sign.specs.declared.function.Function as function;
ghost use Rattle.asm_node.specs.Values.{within};
ghost use Rattle.asm_node.specs.Machine.{Definition, definition_of};
ghost use Rattle.asm_node.specs.Term.{World, Outcome, Gives, and_then, calls_within};
ghost use Rattle.asm_eval.specs.World.{value_by, parameters_at};
ghost use Rattle.enc_group.specs.Group.{Holds, Means, values_in, once, group_variables};

use asm_node::within;
use asm_sign::Domains;
use cnf_gate::{Builder, GateError};
use enc_group::{Entry, ValueGroup, merged};
use std::alloc::{AllocError, Global};

fn push(entries: &mut ValueGroup, entry: Entry) -> Result<(), AllocError>
    ensures { OnOk result (entries.new ≡ entries.old ++ entry ∷ []) }
{
    entries.push(entry)
}

/// The values inside a domain, and `undef` in the place of others, with the same literals.
fn inside_all(
    alloc: Global,
    domains: &Domains,
    domain: u32,
    group: &[Entry],
) -> Result<ValueGroup, AllocError>
    ensures means { IfOk result (λ g. (v : ℕ → Bool) (o : Outcome datum.Value) → Means v group.now o → Means v g (and_then o (λ x. Gives (within domains.now domain x)))) }
    ensures values { IfOk result (λ g. values_in g ≡ map (within domains.now domain) (values_in group.now)) }
    ensures within { IfOk result (λ g. group_variables g ≡ group_variables group.now) }
    ensures long { IfOk result (λ g. length g ≡ length group.now) }
{
    let mut bag = ValueGroup::new(alloc);
    for entry in group {
        let value = within(domains, domain, entry.value);
        push(
            &mut bag,
            Entry {
                value,
                lit: entry.lit,
            },
        )?;
    }
    Ok(bag)
}

/// The values of a group that are inside a domain, and `undef` in the place of the others.
pub fn inside(
    alloc: Global,
    builder: &mut Builder,
    domains: &Domains,
    domain: u32,
    group: &[Entry],
) -> Result<ValueGroup, GateError>
    requires { group_variables group.now ≤ builder.old.count }
    ensures means { IfOk result (λ g. (v : ℕ → Bool) → Holds v builder.new → (o : Outcome datum.Value) → Means v group.now o → Means v g (and_then o (λ x. Gives (within domains.now domain x)))) }
    ensures values { IfOk result (λ g. values_in g ≡ once (map (within domains.now domain) (values_in group.now))) }
    ensures within { IfOk result (λ g. group_variables g ≤ builder.new.count) }
    ensures grows { Grows builder.old builder.new [] [] }
    ensures count { builder.new.count ≤ builder.old.count + length (once (map (within domains.now domain) (values_in group.now))) }
    ensures size { size_of builder.new ≤ size_of builder.old + 3 * length group.now + length (once (map (within domains.now domain) (values_in group.now))) }
{
    let bag = inside_all(alloc, domains, domain, group)?;
    let group = merged(alloc, builder, bag.slice())?;
    Ok(group)
}

/// A static or derived function at arguments, whose body was encoded where the parameters have their values.
pub fn call_group(
    alloc: Global,
    builder: &mut Builder,
    domains: &Domains,
    codomain: u32,
    body: &[Entry],
) -> Result<ValueGroup, GateError>
    requires { group_variables body.now ≤ builder.old.count }
    ensures means { IfOk result (λ g. (v : ℕ → Bool) → Holds v builder.new → (w : World) (n f : ℕ) (vs : List datum.Value) (function : function.Function) (d : Definition) → w.machine.signature.domains ≡ domains.now → function.codomain ≡ codomain → 0 < n → slice_get w.machine.signature.functions f ≡ Some function → Some d ≡ definition_of w.machine.definitions f → Means v body.now (value_by w (n - 1) (parameters_at d.parameters vs) d.body) → Means v g (calls_within w n f vs)) }
    ensures values { IfOk result (λ g. values_in g ≡ once (map (within domains.now codomain) (values_in body.now))) }
    ensures within { IfOk result (λ g. group_variables g ≤ builder.new.count) }
    ensures grows { Grows builder.old builder.new [] [] }
    ensures count { builder.new.count ≤ builder.old.count + length (once (map (within domains.now codomain) (values_in body.now))) }
    ensures size { size_of builder.new ≤ size_of builder.old + 3 * length body.now + length (once (map (within domains.now codomain) (values_in body.now))) }
{
    let group = inside(alloc, builder, domains, codomain, body)?;
    Ok(group)
}
