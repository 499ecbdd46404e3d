//! The value of a dynamic function at arguments.
ghost use Rattle.std.specs.Prelude.{◌≡◌, ℕ, ◌<◌, ◌≤◌, Bool, true, List, length, IfOk, slice_get, Some, if◌then◌else◌};
ghost use Rattle.cnf_base.specs.Clauses.{lit_true};
ghost use Rattle.cnf_gate.specs.Built.{Built};
ghost use Rattle.asm_domain.specs.declared.value.Value as datum;
ghost use Rattle.asm_sign.specs.Kind.{is_dynamic, is_kept};
ghost use Rattle.asm_node.specs.Machine.{slot_at};
ghost use Rattle.asm_node.specs.Model.{machine_of};
ghost use Rattle.asm_node.specs.Term.{World, Calls, state_value, input_value, read};
ghost use Rattle.enc_group.specs.Group.{Means};
ghost use Rattle.enc_group.specs.Binding.{group_at};
ghost use Rattle.enc_term.specs.Can.{Has, dynamic_can};
ghost use Rattle.enc_term.specs.Cycle.{IsGroupOf};
ghost use Rattle.enc_term.specs.Bits.{Stands, AreBits, version_groups};

use crate::bits::{Bits, Context};
use asm_domain::Value;
use asm_node::are_arguments;
use asm_sign::Function;
use enc_group::{Entry, ValueGroup, constant};
use std::alloc::AllocError;

/// The group at a place of a list of groups.
fn group_of(groups: &[ValueGroup], place: u32) -> &[Entry]
    requires { place < length groups.now }
    ensures { result.now ≡ group_at groups.now place }
{
    groups[place as usize].slice()
}

/// The groups of a version.
fn groups_of(bits: &Bits, version: usize) -> &[ValueGroup]
    ensures { result.now ≡ version_groups bits.now version }
{
    match bits.versions.item(version) {
        Some(found) => found.groups.slice(),
        None => &[],
    }
}

/// The group of a location, by its slot; without one the value is `undef`.
fn location_group(
    context: &Context<'_>,
    number: u32,
    function: &Function,
    values: &[Value],
) -> Result<ValueGroup, AllocError>
    requires bits { (b : Built) × AreBits b (machine_of context.now.model.now) context.now.bits.now context.now.version }
    requires function { slice_get (machine_of context.now.model.now).signature.functions number ≡ Some function.now }
    ensures means { IfOk result (λ g. (v : ℕ → Bool) → lit_true v context.now.bits.now.always ≡ true → (w : World) → Stands v (machine_of context.now.model.now) context.now.bits.now context.now.version w → let slot = slot_at w.machine.signature number values.now in Means v g (if is_kept function.now.kind then state_value w slot else input_value w slot)) }
    ensures group { IfOk result (λ g. (b : Built) → AreBits b (machine_of context.now.model.now) context.now.bits.now context.now.version → (vss : List (List datum.Value)) → Has vss values.now → IsGroupOf b (dynamic_can (machine_of context.now.model.now).signature number function.now vss) g) }
{
    match context.model.signature().slot_of(number, values) {
        Some(slot) => {
            if function.kind.is_kept() {
                let kept = group_of(groups_of(context.bits, context.version), slot);
                Ok(ValueGroup::from_slice(context.alloc, kept)?)
            } else {
                let asked = group_of(context.bits.inputs.slice(), slot);
                Ok(ValueGroup::from_slice(context.alloc, asked)?)
            }
        }
        None => Ok(constant(context.alloc, Value::Undef, context.bits.always)?),
    }
}

/// The value of a dynamic function at arguments: `undef` where one of them isn't in its domain. It adds no gate.
pub fn read_group(
    context: &Context<'_>,
    number: u32,
    function: &Function,
    values: &[Value],
) -> Result<ValueGroup, AllocError>
    requires bits { (b : Built) × AreBits b (machine_of context.now.model.now) context.now.bits.now context.now.version }
    requires function { slice_get (machine_of context.now.model.now).signature.functions number ≡ Some function.now }
    requires dynamic { is_dynamic function.now.kind ≡ true }
    ensures means { IfOk result (λ g. (v : ℕ → Bool) → lit_true v context.now.bits.now.always ≡ true → (w : World) (calls : Calls) → Stands v (machine_of context.now.model.now) context.now.bits.now context.now.version w → Means v g (read w calls number (Some function.now) values.now)) }
    ensures group { IfOk result (λ g. (b : Built) → AreBits b (machine_of context.now.model.now) context.now.bits.now context.now.version → (vss : List (List datum.Value)) → Has vss values.now → IsGroupOf b (dynamic_can (machine_of context.now.model.now).signature number function.now vss) g) }
{
    let domains = context.model.signature().domains();
    if !are_arguments(domains, function.domains.slice(), values) {
        return Ok(constant(context.alloc, Value::Undef, context.bits.always)?);
    }
    let group = location_group(context, number, function, values)?;
    Ok(group)
}
