//! The values of locations and of constants.
ghost use Rattle.std.specs.Prelude.{◌≡◌, true, Some, if◌then◌else◌, slice_get};
ghost use Rattle.std.specs.List.{position};
ghost use Rattle.asm_sign.specs.Kind.{is_dynamic, is_kept};
ghost use Rattle.std.specs.FinMap as finite;
ghost use Rattle.asm_node.specs.Machine.{constant_of, element_named, slot_at, same_name};
ghost use Rattle.asm_node.specs.Model.{machine_of};
ghost use Rattle.asm_node.specs.Term.{state_value, input_value, given};
ghost use Rattle.asm_eval.specs.Answer.{Answers};
ghost use Rattle.asm_eval.specs.World.{world_in};

use crate::error::EvalError;
use crate::world::World;
use asm_domain::{Domain, Value};
use asm_list::Name;
use asm_sign::{Domains, Function};
use asm_state::Store;

/// The value of a dynamic function at arguments, by its location.
pub fn location_value<S: Store>(
    world: &World<'_, S>,
    number: u32,
    function: &Function,
    values: &[Value],
) -> Result<Value, EvalError>
    requires function { slice_get (machine_of world.now.model.now).signature.functions number ≡ Some function.now }
    requires dynamic { is_dynamic function.now.kind ≡ true }
    ensures { let w = world_in (machine_of world.now.model.now) (S.state world.now.store.now) world.now.input.now in let slot = slot_at w.machine.signature number values.now in Answers (λ v. v) result (if is_kept function.now.kind then state_value w slot else input_value w slot) }
{
    match world.model.signature().slot_of(number, values) {
        Some(slot) => {
            if function.kind.is_kept() {
                Ok(world.store.get(slot))
            } else {
                given(world, slot)
            }
        }
        None => Ok(Value::Undef),
    }
}

/// The input's value of a slot, or the need of it.
fn given<S: Store>(world: &World<'_, S>, slot: u32) -> Result<Value, EvalError>
    ensures { Answers (λ v. v) result (given slot (finite.get world.now.input.now slot)) }
{
    match world.input.get(slot) {
        Some(value) => Ok(*value),
        None => Err(EvalError::Need(slot)),
    }
}

/// The element that a constant of an abstract domain names.
pub fn constant_of(domains: &Domains, function: &Function) -> Value
    ensures { result ≡ constant_of domains.now function.now }
{
    match domains.item(function.codomain as usize) {
        Some(declared) => element_named(&declared.domain, &function.name),
        None => Value::Undef,
    }
}

/// The element of a name, where the domain's elements have names.
fn element_named(domain: &Domain, name: &Name) -> Value
    ensures { result ≡ element_named name.now domain.now }
{
    let _size = domain.size();
    match domain.names() {
        Some(names) => match place_of(names.slice(), name) {
            Some(rank) => domain.element(rank as u32),
            None => Value::Undef,
        },
        None => Value::Undef,
    }
}

/// The first place of a name.
fn place_of(names: &[Name], name: &Name) -> Option<usize>
    ensures { result ≡ position (same_name name.now) names.now }
{
    names.iter().position(|other| is_same_name(name, other))
}

fn is_same_name(name: &Name, other: &Name) -> bool
    ensures { result ≡ same_name name.now other.now }
{
    name.text() == other.text()
}
