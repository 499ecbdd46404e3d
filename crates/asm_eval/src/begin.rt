//! The state in which a run begins.
ghost use Rattle.std.specs.Prelude.{◌≡◌, ◌<◌, true, length, slice_get, option_map, Some, IfOk};
ghost use Rattle.asm_sign.specs.Kind.{is_kept};
ghost use Rattle.asm_sign.specs.Vocabulary.{locations, function_at};
ghost use Rattle.asm_state.specs.State.{IsUndefined};
ghost use Rattle.asm_node.specs.Exact.{IsExactBody, exact_within};
ghost use Rattle.asm_node.specs.Machine.{has_kind, no_input};
ghost use Rattle.asm_node.specs.Model.{machine_of, defined_by};
ghost use Rattle.asm_node.specs.Step.{IsState, alone, initial, initial_value, may_have};
ghost use Rattle.asm_node.specs.Term.{calls_of};
ghost use Rattle.asm_eval.specs.Beginning.{AreInitialsExact, Begins, put_checked, started_at, value_at};

use crate::error::{EvalError, InitError};
use crate::terms::eval_body;
use crate::truth::is_undef;
use crate::world::World;
use asm_domain::Value;
use asm_node::{Definition, Input, Model, is_element};
use asm_state::{MapStore, Store};
use std::alloc::{AllocError, Global};

/// The state in which a run begins: each kept location has the value of its initial term, or `undef` without one.
#[tactic(auto, using(crate::proofs::Initials::initials_of_model))]
pub fn initial(alloc: Global, model: &Model) -> Result<MapStore, InitError>
    ensures begins { Begins (λ s. s) result (initial (machine_of model.now)) }
    ensures state { IfOk result (IsState (machine_of model.now)) }
{
    let undefined = MapStore::new(alloc, model.signature())?;
    let input = Input::new(alloc);
    let mut store = undefined.copy()?;
    let world = World {
        alloc,
        model,
        store: &undefined,
        input: &input,
    };
    for slot in 0..model.signature().slots() {
        start(&world, slot, &mut store)?;
    }
    Ok(store)
}

/// Puts the initial value of a slot, where a state keeps it.
fn start(world: &World<'_, MapStore>, slot: u32, store: &mut MapStore) -> Result<(), InitError>
    requires slot { slot < length (locations (machine_of world.now.model.now).signature) }
    requires undefined { IsUndefined (machine_of world.now.model.now).signature world.now.store.now }
    requires no_input { world.now.input.now ≡ no_input }
    requires exact { AreInitialsExact (machine_of world.now.model.now) }
    requires state { IsState (machine_of world.now.model.now) store.old }
    ensures begins { let m = machine_of world.now.model.now in Begins (λ _. store.new) result (started_at m store.old slot (slice_get (locations m.signature) slot)) }
    ensures state { IfOk result (λ _. IsState (machine_of world.now.model.now) store.new) }
{
    if !world.model.signature().kept(slot) {
        return Ok(());
    }
    let value = initial_at(world, slot)?;
    put_checked(world.model, slot, value, store)
}

/// Puts a value at a slot, if the slot may have it.
fn put_checked(
    model: &Model,
    slot: u32,
    value: Value,
    store: &mut MapStore,
) -> Result<(), InitError>
    requires slot { slot < length (locations (machine_of model.now).signature) }
    requires kept { has_kind is_kept (function_at (machine_of model.now).signature slot) ≡ true }
    requires state { IsState (machine_of model.now) store.old }
    ensures begins { Begins (λ _. store.new) result (put_checked (machine_of model.now) store.old slot value) }
    ensures state { IfOk result (λ _. IsState (machine_of model.now) store.new) }
{
    if !may_have(model, slot, value) {
        return Err(InitError::BadInitial(slot, value));
    }
    store.put(slot, value);
    Ok(())
}

/// Whether the slot may have the value.
fn may_have(model: &Model, slot: u32, value: Value) -> bool
    requires { slot < length (locations (machine_of model.now).signature) }
    ensures { result ≡ may_have (machine_of model.now) (function_at (machine_of model.now).signature slot) value }
{
    let signature = model.signature();
    let (number, _arguments) = signature.location(slot);
    match signature.functions().item(number as usize) {
        Some(function) => {
            is_undef(value) || is_element(signature.domains(), function.codomain, value)
        }
        None => is_undef(value),
    }
}

/// The initial value of the location at a slot.
fn initial_at(world: &World<'_, MapStore>, slot: u32) -> Result<Value, AllocError>
    requires slot { slot < length (locations (machine_of world.now.model.now).signature) }
    requires undefined { IsUndefined (machine_of world.now.model.now).signature world.now.store.now }
    requires no_input { world.now.input.now ≡ no_input }
    requires exact { AreInitialsExact (machine_of world.now.model.now) }
    ensures { IfOk result (λ v. let m = machine_of world.now.model.now in option_map (value_at m) (slice_get (locations m.signature) slot) ≡ Some v) }
{
    let (number, arguments) = world.model.signature().location(slot);
    match world.model.initial_term(number) {
        Some(definition) => initial_value(world, definition, &arguments),
        None => Ok(Value::Undef),
    }
}

/// The value of an initial term at arguments.
fn initial_value(
    world: &World<'_, MapStore>,
    definition: &Definition,
    arguments: &[Value],
) -> Result<Value, AllocError>
    requires undefined { IsUndefined (machine_of world.now.model.now).signature world.now.store.now }
    requires no_input { world.now.input.now ≡ no_input }
    requires exact { let w = alone (machine_of world.now.model.now) in IsExactBody w (calls_of w) (exact_within w 32) (Some (defined_by definition.now)) arguments.now }
    ensures { IfOk result (λ v. v ≡ initial_value (machine_of world.now.model.now) (Some (defined_by definition.now)) arguments.now) }
{
    match eval_body(world, definition, arguments) {
        Ok(value) => Ok(value),
        Err(EvalError::Need(_)) => Ok(Value::Undef),
        Err(EvalError::Memory) => Err(AllocError),
    }
}
