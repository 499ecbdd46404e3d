//! Steps from a state to the next one.
ghost use Rattle.std.specs.Prelude.{◌≡◌, ◌<◌, length, IfOk};
ghost use Rattle.asm_eval.specs.World.{world_in};
ghost use Rattle.asm_fire.specs.Sound.{IsSound};
ghost use Rattle.asm_node.specs.Machine.{has_kind, is_shared};
ghost use Rattle.asm_node.specs.Model.{machine_of};
ghost use Rattle.asm_node.specs.RuleTree.{plain_rule};
ghost use Rattle.asm_node.specs.Step.{IsInput, IsState, broken, ended, next, shared_value, with_shared};
ghost use Rattle.asm_node.specs.Taking.{by_words, outcome};
ghost use Rattle.asm_node.specs.Words.{left};
ghost use Rattle.asm_run.specs.Stepping.{HasKept, Leads};
ghost use Rattle.asm_sign.specs.Vocabulary.{function_at, locations};

use crate::error::StepError;
use crate::invariants;
use asm_domain::Value;
use asm_fire::fire;
use asm_node::{Input, Model, Rule, Stop, Words};
use asm_sign::{FunKind, Signature};
use asm_state::{MapStore, Store};
use std::alloc::Global;
use std::rc::Rc;

/// Makes the next state of a step of a rule in a store, and answers the number of the first invariant that is false there.
/// The words are those that are left, also after a stop.
pub fn next_state(
    alloc: Global,
    model: &Model,
    state: &MapStore,
    input: &Input,
    words: &mut Words,
    rule: &Rc<Rule>,
    room: &mut MapStore,
) -> Result<Option<u32>, StepError>
    requires state { IsState (machine_of model.now) state.now }
    requires room { IsState (machine_of model.now) room.old }
    requires input { IsInput (machine_of model.now) input.now }
    requires sound { IsSound (machine_of model.now) input.now (plain_rule rule.now.value) }
    ensures leads { Leads result room.new (left words.new) (next (machine_of model.now) state.now input.now (left words.old) (plain_rule rule.now.value)) }
    ensures broken { IfOk result (λ number. number ≡ broken (machine_of model.now) room.new) }
    ensures room { IsState (machine_of model.now) room.new }
    ensures words { words.new.0 ≡ words.old.0 }
{
    prepare(model.signature(), state, input, room);
    fire_in(alloc, model, input, words, rule, room)?;
    let number = invariants::broken(alloc, model, room)?;
    Ok(number)
}

/// Puts the values of a state, and the input's of shared locations, in a store with the same slots.
fn prepare(signature: &Signature, state: &MapStore, input: &Input, room: &mut MapStore)
    requires state { HasKept signature.now state.now }
    requires room { HasKept signature.now room.old }
    ensures { room.new ≡ with_shared signature.now input.now state.now }
{
    for slot in 0..signature.slots() {
        if signature.kept(slot) {
            let value = shared_value(signature, input, slot, state.get(slot));
            room.put(slot, value);
        }
    }
}

/// The input's value where the location of a slot is shared and the input gives one, else the value that it has.
fn shared_value(signature: &Signature, input: &Input, slot: u32, value: Value) -> Value
    requires { slot < length (locations signature.now) }
    ensures { result ≡ shared_value signature.now input.now slot value }
{
    if !is_shared(signature, slot) {
        return value;
    }
    match input.get(slot) {
        Some(given) => *given,
        None => value,
    }
}

/// Whether the function of a slot is shared.
fn is_shared(signature: &Signature, slot: u32) -> bool
    requires { slot < length (locations signature.now) }
    ensures { result ≡ has_kind is_shared (function_at signature.now slot) }
{
    let (number, _) = signature.location(slot);
    match signature.functions().item(number as usize) {
        Some(function) => is_shared_kind(function.kind),
        None => false,
    }
}

fn is_shared_kind(kind: FunKind) -> bool
    ensures { result ≡ is_shared kind }
{
    matches!(kind, FunKind::Shared)
}

/// Fires what a rule gives in a store. After a stop the store is as before.
fn fire_in(
    alloc: Global,
    model: &Model,
    input: &Input,
    words: &mut Words,
    rule: &Rc<Rule>,
    room: &mut MapStore,
) -> Result<(), StepError>
    requires state { IsState (machine_of model.now) room.old }
    requires sound { IsSound (machine_of model.now) input.now (plain_rule rule.now.value) }
    ensures leads { let w = world_in (machine_of model.now) room.old input.now in Leads result room.new (left words.new) (ended w (outcome by_words w (plain_rule rule.now.value) (left words.old))) }
    ensures state { IsState (machine_of model.now) room.new }
    ensures words { words.new.0 ≡ words.old.0 }
{
    let updates = fire(alloc, model, room, input, words, rule)?;
    if let Some((slot, first, second)) = updates.clash(model.signature()) {
        return Err(StepError::Stop(Stop::Clash(slot, first, second)));
    }
    updates.apply(room);
    Ok(())
}
