ghost use Rattle.std.specs.Prelude.{◌≡◌, ℕ, List, slice_get, IfOk};
ghost use Rattle.asm_node.specs.Env.{places_of};
ghost use Rattle.asm_node.specs.Model.{machine_of};
ghost use Rattle.asm_node.specs.Taking.{evaluated, update, valued};
ghost use Rattle.asm_node.specs.Term.{val, vals};
ghost use Rattle.asm_node.specs.Tree.{plain, plain_all};
ghost use Rattle.asm_node.specs.UpdateSet.{one};
ghost use Rattle.asm_eval.specs.World.{world_in};
ghost use Rattle.asm_fire.specs.Answer.{Fires};
ghost use Rattle.asm_fire.specs.Sound.{IsEverExact, AreEverExact};

use crate::error::FireError;
use asm_domain::Value;
use asm_eval::{World, eval_all, eval_in, is_element, is_undef};
use asm_node::{Env, Stop, Term};
use asm_source::Place;
use asm_state::Store;
use asm_update::Updates;
use std::alloc::{AllocError, Global};
use std::rc::Rc;

/// The set of an update of a function at arguments.
pub fn fire_update<S: Store>(
    world: &World<'_, S>,
    env: &Env,
    place: Place,
    number: u32,
    arguments: &[Rc<Term>],
    value: &Rc<Term>,
) -> Result<Updates, FireError>
    requires arguments { AreEverExact (machine_of world.now.model.now) world.now.input.now (places_of env.now) (plain_all arguments.now) }
    requires value { IsEverExact (machine_of world.now.model.now) world.now.input.now (places_of env.now) (plain value.now.value) }
    ensures { (words : List ℕ) → let w = world_in (machine_of world.now.model.now) (S.state world.now.store.now) world.now.input.now in Fires result words (evaluated (vals w (places_of env.now) (plain_all arguments.now)) words (λ vs. update w place number (slice_get w.machine.signature.functions number) vs (val w (places_of env.now) (plain value.now.value)) words)) }
{
    let values = eval_all(world, env, arguments)?;
    let signature = world.model.signature();
    match signature.functions().item(number as usize) {
        Some(function) => match signature.slot_of(number, values.slice()) {
            Some(slot) => {
                let value = eval_in(world, env, value)?;
                give(world, place, function.codomain, slot, value)
            }
            None => Err(FireError::Stop(Stop::BadArgument(place))),
        },
        None => Err(FireError::Stop(Stop::BadArgument(place))),
    }
}

/// The set of one pair, whose value has to be `undef` or in the codomain.
fn give<S: Store>(
    world: &World<'_, S>,
    place: Place,
    codomain: u32,
    slot: u32,
    value: Value,
) -> Result<Updates, FireError>
    ensures { (words : List ℕ) → Fires result words (valued (world_in (machine_of world.now.model.now) (S.state world.now.store.now) world.now.input.now) place codomain slot value words) }
{
    if is_undef(value) || is_element(world.model.signature().domains(), codomain, value) {
        Ok(one(world.alloc, slot, value)?)
    } else {
        Err(FireError::Stop(Stop::BadValue(place, slot, value)))
    }
}

fn one(alloc: Global, slot: u32, value: Value) -> Result<Updates, AllocError>
    ensures { IfOk result (λ updates. updates ≡ one slot value) }
{
    let mut updates = Updates::new(alloc);
    updates.add(slot, value)?;
    Ok(updates)
}
