ghost use Rattle.std.specs.Prelude.{◌≡◌, ℕ, List, [], ◌++◌, ◌∷◌, if◌then◌else◌, Contains, OnOk};
ghost use Rattle.asm_domain.specs.declared.value.Value as domain;
ghost use Rattle.asm_node.specs.Env.{places_of};
ghost use Rattle.asm_node.specs.Machine.{tuples_of};
ghost use Rattle.asm_node.specs.Model.{machine_of};
ghost use Rattle.asm_node.specs.Taking.{candidates, evaluated};
ghost use Rattle.asm_node.specs.Term.{put_tuple, val};
ghost use Rattle.asm_node.specs.Tree.{plain};
ghost use Rattle.asm_eval.specs.Answer.{Answers};
ghost use Rattle.asm_eval.specs.World.{world_in};
ghost use Rattle.asm_fire.specs.Answer.{Fires};
ghost use Rattle.asm_fire.specs.Guard.{truth_of};
ghost use Rattle.asm_fire.specs.Sound.{IsEverExact};

use crate::error::FireError;
use asm_domain::Value;
use asm_eval::{EvalError, Tuples, World, bound, eval_in};
use asm_node::{Binder, Env, Stop, Term, Values};
use asm_source::Place;
use asm_state::Store;
use std::alloc::{AllocError, Global};
use std::rc::Rc;

/// The tuples for which the guard is true.
pub fn candidates<S: Store>(
    world: &World<'_, S>,
    env: &Env,
    place: Place,
    binders: &[Binder],
    guard: &Rc<Term>,
    tuples: &[Values],
) -> Result<Tuples, FireError>
    requires { (vs : List domain.Value) → Contains tuples.now vs → IsEverExact (machine_of world.now.model.now) world.now.input.now (put_tuple binders.now vs (places_of env.now)) (plain guard.now.value) }
    ensures { (words : List ℕ) → Fires result words (candidates place (λ vs. val (world_in (machine_of world.now.model.now) (S.state world.now.store.now) world.now.input.now) (put_tuple binders.now vs (places_of env.now)) (plain guard.now.value)) tuples.now [] words) }
{
    let mut found = Tuples::new(world.alloc);
    for tuple in tuples {
        let value = value_at(world, env, binders, tuple.slice(), guard)?;
        let holds = truth_of(place, value)?;
        keep_if(world.alloc, &mut found, holds, tuple.slice())?;
    }
    Ok(found)
}

/// The value of a term where the variables of binders have values.
fn value_at<S: Store>(
    world: &World<'_, S>,
    env: &Env,
    binders: &[Binder],
    values: &[Value],
    term: &Rc<Term>,
) -> Result<Value, EvalError>
    requires { IsEverExact (machine_of world.now.model.now) world.now.input.now (put_tuple binders.now values.now (places_of env.now)) (plain term.now.value) }
    ensures { Answers (λ v. v) result (val (world_in (machine_of world.now.model.now) (S.state world.now.store.now) world.now.input.now) (put_tuple binders.now values.now (places_of env.now)) (plain term.now.value)) }
{
    let inner = bound(env, binders, values)?;
    eval_in(world, &inner, term)
}

/// Whether a guard is true.
pub fn guard_of<S: Store>(
    world: &World<'_, S>,
    env: &Env,
    place: Place,
    guard: &Rc<Term>,
) -> Result<bool, FireError>
    requires { IsEverExact (machine_of world.now.model.now) world.now.input.now (places_of env.now) (plain guard.now.value) }
    ensures { (words : List ℕ) → Fires result words (evaluated (val (world_in (machine_of world.now.model.now) (S.state world.now.store.now) world.now.input.now) (places_of env.now) (plain guard.now.value)) words (λ v. truth_of place v words)) }
{
    let value = eval_in(world, env, guard)?;
    truth_of(place, value)
}

/// Whether a guard is true; one that is `undef` is a fault.
fn truth_of(place: Place, guard: Value) -> Result<bool, FireError>
    ensures { (words : List ℕ) → Fires result words (truth_of place guard words) }
{
    match guard {
        Value::Bool(holds) => Ok(holds),
        _ => Err(FireError::Stop(Stop::UndefGuard(place))),
    }
}

/// Adds a tuple where it counts.
fn keep_if(
    alloc: Global,
    tuples: &mut Tuples,
    holds: bool,
    tuple: &[Value],
) -> Result<(), AllocError>
    ensures { OnOk result (tuples.new ≡ tuples.old ++ (if holds then tuple.now ∷ [] else [])) }
{
    if holds {
        tuples.push(Values::from_slice(alloc, tuple)?)?;
    }
    Ok(())
}
