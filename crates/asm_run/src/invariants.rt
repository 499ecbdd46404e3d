//! The invariants of a model in a state.
ghost use Rattle.std.specs.Prelude.{◌≡◌, ◌+◌, IfOk};
ghost use Rattle.asm_node.specs.Machine.{no_input};
ghost use Rattle.asm_node.specs.Model.{machine_of};
ghost use Rattle.asm_node.specs.Step.{IsState, broken, holds};
ghost use Rattle.asm_node.specs.Term.{nowhere};
ghost use Rattle.asm_node.specs.Tree.{plain};
ghost use Rattle.asm_node.specs.Values.{is_true};
ghost use Rattle.asm_fire.specs.Sound.{IsEverExact};

use asm_domain::Value;
use asm_eval::{EvalError, eval};
use asm_node::{Env, Input, Model, Term};
use asm_state::MapStore;
use std::alloc::{AllocError, Global};
use std::rc::Rc;

/// The number of the first invariant that is false in a state, counted from 1.
pub fn broken(alloc: Global, model: &Model, state: &MapStore) -> Result<Option<u32>, AllocError>
    requires { IsState (machine_of model.now) state.now }
    ensures { IfOk result (λ number. number ≡ broken (machine_of model.now) state.now) }
{
    let invariants = model.invariants().slice();
    for (place, invariant) in invariants.iter().enumerate() {
        if !holds(alloc, model, state, invariant)? {
            let number = number_of(place)?;
            return Ok(Some(number));
        }
    }
    Ok(None)
}

/// The number of the invariant at a place. One that doesn't fit counts as want of memory.
fn number_of(place: usize) -> Result<u32, AllocError>
    ensures { IfOk result (λ number. number ≡ place + 1) }
{
    if place >= u32::MAX as usize {
        return Err(AllocError);
    }
    Ok(place as u32 + 1)
}

/// Whether a closed truth value is true in a state, where the input gives nothing.
fn holds(
    alloc: Global,
    model: &Model,
    state: &MapStore,
    condition: &Rc<Term>,
) -> Result<bool, AllocError>
    requires state { IsState (machine_of model.now) state.now }
    requires exact { IsEverExact (machine_of model.now) no_input nowhere (plain condition.now.value) }
    ensures { IfOk result (λ truth. truth ≡ holds (machine_of model.now) state.now (plain condition.now.value)) }
{
    let input = Input::new(alloc);
    let env = Env::new(alloc);
    match eval(alloc, model, state, &input, &env, condition) {
        Ok(value) => Ok(is_true(value)),
        Err(EvalError::Need(_)) => Ok(false),
        Err(EvalError::Memory) => Err(AllocError),
    }
}

fn is_true(value: Value) -> bool
    ensures { result ≡ is_true value }
{
    matches!(value, Value::Bool(true))
}
