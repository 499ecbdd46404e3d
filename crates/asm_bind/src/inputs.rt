//! The inputs of steps.
ghost use Rattle.std.specs.Prelude.{◌≡◌, All, IfOk};
ghost use Rattle.asm_node.specs.Model.{machine_of};
ghost use Rattle.asm_node.specs.Step.{IsInput};
ghost use Rattle.asm_bind.specs.Given as spec;
ghost use Rattle.asm_bind.specs.Given.{Binds};

use crate::error::BadSet;
use crate::settable::Settable;
use asm_node::{Input, Inputs, Model};
use asm_tree::script::{RawInputStep, RawInputs};
use std::alloc::Global;

/// The inputs of steps, or the first bad setting. Of two settings of a location for one step the later one counts.
pub fn bind_inputs(alloc: Global, model: &Model, raw: &RawInputs) -> Result<Inputs, BadSet>
    ensures binds { Binds result (spec.inputs_of (machine_of model.now).signature raw.now) }
    ensures inputs { IfOk result (All (IsInput (machine_of model.now))) }
{
    match Settable::new(alloc, model) {
        Ok(settable) => inputs_over(alloc, model, &settable, raw.steps.slice()),
        Err(_) => Err(BadSet::Memory),
    }
}

/// The inputs of steps, by the functions of the model.
fn inputs_over(
    alloc: Global,
    model: &Model,
    settable: &Settable,
    steps: &[RawInputStep],
) -> Result<Inputs, BadSet>
    requires { settable.now ≡ (machine_of model.now).signature }
    ensures binds { Binds result (spec.step_inputs (machine_of model.now).signature steps.now) }
    ensures inputs { IfOk result (All (IsInput (machine_of model.now))) }
{
    let mut inputs = Inputs::new(alloc);
    'steps: for step in steps {
        let input = step_input(alloc, model, settable, step)?;
        inputs.push(input)?;
    }
    Ok(inputs)
}

/// The input of a step, or the first bad setting.
fn step_input(
    alloc: Global,
    model: &Model,
    settable: &Settable,
    step: &RawInputStep,
) -> Result<Input, BadSet>
    requires { settable.now ≡ (machine_of model.now).signature }
    ensures binds { Binds result (spec.step_input (machine_of model.now).signature step.now) }
    ensures input { IfOk result (IsInput (machine_of model.now)) }
{
    let mut input = Input::new(alloc);
    'sets: for set in step.sets.slice() {
        let (slot, value) = settable.bind(set)?;
        input.set(slot, value)?;
    }
    Ok(input)
}
