//! Variables that stand for values.
ghost use Rattle.std.specs.Prelude.{◌≡◌, ◌≤◌, ◌+◌, length, IfOk};
ghost use Rattle.asm_node.specs.Env.{places_of};
ghost use Rattle.asm_node.specs.Term.{put_tuple};
ghost use Rattle.asm_node.specs.Weight.{weight_of};
ghost use Rattle.asm_eval.specs.World.{parameters_at};

use asm_domain::Value;
use asm_node::{Binder, Env};
use std::alloc::{AllocError, Global};

/// The environment in which the variables of binders have the values at their places.
pub fn bound(env: &Env, binders: &[Binder], values: &[Value]) -> Result<Env, AllocError>
    ensures places { IfOk result (λ bound. places_of bound ≡ put_tuple binders.now values.now (places_of env.now)) }
    ensures weight { IfOk result (λ bound. weight_of bound ≤ length binders.now + weight_of env.now) }
{
    let mut bound = env.copy()?;
    let mut left = binders.len().min(values.len());
    while left > 0 {
        left -= 1;
        bound = bound.value(binders[left].variable, values[left])?;
    }
    Ok(bound)
}

/// The environment in which parameters have the values at their places, and no other variable stands for anything.
pub fn parameters(alloc: Global, variables: &[u32], values: &[Value]) -> Result<Env, AllocError>
    ensures places { IfOk result (λ env. places_of env ≡ parameters_at variables.now values.now) }
    ensures weight { IfOk result (λ env. weight_of env ≤ length variables.now) }
{
    let mut env = Env::new(alloc);
    let mut left = variables.len().min(values.len());
    while left > 0 {
        left -= 1;
        env = env.value(variables[left], values[left])?;
    }
    Ok(env)
}
