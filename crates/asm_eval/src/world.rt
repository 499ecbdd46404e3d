ghost use Rattle.asm_node.specs.Model.{machine_of};
ghost use Rattle.asm_node.specs.Step.{IsState};

use asm_node::{Input, Model};
use asm_state::Store;
use std::alloc::Global;

/// What a term is evaluated in: a model, a store that holds a state of it, and an input.
#[derive(Drop)]
pub struct World<'a, S: Store> {
    pub alloc: Global,
    pub model: &'a Model,
    pub store: &'a S,
    pub input: &'a Input,
    ghost is_state: { IsState (machine_of model.now) (S.state store.now) },
}
