//! What a play goes by from its first line to its last.

use asm_node::Model;
use asm_source::Sources;
use std::alloc::Global;

/// The model, the texts in which places are shown, and the greatest number of steps of each `step until`.
#[derive(Clone, Copy)]
pub struct Context<'a> {
    pub alloc: Global,
    pub model: &'a Model,
    pub sources: &'a Sources,
    pub budget: u64,
}
