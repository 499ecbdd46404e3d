//! What a refinement came to.

use asm_domain::Value;
use asm_list::Listed;
use asm_node::{Input, Words};
use asm_state::MapStore;
use cnf_check::{Effort, Refutation};

/// A step of the concrete model beside a state of the abstract one. Neither state need be one that a run reaches.
#[derive(Drop, Debug)]
pub struct Step {
    pub abstract_state: MapStore,
    pub concrete_state: MapStore,
    pub input: Input,
    /// The words that the step draws, each below the number of its candidates.
    pub words: Words,
    pub next: MapStore,
}

/// Whether the concrete model has a step at all from states that conform and meet the invariants.
#[derive(Drop, Debug)]
pub enum Possible {
    /// Such a step.
    Able(Step),
    /// The refutation of a circuit that asks for one.
    Unable(Refutation),
}

/// The functions of a link have different values at some arguments.
#[derive(Drop, Debug)]
pub struct Difference {
    /// The link's number, counted from 0.
    pub link: u32,
    pub arguments: Listed<Value>,
    pub abstract_value: Value,
    pub concrete_value: Value,
}

/// What a refinement came to.
#[derive(Drop, Debug)]
pub enum Report {
    /// The circuit that asks for a step which nothing answers is refuted.
    Proved(Refutation, Possible),
    /// The functions of a link have different values initially.
    InitialDiffers(Difference),
    /// The abstract invariant of this number, counted from 1, is false initially.
    InitialInvariant(u32),
    /// A step that nothing answers, and the refutation of a circuit that asks for an answer to it.
    StepFails(Step, Refutation),
    /// The lines of a search that used up the budget.
    Spent(Effort),
}
