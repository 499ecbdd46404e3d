//! The parts of a model.

use asm_node::{Definitions, InitialTerms, Pool, Rule, Rules, Terms};
use std::rc::Rc;

/// The parts of a model, as nodes of one pool.
#[derive(Drop)]
pub struct Parts {
    pub pool: Pool,
    pub main: Rc<Rule>,
    pub invariants: Terms,
    pub initial_terms: InitialTerms,
    pub definitions: Definitions,
    pub rules: Rules,
}
