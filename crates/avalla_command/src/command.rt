//! The commands of a scenario over a model.

use asm_domain::Value;
use asm_list::Listed;
use asm_node::{Rule, Term};
use std::rc::Rc;

/// A command that is no block.
#[derive(Drop)]
pub enum Command {
    /// Gives the slot of a monitored or shared location a value in the pending input.
    Set(u32, Value),
    Step,
    StepUntil(Rc<Term>),
    Check(Rc<Term>),
    /// A step of this rule in place of the main rule.
    Exec(Rc<Rule>),
}

/// The commands of a scenario in the order in which they are met. A command of a block that runs several times stands here
/// as often, and is shared.
pub type Play = Listed<Rc<Command>>;
