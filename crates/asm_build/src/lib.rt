//! The nodes of a model, made from what was read.
#![tactic(auto)]

mod gather;
mod machine;
mod maker;
mod nodes;
mod operator;
mod rule_nodes;
mod rule_table;
mod whole;

pub use machine::Parts;
pub use maker::Maker;
pub use nodes::{binders_of, term, terms};
pub use rule_nodes::rule;
pub use whole::parts;
