//! The conditions and rules of scenarios, resolved over a model.
#![tactic(auto)]

mod conditions;
mod resolving;
mod rules;
mod script;
mod tables;
mod telling;

pub use resolving::{resolve_rule, resolve_term};
pub use script::Script;
