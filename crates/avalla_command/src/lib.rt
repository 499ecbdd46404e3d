//! The commands of a scenario over a model.
#![tactic(auto)]

mod command;

pub use command::{Command, Play};
