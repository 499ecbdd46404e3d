//! Reads the tokens of input files and of scenarios into their trees.
#![tactic(auto)]

mod block;
mod command;
mod constant;
mod laws;
mod parse;
mod setting;
mod step;
mod whole;

pub use laws::parsed_is_spelled;
pub use parse::{inputs, scenario};
