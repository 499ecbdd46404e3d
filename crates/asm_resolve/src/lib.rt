//! The model that files are, or the first thing that is wrong with them.
#![tactic(auto)]

mod passes;
mod resolving;
mod signature;

pub use asm_faults::ModelError;
pub use resolving::resolve;
