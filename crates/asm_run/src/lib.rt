//! Runs of a model, step by step, and what they print.
#![tactic(auto)]

mod advance;
mod error;
mod invariants;
mod print;
mod run;
mod session;

pub use error::{OutError, StepError};
pub use print::{print_state, print_stop};
pub use run::{RunEnd, print_run, print_run_from};
pub use session::Session;
