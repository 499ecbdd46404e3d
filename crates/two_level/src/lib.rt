//! Deciding whether every case of a problem is met by some answer, by a circuit that asks for all answers and a rival.
#![tactic(auto)]

mod deciding;
mod problem;

pub use deciding::{Verdict, decide};
pub use problem::{EncError, Problem};
