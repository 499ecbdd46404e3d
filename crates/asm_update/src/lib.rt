//! Update sets: what a rule gives, and how a state takes it.
#![tactic(auto)]

mod clash;
mod order;
mod place;
mod updates;

pub use updates::Updates;
