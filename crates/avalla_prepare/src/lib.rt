//! Scenarios resolved over a model.
#![tactic(auto)]

mod blocks;
mod error;
mod preparing;
mod resolving;
mod surveying;
mod unfolding;

pub use error::ScenarioError;
pub use preparing::prepare;
