//! The token ring: two models of any size within bounds, and the links between them.
#![tactic(auto)]

mod abstract_model;
mod concrete_model;
mod ring;

pub use ring::{Ring, hold, pair, stations};
