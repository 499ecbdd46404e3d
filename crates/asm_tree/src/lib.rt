//! The trees of what is read, and the language whose texts they are.
#![tactic(auto)]

pub mod class;
mod error;
mod laws;
mod operator;
pub mod rule;
pub mod script;
pub mod term;
pub mod unit;

pub use error::ParseError;
pub use laws::one_tree;
pub use operator::{Op, Quantifier, UnaryOp};
