//! The intervals of integer terms, and where one is refused.
#![tactic(auto)]

mod domain;
mod files;
mod intervals;
pub mod rule;
mod scope;
mod spread;
pub mod term;

pub use files::ranges;
pub use intervals::Intervals;
pub use scope::Scope;
pub use spread::Spread;
