//! What the reading of whole files has in common, whatever their grammar.
#![tactic(auto)]

mod error;

pub use error::explained;
