//! Which numbers the variables of a model have makes no difference.
#![tactic(auto)]

mod laws;

pub use laws::{numbers_are_free, script_numbers_are_free};
