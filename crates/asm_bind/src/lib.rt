//! The inputs that the settings of an input file give to the steps of a model.
#![tactic(auto)]

mod constant;
mod error;
mod inputs;
mod settable;
mod setting;

pub use error::BadSet;
pub use inputs::bind_inputs;
pub use settable::{Settable, bind_set};
