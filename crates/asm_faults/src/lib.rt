//! What files declare, what may be wrong with a model, and the model that they are where nothing is wrong.
#![tactic(auto)]

mod error;
mod fault;
mod first;
mod known;
mod law;

pub use error::ModelError;
pub use fault::{Fault, ModelFault};
pub use first::First;
pub use known::Known;
pub use law::first_is_least;
