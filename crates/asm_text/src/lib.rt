//! The texts of values, locations, states and stops.
#![tactic(auto)]

mod location;
mod place;
mod state;
mod stop;
mod value;

pub use location::{function_name, print_call, print_location};
pub use place::print_place;
pub use state::print_state;
pub use stop::print_stop;
pub use value::print_value;
