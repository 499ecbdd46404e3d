//! Groups of values with their literals, and what follows from them, as gates.
#![tactic(auto)]

mod binding;
mod gates;
mod group;
mod tuple;

pub use binding::{bind, bind_tuples};
pub use gates::{always, both, either, never};
pub use group::{Entry, ValueGroup, ValueGroups, constant, extend, literal_of, merged};
pub use tuple::{Tuple, Tuples, no_values, singles, times};
