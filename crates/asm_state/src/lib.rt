//! States of a machine: the values of the locations that it keeps.
#![tactic(auto)]

mod map_store;
mod store;

pub use map_store::MapStore;
pub use store::Store;
