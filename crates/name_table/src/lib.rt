//! Tables that find the number of a name at once.
#![tactic(auto)]

mod entries;
mod table;

pub use table::Table;
