//! Reads the tokens of a model's file into its tree.
#![tactic(auto)]

mod declaration;
mod definition;
mod domain;
mod file;
mod header;
mod path;

pub use domain::int;
pub use file::unit_from;
pub use path::read_path;
