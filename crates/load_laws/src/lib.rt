//! Laws of the files of a model: what they import, and in which order they are loaded.
#![tactic(auto)]

mod load_law;

pub use load_law::{only_imports_are_read, refused_imports_are_shown, units_stand_in_order};
