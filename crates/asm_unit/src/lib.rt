//! The files of a model: their names, their imports, and what they spell.
#![tactic(auto)]

mod error;
mod import;
mod laws;
mod load;
mod one;
mod parse;
mod path;
mod spelled;
mod whole;

pub use error::LoadError;
pub use import::{import_name, reads_no_file};
pub use laws::{levels_suffice, parsed_is_spelled};
pub use load::{load_all, load_unit};
pub use one::load_one;
pub use parse::unit;
pub use path::normalised;
