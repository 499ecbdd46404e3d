//! The canonical text of a unit: a form of each tree that is read again as this tree, but for its places.
#![tactic(auto)]

mod laws;
mod layout;
mod operands;
mod operator;
mod print;
mod rule;
mod term;
mod unit;

pub use laws::{canonical_text, read_again};
pub use print::print_unit;
