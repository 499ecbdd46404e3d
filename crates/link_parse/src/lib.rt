//! Reads the tokens of link files into their trees.
#![tactic(auto)]

mod laws;
mod link;
mod parse;
mod tree;

pub use laws::parsed_is_spelled;
pub use parse::link_file;
pub use tree::{RawLink, RawLinks};
