//! Texts that are read and printed, the files that were read, and the places in them.
#![tactic(auto)]

mod sources;
mod text;

pub use asm_list::{Listed, Name};
pub use sources::{Place, Source, Sources, Spot};
pub use text::{Text, append_integer, append_number, append_str};
