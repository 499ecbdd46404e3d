//! The update sets of rules.
#![tactic(auto)]

mod by_words;
mod candidates;
mod chooser;
mod drawing;
mod error;
mod join;
mod sound_law;
mod taking;
mod update;

pub use by_words::fire;
pub use drawing::draw_words;
pub use error::FireError;
pub use sound_law::{conditions_are_exact, rules_are_sound};
