//! Plays of scenarios over a model, and what they print.
#![tactic(auto)]

mod acting;
mod checking;
mod context;
mod judging;
mod lines;
mod playing;
mod stage;
mod stepping;
mod telling;
mod until;

pub use avalla_command::{Command, Play};
pub use playing::{Played, play};
